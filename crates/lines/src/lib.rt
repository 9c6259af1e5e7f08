// Cutting a file's bytes into lines. Byte 10 alone ends a line, and the last line may lack it: a final byte 10 begins
// no further line. Every other byte, 13 too, belongs to its line. An empty file has no line.
#![tactic(auto)]

ghost use Rattle.std.specs.Prelude.{◌≡◌, ◌==◌, [], MatchOption};
ghost use Rattle.lines.specs.Laws.{Cut, Lawful};
ghost use Rattle.lines.specs.Lines.{lines};
ghost use Rattle.lines.specs.Rest.{lines_left};
ghost use Rattle.std.specs.Iterator.{YieldsFirstRef, item_count};
ghost use Rattle.std.specs.List.{position, slice_get};
ghost use Rattle.std.specs.Option.{option_map};

// The byte that ends a line.
const LINE_END: u8 = b'\n';

// The first line, without the byte that ends it, and what follows that byte; none where the file is empty.
pub fn cut(file: &[u8]) -> Option<(&[u8], &[u8])>
    ensures parts { MatchOption result (file.now ≡ []) (λ x. Cut file.now x.0.now x.1.now) }
    ensures law { Lawful file.now }
{
    match line_end(file) {
        Some(end) => Some((&file[..end], &file[end + 1..])),
        None if file.is_empty() => None,
        None => Some((file, &[])),
    }
}

// The place of the first byte 10.
fn line_end(file: &[u8]) -> Option<usize>
    ensures { result ≡ position (λ b. b == 10) file.now }
{
    file.iter().position(|byte| *byte == LINE_END)
}

// The lines of a file, from the first to the last.
#[derive(Clone, Copy)]
pub struct Lines<'f> {
    rest: &'f [u8],
}

impl<'f> Lines<'f> {
    pub fn new(file: &'f [u8]) -> Lines<'f>
        ensures { lines_left result ≡ lines file.now }
    {
        Lines { rest: file }
    }
}

impl<'f> Iterator for Lines<'f> {
    type Item = &'f [u8];

    ghost next_gives = { YieldsFirstRef lines_left };

    ghost remaining = { item_count lines_left };

    fn next(&mut self) -> Option<&'f [u8]> {
        let (line, rest) = cut(self.rest)?;
        self.rest = rest;
        Some(line)
    }
}

// The line of that number, counted from 0; none where the file has no such line.
pub fn nth_line(file: &[u8], n: usize) -> Option<&[u8]>
    ensures { option_map (λ x. x.now) result ≡ slice_get (lines file.now) n }
{
    Lines::new(file).nth(n)
}
