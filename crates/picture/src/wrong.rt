// What a refusal says to the person who wrote the pattern.
ghost use Rattle.std.specs.Prelude.{◌≡◌, Some};
ghost use Rattle.picture.specs.Report.{advice, mark_line, place_in_text, refused_lines};

use crate::show::Shown;
use std::fmt;
use text::TextFault;

// What is wrong with a text, and where, and what to do about it: the refusal's three numbers, the text with a mark
// under the place, and the advice, a line each.
#[derive(Clone, Copy)]
pub struct Refused<'a> {
    pub text: &'a [u8],
    pub fault: TextFault,
}

impl fmt::Display for Refused<'_> {
    ghost output = { λ r. Some (refused_lines r.text.now r.fault) };

    fn fmt<W: fmt::Write>(&self, f: &mut fmt::Formatter<W>) -> fmt::Result {
        // The three numbers are named here, which the `Display` of a refusal does not do.
        let refusal = self.fault.refusal();
        let (number, place, layer) = (refusal.number, refusal.place, refusal.layer);
        let shown = Shown(self.text);
        let mark = Mark(place_in_text(self.fault));
        let words = advice(self.fault);
        writeln!(
            f,
            "refused: number {number}, place {place}, layer {layer}\n{shown}\n{mark}{words}"
        )
    }
}

// The line with a mark under a place of the line above, or none.
#[derive(Clone, Copy)]
struct Mark(Option<usize>);

impl fmt::Display for Mark {
    ghost output = { λ m. Some (mark_line m.0) };

    fn fmt<W: fmt::Write>(&self, f: &mut fmt::Formatter<W>) -> fmt::Result {
        match self.0 {
            Some(at) => writeln!(f, "{:at$}^", ""),
            None => Ok(()),
        }
    }
}

// The place in the text, of the faults that have one; of the others the refusal's place is a count.
fn place_in_text(fault: TextFault) -> Option<usize>
    ensures { result ≡ place_in_text fault }
{
    match fault {
        TextFault::TooLong => Some(text::MOST_BYTES),
        TextFault::OffGrammar(at) | TextFault::TooDeep(at) => Some(at),
        TextFault::NodeCount(_) | TextFault::ShortList(_) => None,
    }
}

// What is wrong, and what to do about it.
fn advice(fault: TextFault) -> &'static str
    ensures { result.now ≡ advice fault }
{
    match fault {
        TextFault::TooLong => "the text has more than 4096 bytes: leave out all from the mark on",
        TextFault::OffGrammar(_) => "the text stops fitting the grammar at the mark: mend it there",
        TextFault::TooDeep(_) => "the bracket at the mark is inside 32 others: use fewer brackets",
        TextFault::NodeCount(_) => "the pattern has more than 512 nodes: make it shorter",
        TextFault::ShortList(_) => "the program lent too few nodes: tell those who look after it",
    }
}
