// Reading the beginning of a file.
#![tactic(auto)]

ghost use Rattle.std.specs.Prelude.{◌≡◌, ◌≤◌, take, IfSome, IfOk, vec_len};

use std::alloc::Global;
use std::fs::File;
use std::io;
use std::io::{ErrorKind, Read};

// How many bytes of a file are read; what follows them is not looked at.
pub const MOST_READ: usize = 16_384;

// The file's first bytes. A file that is not there counts as empty; any other failure to read it is handed on. What a file
// has is not known to a contract, so this one says no more than how much is read; that of `first_bytes` says the rest.
pub fn front(rt: &HostRuntime, heap: Global, path: &str) -> io::Result<Vec<u8>>
    ensures { IfOk result (λ bytes. vec_len bytes ≤ MOST_READ) }
{
    match File::open(rt, path) {
        Ok(file) => first_bytes(heap, file),
        Err(e) if e.kind() == ErrorKind::NotFound => Ok(Vec::new(heap)),
        Err(e) => Err(e),
    }
}

// The first bytes that a reader gives.
pub fn first_bytes<R: Read + Drop>(heap: Global, reader: R) -> io::Result<Vec<u8>>
    ensures bytes { IfOk result (λ bytes. IfSome (R.remaining reader) (λ all. bytes.items ≡ take MOST_READ all)) }
    ensures few { IfOk result (λ bytes. vec_len bytes ≤ MOST_READ) }
{
    let mut bytes = Vec::new(heap);
    // `usize` has no `From` to `u64`.
    reader.take(MOST_READ as u64).read_to_end(&mut bytes)?;
    // No more were read; a reader of which nothing is known does not promise that.
    bytes.truncate(MOST_READ);
    Ok(bytes)
}

#[cfg(test)]
mod tests {
    use super::*;
    use std::test::Fail;

    #[test]
    fn reads_as_much_as_there_is(rt: HostRuntime) -> Result<(), Fail> {
        let heap = rt.alloc();
        let long = [7u8; MOST_READ + 1];
        for (given, read) in [(0, 0), (5, 5), (16_384, 16_384), (16_385, 16_384)] {
            let bytes = first_bytes(heap, &long[..given])?;
            assert_eq!(rt; bytes.len(), read);
        }
        let none = front(&rt, heap, "no-such-file")?;
        assert!(rt; none.is_empty());
        let all = front(&rt, heap, "/dev/zero")?;
        assert_eq!(rt; all.len(), MOST_READ);
        Ok(())
    }
}
