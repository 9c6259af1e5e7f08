// What a club is shown of a text that is refused.
use picture::report;
use std::alloc::Global;
use std::io;

const TEXTS: [&[u8]; 6] = [
    b"",
    b"a|",
    b"[A-Z",
    b"KOI\r)",
    b"SC.*|\xff*",
    b"(((((((((((((((((((((((((((((((((",
];

pub fn run(rt: &HostRuntime, heap: Global) -> io::Result<()> {
    for text in TEXTS {
        rt.print(report(heap, "Pattern", text)?)?;
    }
    // Faults of which the place is a count have no mark.
    rt.print(report(heap, "Pattern", &[b'a'; 257])?)
}
