// Shows a club, before the meet, how the two patterns of its file `patterns.txt` are understood: the first line is the
// line pattern, the second the club pattern.
#![tactic(auto)]

use picture::report;
use std::io;

fn main(rt: HostRuntime) -> io::Result<()> {
    let heap = rt.alloc();
    let file = files::front(&rt, heap, "patterns.txt")?;
    let line = lines::nth_line(file.as_slice(), 0).unwrap_or(b"");
    let club = lines::nth_line(file.as_slice(), 1).unwrap_or(b"");
    rt.println(report(heap, "Line pattern", line)?)?;
    rt.print(report(heap, "Club pattern", club)?)
}
