// Writes a row for each result line of a meet: lane, letter and number of readings. The line pattern and the club pattern
// stand in `patterns.txt`, the start list in `start.txt` and the results in `results.txt`.
#![tactic(auto)]

use std::io;
use std::io::Write;

fn main(rt: HostRuntime) -> io::Result<()> {
    let heap = rt.alloc();
    let patterns = files::front(&rt, heap, "patterns.txt")?;
    // Club names will come from it where a result line has none.
    let _start = files::front(&rt, heap, "start.txt")?;
    let results = files::front(&rt, heap, "results.txt")?;
    let rows = meet::rows(heap, patterns.as_slice(), results.as_slice())?;
    rt.stdout().write_all(rows.as_slice())
}
