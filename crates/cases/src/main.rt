// Runs the text reader, the judge, the picture, sessions and sheets on many cases, and prints a line for each, to be held to the
// stored answers.
#![tactic(auto)]

mod judged;
mod lent;
mod limits;
mod outcome;
mod owing;
mod pictures;
mod replies;
mod sessions;
mod settled;
mod sheets;
mod texts;

use std::io;

fn main(rt: HostRuntime) -> io::Result<()> {
    let heap = rt.alloc();
    texts::run(&rt, heap)?;
    lent::run(&rt, heap)?;
    judged::run(&rt, heap)?;
    pictures::run(&rt, heap)?;
    sessions::run(&rt, heap)?;
    limits::run(&rt, heap)?;
    sheets::run(&rt, heap)
}
