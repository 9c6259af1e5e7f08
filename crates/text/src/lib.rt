// The pattern text: from the bytes that a club writes to the nodes of a byte table.
#![tactic(auto)]

mod fault;
mod judged;
mod reader;

pub use fault::TextFault;
pub use judged::table_of;
pub use reader::{MOST_BYTES, MOST_DEPTH, read};
