// A meet: its patterns and result lines, and the row that is written for each line.
#![tactic(auto)]

mod desk;
mod listing;
mod parsing;
mod patterns;
mod tables;
mod whole;
mod writing;

pub use parsing::lane_and_text;
pub use whole::rows;
pub use writing::{fault_row, row};
