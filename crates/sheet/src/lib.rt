// The ruling sheet: which lanes have one reading, which are to be ruled on, and how they were ruled.
#![tactic(auto)]

mod entry;
mod fault;
mod lane;
mod lanes;
mod sheet;
mod slip;
mod standing;
mod weigh;

pub use entry::Entry;
pub use fault::SheetFault;
pub use lanes::LaneSet;
pub use sheet::{ClosedSheet, Sheet, StillOpen};
pub use slip::{Returned, Slip};
