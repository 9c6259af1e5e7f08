// The picture of a pattern: how its text was understood, in a person's words.
#![tactic(auto)]

mod pattern;
mod show;
mod tree;
mod wrong;

pub use pattern::report;
