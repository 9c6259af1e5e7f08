// Sessions: the marks of a pattern, which add up what a word weighs by all its readings, symbol by symbol.
#![tactic(auto)]

mod fault;
mod lent;
mod marks;
mod run;
mod session;
mod start;
mod strays;
mod turn;
mod word;

pub use fault::{MOST_SYMBOLS, SessionFault};
pub use lent::judge_weights;
pub use marks::WEIGHTS_PER_NODE;
pub use readings::{
    cap_of_counts, longest_priced_word, weight_at_both, worked_counts, yes_of_some_reading,
};
pub use run::{run_both, run_turns};
pub use session::Session;
pub use strays::{ends_of_ranges, new_mark_counts};
pub use turn::{Ask, Reply, Turn};
pub use word::mark_word;
