// The table: patterns as nodes in postfix order, the kinds of symbol, and the judge that checks a list of nodes.
#![tactic(auto)]

mod byte;
mod fault;
mod node;
mod symbol;
mod table;
mod touch;

pub use fault::{Refusal, TableFault};
pub use node::{BLANK, Leaf, Node, NodeKind, UnknownKind};
pub use symbol::Symbol;
pub use table::{MOST_NODES, Table};
pub use touch::{Touch, pad_leaf_bounds};
