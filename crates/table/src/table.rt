// A checked table: its type keeps the rules of a pattern's list.
ghost use Rattle.std.specs.Prelude.{◌≡◌, ◌≤◌, length};
ghost use Rattle.table.specs.Tree.{postfix, tree_of};

use crate::node::Node;
use arrayvec::ArrayVec;

mod judge;

// The most nodes that a table holds.
pub const MOST_NODES: usize = 512;

// A list of 1 to 512 nodes that writes a tree out in postfix order, and the number of the kind of symbol that it was
// judged for: a number, since further kinds of symbol are written outside this crate.
#[derive(Drop)]
pub struct Table {
    nodes: ArrayVec<Node, MOST_NODES>,
    kind: u8,
    ghost few: { length nodes.items ≤ 512 },
    ghost whole: { postfix (tree_of nodes.items) ≡ nodes.items },
}
