// A pattern's nodes as an outline: a node to a line, and its operands below it, two blanks further in.
ghost use Rattle.std.specs.Prelude.{◌≡◌, ◌+◌, ◌^◌, ◌<◌, length, Some};
ghost use Rattle.picture.specs.Outline.{Parted, line_of, outline_of};
ghost use Rattle.picture.specs.Words.{node_words};
ghost use Rattle.table.specs.Tree.{postfix, tree_of};

use crate::show::Words;
use std::fmt;
use table::Node;

// The nodes of a pattern, or none: the last, which is the root, and then its operands.
#[derive(Clone, Copy)]
pub struct Outline<'a> {
    pub nodes: &'a [Node],
    pub depth: usize,
    ghost whole: { 0 < length nodes.now → postfix (tree_of nodes.now) ≡ nodes.now },
    ghost shallow: { depth + length nodes.now < 2 ^ 63 },
}

impl fmt::Display for Outline<'_> {
    ghost output = { λ o. Some (outline_of o.depth o.nodes.now) };

    fn fmt<W: fmt::Write>(&self, f: &mut fmt::Formatter<W>) -> fmt::Result {
        let depth = self.depth;
        let Some((node, operands)) = self.nodes.split_last() else {
            return Ok(());
        };
        let line = Line { depth, node };
        line.fmt(f)?;
        // A repeat has no left operand, and a leaf or an empty node has none at all: nothing is written for those.
        let (left, right) = apart(operands);
        let left = Outline {
            nodes: left,
            depth: depth + 1,
        };
        let right = Outline {
            nodes: right,
            depth: depth + 1,
        };
        left.fmt(f)?;
        right.fmt(f)
    }
}

// The nodes of the left operand and of the right one, whose last node says how many they are.
fn apart(operands: &[Node]) -> (&[Node], &[Node])
    ensures { Parted operands.now result.0.now result.1.now }
{
    let right = operands.last().map_or(0, |node| usize::from(node.size));
    operands.split_at(operands.len().saturating_sub(right))
}

// One line: two blanks a level, a node's words, and the byte that ends it.
#[derive(Clone, Copy)]
struct Line<'a> {
    depth: usize,
    node: &'a Node,
    ghost shallow: { depth < 2 ^ 63 },
}

impl fmt::Display for Line<'_> {
    ghost output = { λ l. Some (line_of l.depth (node_words l.node.now)) };

    fn fmt<W: fmt::Write>(&self, f: &mut fmt::Formatter<W>) -> fmt::Result {
        let blanks = 2 * self.depth;
        let words = Words(self.node);
        writeln!(f, "{:blanks$}{words}", "")
    }
}
