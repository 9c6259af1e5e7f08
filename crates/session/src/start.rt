// The marks of a pattern before the first symbol: each node's weight over the empty word, and no mark.
ghost use Rattle.std.specs.Prelude.{◌≡◌, ◌+◌, ◌++◌, length};
ghost use Rattle.session.specs.Marks.{empty_weight};
ghost use Rattle.session.specs.Shifts.{Binary, Fits, left_of, right_of};
ghost use Rattle.session.specs.Starts.{below_root, first_marks};
ghost use Rattle.table.specs.Tree.{tree_of};

use crate::marks::{
    EMPTY_WEIGHT, FLAG, LAST_WEIGHT, WEIGHTS_PER_NODE, operand, operands, root, root_kind,
};
use scale::Scale;
use table::{Node, NodeKind, Symbol};

// Writes the first marks of a pattern. Nodes and marks are two parameters here as in `shift`, for the same reason.
#[cycle(starting)]
pub(crate) fn start<W: Scale, S: Symbol>(nodes: &[Node], marks: &mut [W])
    requires fits { Fits (tree_of nodes.now) nodes.now (length marks.old) }
    ensures { marks.new ≡ first_marks W.Scale.ops S.Symbol.passing (tree_of nodes.now) }
{
    let (below, top) = marks.split_at_mut(marks.len() - WEIGHTS_PER_NODE);
    top[EMPTY_WEIGHT] = start_below::<W, S>(nodes, below);
    top[LAST_WEIGHT] = W::zero();
    top[FLAG] = W::zero();
}

// Writes the first marks of the root's operands, and answers the root's weight over the empty word.
#[cycle(starting)]
fn start_below<W: Scale, S: Symbol>(nodes: &[Node], below: &mut [W]) -> W
    requires fits { Fits (tree_of nodes.now) nodes.now (length below.old + 3) }
    ensures value { result ≡ empty_weight W.Scale.ops S.Symbol.passing (tree_of nodes.now) }
    ensures below { below.new ≡ below_root W.Scale.ops S.Symbol.passing (tree_of nodes.now) }
{
    match root_kind(nodes) {
        NodeKind::Leaf => W::zero(),
        NodeKind::Either => {
            let (left, right) = start_both::<W, S>(nodes, below);
            left.add(right)
        }
        NodeKind::Then => {
            let (left, right) = start_both::<W, S>(nodes, below);
            left.mul(right)
        }
        NodeKind::Repeat => {
            start::<W, S>(operand(nodes), below);
            one_way()
        }
        NodeKind::Empty => one_way(),
    }
}

// Writes the first marks of both operands, and answers their weights over the empty word.
#[cycle(starting)]
fn start_both<W: Scale, S: Symbol>(nodes: &[Node], below: &mut [W]) -> (W, W)
    requires fits { Fits (tree_of nodes.now) nodes.now (length below.old + 3) }
    requires two { Binary (tree_of nodes.now) }
    ensures left { result.0 ≡ empty_weight W.Scale.ops S.Symbol.passing (left_of (tree_of nodes.now)) }
    ensures right { result.1 ≡ empty_weight W.Scale.ops S.Symbol.passing (right_of (tree_of nodes.now)) }
    ensures below { below.new ≡ first_marks W.Scale.ops S.Symbol.passing (left_of (tree_of nodes.now)) ++ first_marks W.Scale.ops S.Symbol.passing (right_of (tree_of nodes.now)) }
{
    let (left, right) = operands(nodes);
    let (first, second) = below.split_at_mut(WEIGHTS_PER_NODE * left.len());
    start::<W, S>(left, first);
    start::<W, S>(right, second);
    (root(first).empty, root(second).empty)
}

// An empty node and a repeat read the empty word in one way; a repeat has no empty part.
fn one_way<W: Scale>() -> W
    ensures { result ≡ W.Scale.ops.one }
{
    W::unit()
}
