// The marks of a pattern: three weights a node, shifted one symbol at a time.
//
// A node's three weights stand side by side: its weight over the empty word; its last weight, the sum of the ways in
// which it ends at the latest symbol; and its flag, one where some leaf below has a last weight that is not nothing.
ghost use Rattle.std.specs.Prelude.{◌≡◌, ◌+◌, ◌-◌, ◌≤◌, [], ◌∷◌, not, length, drop, if◌then◌else◌};
ghost use Rattle.session.specs.Shifts.{Binary, Fits, Shifted, Writes, left_of, right_of};
ghost use Rattle.table.specs.NodeKinds.{number_of};
ghost use Rattle.table.specs.Rules.{node_at};
ghost use Rattle.table.specs.Tree.{either, leaf, leaf_of, postfix, repeat, then, tree_of};

use scale::Scale;
use table::{Leaf, Node, NodeKind, Symbol};

// How many weights a node takes.
pub const WEIGHTS_PER_NODE: usize = 3;

// Where each of a node's weights stands among its three, since they are lent as one flat list.
pub(crate) const EMPTY_WEIGHT: usize = 0;

pub(crate) const LAST_WEIGHT: usize = 1;

pub(crate) const FLAG: usize = 2;

// Shifts the marks of a pattern by one symbol, and answers how many leaves were tested: just the live ones.
//
// A part of the pattern into which nothing comes and which has no mark below is passed over, since nothing changes there.
//
// Nodes and marks stay two parameters. A struct of both, lent to each call, took a tenth more instructions over 512 nodes;
// handed over by value it gets no proof, as the caller has the marks back.
#[cycle(shifting)]
#[inline(always)]
pub(crate) fn shift<W: Scale, S: Symbol>(
    nodes: &[Node],
    marks: &mut [W],
    incoming: W,
    symbol: S,
) -> usize
    requires fits { Fits (tree_of nodes.now) nodes.now (length marks.old) }
    ensures few { result ≤ length nodes.now }
    ensures shifted { Shifted W.Scale.ops S.Symbol.passing (tree_of nodes.now) marks.old incoming symbol marks.new result }
{
    if incoming.is_zero() && root(marks).flag.is_zero() {
        return 0;
    }
    if nodes.len() > 1 {
        return shift_inner(nodes, marks, incoming, symbol);
    }
    match root_kind(nodes) {
        NodeKind::Leaf => shift_leaf(nodes[0], marks, incoming, symbol),
        _ => 0,
    }
}

// A node with operands. It is the one function that calls itself: `shift` stands in its callers, so a leaf costs no call.
#[cycle(shifting)]
#[inline(never)]
fn shift_inner<W: Scale, S: Symbol>(
    nodes: &[Node],
    marks: &mut [W],
    incoming: W,
    symbol: S,
) -> usize
    requires fits { Fits (tree_of nodes.now) nodes.now (length marks.old) }
    requires long { 2 ≤ length nodes.now }
    ensures few { result ≤ length nodes.now }
    ensures shifted { Shifted W.Scale.ops S.Symbol.passing (tree_of nodes.now) marks.old incoming symbol marks.new result }
{
    match root_kind(nodes) {
        NodeKind::Either => shift_either(nodes, marks, incoming, symbol),
        NodeKind::Then => shift_then(nodes, marks, incoming, symbol),
        NodeKind::Repeat => shift_repeat(nodes, marks, incoming, symbol),
        // No other node has operands.
        _ => 0,
    }
}

#[cycle(shifting)]
fn shift_either<W: Scale, S: Symbol>(
    nodes: &[Node],
    marks: &mut [W],
    incoming: W,
    symbol: S,
) -> usize
    requires fits { Fits (tree_of nodes.now) nodes.now (length marks.old) }
    requires two { tree_of nodes.now ≡ either (left_of (tree_of nodes.now)) (right_of (tree_of nodes.now)) }
    ensures few { result ≤ length nodes.now }
    ensures shifted { Shifted W.Scale.ops S.Symbol.passing (tree_of nodes.now) marks.old incoming symbol marks.new result }
{
    let (left, right) = operands(nodes);
    let (first, rest) = marks.split_at_mut(WEIGHTS_PER_NODE * left.len());
    let (second, top) = rest.split_at_mut(WEIGHTS_PER_NODE * right.len());
    let a = shift(left, first, incoming, symbol);
    let b = shift(right, second, incoming, symbol);
    let (left, right) = (root(first), root(second));
    top[LAST_WEIGHT] = left.last.add(right.last);
    top[FLAG] = either_flag(left.flag, right.flag);
    a + b
}

// The right operand's incoming weight is from before this symbol, so it is read before the left one is shifted.
#[cycle(shifting)]
fn shift_then<W: Scale, S: Symbol>(nodes: &[Node], marks: &mut [W], incoming: W, symbol: S) -> usize
    requires fits { Fits (tree_of nodes.now) nodes.now (length marks.old) }
    requires two { tree_of nodes.now ≡ (then) (left_of (tree_of nodes.now)) (right_of (tree_of nodes.now)) }
    ensures few { result ≤ length nodes.now }
    ensures shifted { Shifted W.Scale.ops S.Symbol.passing (tree_of nodes.now) marks.old incoming symbol marks.new result }
{
    let (left, right) = operands(nodes);
    let (first, rest) = marks.split_at_mut(WEIGHTS_PER_NODE * left.len());
    let (second, top) = rest.split_at_mut(WEIGHTS_PER_NODE * right.len());
    let before = root(first);
    let onward = incoming.mul(before.empty).add(before.last);
    let a = shift(left, first, incoming, symbol);
    let b = shift(right, second, onward, symbol);
    let (left, right) = (root(first), root(second));
    top[LAST_WEIGHT] = left.last.mul(right.empty).add(right.last);
    top[FLAG] = either_flag(left.flag, right.flag);
    a + b
}

#[cycle(shifting)]
fn shift_repeat<W: Scale, S: Symbol>(
    nodes: &[Node],
    marks: &mut [W],
    incoming: W,
    symbol: S,
) -> usize
    requires fits { Fits (tree_of nodes.now) nodes.now (length marks.old) }
    requires one { tree_of nodes.now ≡ repeat (left_of (tree_of nodes.now)) }
    ensures few { result ≤ length nodes.now }
    ensures shifted { Shifted W.Scale.ops S.Symbol.passing (tree_of nodes.now) marks.old incoming symbol marks.new result }
{
    let (below, top) = marks.split_at_mut(marks.len() - WEIGHTS_PER_NODE);
    let onward = incoming.add(root(below).last);
    let tests = shift(operand(nodes), below, onward, symbol);
    // Read one by one: a root that is bound here is copied whole, which took half as much stack again.
    top[LAST_WEIGHT] = root(below).last;
    top[FLAG] = root(below).flag;
    tests
}

// The kind of a pattern's root. A checked list has known kinds only.
//
// That the nodes write out a tree is asked of this and the next two in a clause. A type that says it would be made anew at
// each cut, where `Fits` says it already.
#[inline(always)]
pub(crate) fn root_kind(nodes: &[Node]) -> NodeKind
    requires some { 1 ≤ length nodes.now }
    requires whole { postfix (tree_of nodes.now) ≡ nodes.now }
    ensures { (node_at nodes.now (length nodes.now - 1)).kind ≡ number_of result }
{
    NodeKind::try_from(nodes[nodes.len() - 1].kind).unwrap()
}

// The nodes of a root's two operands. The right one's root stands just before the root. The marks are cut where they are
// shifted, in two lines: a function that hands out three parts of a lent list would say more than it saves.
pub(crate) fn operands(nodes: &[Node]) -> (&[Node], &[Node])
    requires whole { postfix (tree_of nodes.now) ≡ nodes.now }
    requires two { Binary (tree_of nodes.now) }
    ensures left { Writes (left_of (tree_of nodes.now)) result.0.now }
    ensures right { Writes (right_of (tree_of nodes.now)) result.1.now }
    ensures all { length nodes.now ≡ length result.0.now + length result.1.now + 1 }
{
    let top = nodes.len() - 1;
    let right = usize::from(nodes[top - 1].size);
    nodes[..top].split_at(top - right)
}

// The nodes of a repeat's operand.
pub(crate) fn operand(nodes: &[Node]) -> &[Node]
    requires whole { postfix (tree_of nodes.now) ≡ nodes.now }
    requires one { tree_of nodes.now ≡ repeat (left_of (tree_of nodes.now)) }
    ensures only { Writes (left_of (tree_of nodes.now)) result.now }
    ensures all { length nodes.now ≡ length result.now + 1 }
{
    &nodes[..nodes.len() - 1]
}

// A node's three weights.
#[derive(Clone, Copy)]
pub(crate) struct NodeWeights<W> {
    pub(crate) empty: W,
    pub(crate) last: W,
    pub(crate) flag: W,
}

// The weights of a pattern's root, which stand last.
#[inline(always)]
pub(crate) fn root<W: Scale>(marks: &[W]) -> NodeWeights<W>
    requires { 3 ≤ length marks.now }
    ensures { drop (length marks.now - 3) marks.now ≡ result.empty ∷ result.last ∷ result.flag ∷ [] }
{
    let top = marks.len() - WEIGHTS_PER_NODE;
    NodeWeights {
        empty: marks[top + EMPTY_WEIGHT],
        last: marks[top + LAST_WEIGHT],
        flag: marks[top + FLAG],
    }
}

// The flag over two operands: one where either has it.
fn either_flag<W: Scale>(left: W, right: W) -> W
    ensures { result ≡ (if W.Scale.ops.vanishes left then right else left) }
{
    if left.is_zero() { right } else { left }
}

// A leaf that nothing comes into is not tested.
fn shift_leaf<W: Scale, S: Symbol>(node: Node, marks: &mut [W], incoming: W, symbol: S) -> usize
    requires long { length marks.old ≡ 3 }
    ensures few { result ≤ 1 }
    ensures shifted { Shifted W.Scale.ops S.Symbol.passing (leaf (leaf_of node) node.price) marks.old incoming symbol marks.new result }
{
    if incoming.is_zero() {
        marks[LAST_WEIGHT] = W::zero();
        marks[FLAG] = W::zero();
        return 0;
    }
    let last = leaf_mark(node, incoming, symbol);
    marks[LAST_WEIGHT] = last;
    marks[FLAG] = leaf_flag(last);
    1
}

// What a leaf's last weight becomes.
fn leaf_mark<W: Scale, S: Symbol>(node: Node, incoming: W, symbol: S) -> W
    ensures { result ≡ (if S.Symbol.passing (leaf_of node) symbol then W.Scale.ops.times incoming (W.Scale.ops.priced node.price) else W.Scale.ops.nothing) }
{
    if symbol.passes(Leaf::from(node)) {
        incoming.mul(W::of_price(node.price))
    } else {
        W::zero()
    }
}

// The flag of a leaf with that last weight.
fn leaf_flag<W: Scale>(mark: W) -> W
    ensures { result ≡ (if not (W.Scale.ops.vanishes mark) then W.Scale.ops.one else W.Scale.ops.nothing) }
{
    if mark.is_zero() { W::zero() } else { W::unit() }
}
