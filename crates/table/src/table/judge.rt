// The judge: which lists of nodes are checked tables, and what is wrong with the others.
ghost use Rattle.std.specs.Prelude.{◌≡◌, ◌-◌, ◌^◌, ◌<◌, ◌≤◌, true, false, [], ◌∷◌, length, None, MatchOption, MatchResult, OnOk};
ghost use Rattle.table.specs.Content.{content, held, tree};
ghost use Rattle.table.specs.Faults.{answered};
ghost use Rattle.table.specs.NodeKinds.{number_of};
ghost use Rattle.table.specs.Rules.{count_refusal, due, fed, first_wrong, last_refusal, node_refusal, size_at, verdict, wrong, Writes};
ghost use Rattle.table.specs.Tree.{inner, postfix, tree_of, Tree};

use crate::fault::TableFault;
use crate::node::{BLANK, Leaf, Node, NodeKind};
use crate::symbol::Symbol;
use crate::table::{MOST_NODES, Table};
use arrayvec::ArrayVec;

impl Table {
    // A table of one empty node, for bytes.
    pub fn new() -> Table
        ensures { content result ≡ held 1 (inner 0 1 ∷ []) }
    {
        let mut nodes = ArrayVec::new();
        nodes.push(BLANK);
        Table {
            nodes,
            kind: <u8 as Symbol>::kind(),
        }
    }

    // Judges a list for a kind of symbol: fills the table with it, or says what is wrong first and leaves the table
    // as it was. The count is judged first, then node by node, then the last size against the length.
    pub fn judge<S: Symbol>(&mut self, nodes: &[Node]) -> Result<(), TableFault>
        ensures answer { answered result ≡ verdict S.Symbol.admitted nodes.now }
        ensures means { (answered result ≡ None → Writes S.Symbol.admitted nodes.now) × (Writes S.Symbol.admitted nodes.now → answered result ≡ None) }
        ensures after { MatchResult result (λ _. content self.new ≡ held S.Symbol.number nodes.now) (λ _. self.new ≡ self.old) }
        ensures alone { OnOk result ((t : Tree) → postfix t ≡ nodes.now → t ≡ tree self.new) }
    {
        judge_list::<S>(nodes)?;
        let mut held = ArrayVec::new();
        held.try_extend_from_slice(nodes).unwrap();
        *self = Table {
            nodes: held,
            kind: S::kind(),
        };
        Ok(())
    }

    // The number of the kind of symbol that the table was judged for, as the trait `Symbol` has it.
    pub fn kind(&self) -> u8
        ensures { result ≡ (content self.now).kind }
    {
        self.kind
    }

    // The table's nodes: what the table's tree writes out.
    pub fn nodes(&self) -> &[Node]
        ensures value { result.now ≡ (content self.now).nodes }
        ensures whole { postfix (tree self.now) ≡ result.now }
        ensures bound { (1 ≤ length result.now) × (length result.now ≤ 512) }
    {
        self.nodes.as_slice()
    }
}

// The whole list, with what its answer means, which is shown once here and not at each exit of the steps.
fn judge_list<S: Symbol>(nodes: &[Node]) -> Result<(), TableFault>
    ensures answer { answered result ≡ verdict S.Symbol.admitted nodes.now }
    ensures means { (answered result ≡ None → Writes S.Symbol.admitted nodes.now) × (Writes S.Symbol.admitted nodes.now → answered result ≡ None) }
    ensures whole { OnOk result ((length nodes.now ≤ 512) × (postfix (tree_of nodes.now) ≡ nodes.now)) }
    ensures alone { (t : Tree) → postfix t ≡ nodes.now → t ≡ tree_of nodes.now }
{
    judge_steps::<S>(nodes)
}

// The count, node by node, and the last size.
#[tactic(auto, using(crate::proofs::Verdicts::count_refused, crate::proofs::Verdicts::node_refused, crate::proofs::Verdicts::last_judged))]
fn judge_steps<S: Symbol>(nodes: &[Node]) -> Result<(), TableFault>
    ensures { answered result ≡ verdict S.Symbol.admitted nodes.now }
{
    judge_count(nodes)?;
    judge_nodes::<S>(nodes)?;
    judge_last(nodes)
}

fn judge_count(nodes: &[Node]) -> Result<(), TableFault>
    ensures { answered result ≡ count_refusal nodes.now }
{
    let count = nodes.len();
    if count == 0 || count > MOST_NODES {
        return Err(TableFault::NodeCount(count));
    }
    Ok(())
}

// The nodes one by one, up to the first that is wrong. The loop goes over places, since a node is judged against those
// before it and its place is what a fault says.
#[tactic(auto, using(crate::proofs::Verdicts::onward_more, crate::proofs::Verdicts::onward_refused))]
fn judge_nodes<S: Symbol>(nodes: &[Node]) -> Result<(), TableFault>
    ensures { answered result ≡ first_wrong (wrong S.Symbol.admitted nodes.now) (length nodes.now) 0 }
{
    for at in 0..nodes.len() {
        judge_node::<S>(nodes, at)?;
    }
    Ok(())
}

// Whether the last node has all the others below it.
fn judge_last(nodes: &[Node]) -> Result<(), TableFault>
    ensures { answered result ≡ last_refusal nodes.now }
{
    match nodes.last() {
        Some(root) if usize::from(root.size) != nodes.len() => {
            Err(TableFault::WrongSize(nodes.len() - 1))
        }
        _ => Ok(()),
    }
}

// One node against those before it.
fn judge_node<S: Symbol>(nodes: &[Node], at: usize) -> Result<(), TableFault>
    requires { at < length nodes.now }
    ensures { answered result ≡ node_refusal at (wrong S.Symbol.admitted nodes.now at) }
{
    let node = nodes[at];
    let kind = NodeKind::try_from(node.kind).map_err(|_| TableFault::BadNode(at))?;
    let bare = node
        == Node {
            kind: node.kind,
            size: node.size,
            ..Node::default()
        };
    if kind != NodeKind::Leaf && !bare {
        return Err(TableFault::BadNode(at));
    }
    let due = due_size(nodes, at, kind).ok_or(TableFault::NoOperand(at))?;
    if usize::from(node.size) != due {
        return Err(TableFault::WrongSize(at));
    }
    if kind == NodeKind::Leaf && !S::admits(Leaf::from(node)) {
        return Err(TableFault::BadLeaf(at));
    }
    Ok(())
}

// The size that a node of that kind must have at that place, or none where an operand is missing.
fn due_size(nodes: &[Node], at: usize, kind: NodeKind) -> Option<usize>
    requires { at < length nodes.now }
    ensures { MatchOption result (fed nodes.now at (number_of kind) ≡ false) (λ d. (fed nodes.now at (number_of kind) ≡ true) × (d ≡ due nodes.now at (number_of kind))) }
{
    match kind {
        NodeKind::Empty | NodeKind::Leaf => Some(1),
        NodeKind::Repeat => Some(size_before(nodes, at)? + 1),
        NodeKind::Either | NodeKind::Then => {
            let right = size_before(nodes, at)?;
            let left = size_before(nodes, at.checked_sub(right)?)?;
            Some(left + right + 1)
        }
    }
}

// The size of the node that ends just before a place. Of `last` of the nodes before it the check does not find this.
fn size_before(nodes: &[Node], end: usize) -> Option<usize>
    requires { end ≤ length nodes.now }
    ensures { MatchOption result (end ≡ 0) (λ s. (0 < end) × (s ≡ size_at nodes.now (end - 1)) × (s < 2 ^ 16)) }
{
    let last = end.checked_sub(1)?;
    Some(usize::from(nodes[last].size))
}
