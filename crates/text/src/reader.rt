// The reader: pattern, branch, piece and atom, each a method, in one pass over the text.
ghost use Rattle.std.specs.Prelude.{◌≡◌, ℕ, ◌+◌, ◌-◌, ◌*◌, ◌<◌, ◌≤◌, ◌⊎◌, length, take, IfOk, None, Ok, MatchBool, Result as Answer, MatchResult};
ghost use Rattle.table.specs.Kinds.{byte_admitted};
ghost use Rattle.table.specs.NodeKinds.{number_of};
ghost use Rattle.table.specs.Rules.{verdict};
ghost use Rattle.table.specs.Tree.{inner, leaf_node};
ghost use Rattle.text.specs.Classes.{class_of};
ghost use Rattle.text.specs.Reads.{Answers, Leaves, Means};
ghost use Rattle.text.specs.Scan.{start};
ghost use Rattle.text.specs.Grammar.{Pattern};
ghost use Rattle.text.specs.Steps.{There, WholeRead, fault_of, outcome, stopped};

use crate::fault::TextFault;
use table::{BLANK, MOST_NODES, Node, NodeKind};

// The most bytes of a pattern text.
pub const MOST_BYTES: usize = 4096;

// How deep brackets nest at most.
pub const MOST_DEPTH: usize = 32;

// What a byte does where an atom may begin or a piece may end.
#[derive(Clone, Copy)]
enum Class {
    Bar,
    Star,
    Open,
    Shut,
    Dot,
    Range,
    Right,
    Escape,
    Plain,
}

impl From<u8> for Class {
    ghost from_gives = { λ b k. k ≡ class_of b };

    fn from(b: u8) -> Class {
        match b {
            b'|' => Class::Bar,
            b'*' => Class::Star,
            b'(' => Class::Open,
            b')' => Class::Shut,
            b'.' => Class::Dot,
            b'[' => Class::Range,
            b']' => Class::Right,
            b'\\' => Class::Escape,
            _ => Class::Plain,
        }
    }
}

// The place where a text leaves the grammar, or where its brackets get too deep: the only two ways in which the methods
// below fail.
#[derive(Clone, Copy)]
enum Stop {
    Off(usize),
    Deep(usize),
}

impl From<Stop> for TextFault {
    ghost from_gives = { λ e f. f ≡ fault_of e };

    fn from(stop: Stop) -> TextFault {
        match stop {
            Stop::Off(at) => TextFault::OffGrammar(at),
            Stop::Deep(at) => TextFault::TooDeep(at),
        }
    }
}

// Reads a pattern text into the nodes of a byte table, and answers how many there are.
//
// The nodes stand in postfix order at the front of the lent list, which keeps the rest. A refusal says what is wrong
// first, and turns every lent node into an empty node of size 1.
pub fn read(text: &[u8], nodes: &mut [Node]) -> Result<usize, TextFault>
    ensures answer { Answers text.now (length nodes.old) result }
    ensures only { (a : Answer ℕ TextFault) → Answers text.now (length nodes.old) a → a ≡ result }
    ensures after { Leaves text.now nodes.old result nodes.new }
    ensures unambiguous { (p q : Pattern) → Means text.now p → Means text.now q → p ≡ q }
    ensures judged { IfOk result (λ n. verdict byte_admitted (take n nodes.new) ≡ None) }
    ensures bound { IfOk result (λ n. (n ≤ length nodes.old) × (n ≤ 512)) }
{
    let answer = read_nodes(text, nodes);
    if answer.is_err() {
        nodes.fill(BLANK);
    }
    answer
}

// As `read`, but a refusal leaves anything in the lent nodes.
fn read_nodes(text: &[u8], nodes: &mut [Node]) -> Result<usize, TextFault>
    ensures answer { Answers text.now (length nodes.old) result }
    ensures after { IfOk result (λ n. Leaves text.now nodes.old (Ok n) nodes.new) }
{
    if text.len() > MOST_BYTES {
        return Err(TextFault::TooLong);
    }
    let count = whole(text, nodes)?;
    if count > MOST_NODES {
        return Err(TextFault::NodeCount(count));
    }
    if count > nodes.len() {
        return Err(TextFault::ShortList(count));
    }
    Ok(count)
}

// The whole text as a pattern. Nodes that the lent list has no room for are counted and not written.
fn whole(text: &[u8], nodes: &mut [Node]) -> Result<usize, Stop>
    requires { length text.now ≤ 4096 }
    ensures { MatchResult result (λ n. WholeRead text.now nodes.old nodes.new n) (λ e. outcome start text.now 0 ≡ stopped e) }
{
    let mut reader = Reader {
        text,
        nodes,
        at: 0,
        count: 0,
        depth: 0,
    };
    reader.pattern()?;
    if reader.at < text.len() {
        return Err(Stop::Off(reader.at));
    }
    Ok(reader.count)
}

// A text, and how far it has been read: the bytes taken, the nodes made of them, which stand at the front of the lent
// list as far as it has room, and the brackets open.
//
// The count stands beside the list: the list is lent, since this crate takes nothing from the heap, and the nodes that
// it has no room for are counted too.
#[derive(Drop)]
struct Reader<'t, 'n> {
    text: &'t [u8],
    nodes: &'n mut [Node],
    at: usize,
    count: usize,
    depth: usize,
    ghost short: { length text.now ≤ 4096 },
    ghost within: { at ≤ length text.now },
    ghost few: { count ≤ 2 * at },
    ghost shallow: { depth ≤ 32 },
}

impl Reader<'_, '_> {
    ghost use Rattle.text.specs.Progress.{AtEnd, BranchEnds, BranchGoesOn, Comes, Took, Added, AtomRead, PieceRead, BranchRead, PatternRead, AtomStops, BranchStops, PatternStops};

    // Branches parted by `|`, up to a closing bracket or the end.
    #[cycle(grammar)]
    fn pattern(&mut self) -> Result<(), Stop>
        ensures { MatchResult result (λ _. PatternRead self.old self.new) (PatternStops self.old) }
    {
        let from = self.count;
        self.branch()?;
        while self.eat(b'|') {
            self.branch()?;
            self.join(NodeKind::Either, from);
        }
        Ok(())
    }

    // One or more pieces, up to a bar, a closing bracket or the end.
    #[cycle(grammar)]
    fn branch(&mut self) -> Result<(), Stop>
        ensures { MatchResult result (λ _. BranchRead self.old self.new) (BranchStops self.old) }
    {
        let from = self.count;
        self.piece()?;
        while !self.ends_branch() {
            self.piece()?;
            self.join(NodeKind::Then, from);
        }
        Ok(())
    }

    // An atom and its stars.
    #[cycle(grammar)]
    fn piece(&mut self) -> Result<(), Stop>
        ensures { MatchResult result (λ _. PieceRead self.old self.new) (AtomStops self.old) }
    {
        let from = self.count;
        self.atom()?;
        while self.eat(b'*') {
            self.join(NodeKind::Repeat, from);
        }
        Ok(())
    }

    // One byte, or what begins with `(`, `[` or `\`.
    #[cycle(grammar)]
    fn atom(&mut self) -> Result<(), Stop>
        ensures { MatchResult result (λ _. AtomRead self.old self.new) (AtomStops self.old) }
    {
        let b = self.peek()?;
        // A match on the bytes themselves was tried: its last arm does not tell the proof which bytes are left.
        match Class::from(b) {
            Class::Open => self.group(),
            Class::Range => self.range(),
            Class::Escape => self.escaped(),
            Class::Dot => {
                self.take(leaf(0, 255));
                Ok(())
            }
            Class::Plain => {
                self.take(leaf(b, b));
                Ok(())
            }
            Class::Bar | Class::Star | Class::Shut | Class::Right => Err(Stop::Off(self.at)),
        }
    }

    // An atom in brackets, from its `(` on.
    #[cycle(grammar)]
    fn group(&mut self) -> Result<(), Stop>
        requires { Comes 40 self.old }
        ensures { MatchResult result (λ _. AtomRead self.old self.new) (AtomStops self.old) }
    {
        if self.depth >= MOST_DEPTH {
            return Err(Stop::Deep(self.at));
        }
        self.skip();
        if self.eat(b')') {
            self.push(inner(NodeKind::Empty, 1));
            return Ok(());
        }
        self.depth += 1;
        self.pattern()?;
        self.depth -= 1;
        self.expect(b')')
    }

    // `\` and the byte meant.
    fn escaped(&mut self) -> Result<(), Stop>
        requires { Comes 92 self.old }
        ensures { MatchResult result (λ _. AtomRead self.old self.new) (AtomStops self.old) }
    {
        self.skip();
        let b = self.peek()?;
        self.take(leaf(b, b));
        Ok(())
    }

    // `[l-h]`, from its `[` on.
    fn range(&mut self) -> Result<(), Stop>
        requires { Comes 91 self.old }
        ensures { MatchResult result (λ _. AtomRead self.old self.new) (AtomStops self.old) }
    {
        self.skip();
        let low = self.next()?;
        self.expect(b'-')?;
        let high = self.peek()?;
        if high < low {
            return Err(Stop::Off(self.at));
        }
        self.skip();
        self.expect(b']')?;
        self.push(leaf(low, high));
        Ok(())
    }

    // The byte to come, which every text has that goes on here.
    fn peek(&self) -> Result<u8, Stop>
        ensures { MatchResult result (λ b. Comes b self.now) (λ e. (e ≡ Stop.Off self.now.at) × AtEnd self.now) }
    {
        self.text.get(self.at).copied().ok_or(Stop::Off(self.at))
    }

    // Takes the byte to come.
    fn next(&mut self) -> Result<u8, Stop>
        ensures { MatchResult result (λ b. Comes b self.old × Took 1 self.old self.new) (λ e. (e ≡ Stop.Off self.old.at) × AtEnd self.old) }
    {
        let b = self.peek()?;
        self.skip();
        Ok(b)
    }

    // Takes a byte that has to come.
    fn expect(&mut self, want: u8) -> Result<(), Stop>
        ensures { MatchResult result (λ _. Comes want self.old × Took 1 self.old self.new) (λ e. (e ≡ Stop.Off self.old.at) × (¬ Comes want self.old)) }
    {
        if !self.eat(want) {
            return Err(Stop::Off(self.at));
        }
        Ok(())
    }

    // Takes a byte if it comes, and says whether it did.
    fn eat(&mut self, want: u8) -> bool
        ensures { MatchBool result (Comes want self.old × Took 1 self.old self.new) ((¬ Comes want self.old) × Took 0 self.old self.new) }
    {
        let comes = self.text.get(self.at) == Some(&want);
        if comes {
            self.skip();
        }
        comes
    }

    // Whether a branch ends here: at a bar, a closing bracket or the end.
    fn ends_branch(&self) -> bool
        ensures { MatchBool result (BranchEnds self.now.text.now self.now.at) (BranchGoesOn self.now.text.now self.now.at) }
    {
        matches!(self.text.get(self.at), None | Some(b'|' | b')'))
    }

    // Goes past the byte to come.
    fn skip(&mut self)
        requires { self.old.at < length self.old.text.now }
        ensures { Took 1 self.old self.new }
    {
        self.at += 1;
    }

    // Takes the byte to come, and adds the node that it makes.
    fn take(&mut self, node: Node)
        requires { self.old.at < length self.old.text.now }
        ensures { Added 1 node self.old self.new }
    {
        self.skip();
        self.push(node);
    }

    // Adds the node that stands after its operands, of which the first begins at `from`.
    fn join(&mut self, kind: NodeKind, from: usize)
        requires order { from ≤ self.old.count }
        requires few { self.old.count + 1 ≤ 2 * self.old.at }
        ensures { Added 0 (inner (number_of kind) (self.old.count - from + 1)) self.old self.new }
    {
        let size = self.count - from + 1;
        // It fits, as a text has at most 4,096 bytes.
        self.push(inner(kind, size as u16));
    }

    // One node more, written where the lent list has room for it. By `get_mut`, which was tried, the proof does not learn
    // what is written.
    fn push(&mut self, node: Node)
        requires { self.old.count + 1 ≤ 2 * self.old.at }
        ensures { Added 0 node self.old self.new }
    {
        if self.count < self.nodes.len() {
            self.nodes[self.count] = node;
        }
        self.count += 1;
    }
}

// A node that is no leaf.
fn inner(kind: NodeKind, size: u16) -> Node
    ensures { result ≡ inner (number_of kind) size }
{
    Node {
        kind: u8::from(kind),
        size,
        ..BLANK
    }
}

// A leaf that the bytes from `low` to `high` pass, at no price.
fn leaf(low: u8, high: u8) -> Node
    ensures { result ≡ leaf_node (record { tag = 0; low = low; high = high }) 0 }
{
    Node {
        kind: u8::from(NodeKind::Leaf),
        low: u32::from(low),
        high: u32::from(high),
        ..BLANK
    }
}
