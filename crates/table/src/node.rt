// One place of a pattern's list, and the part of a leaf that says which symbols pass it.
ghost use Rattle.std.specs.Prelude.{◌≡◌};
ghost use Rattle.table.specs.NodeKinds.{Decodes, number_of};
ghost use Rattle.table.specs.Tree.{leaf_of};

// The kinds of node.
#[derive(Clone, Copy, PartialEq, Eq, Debug)]
pub enum NodeKind {
    Empty = 0,
    Leaf = 1,
    Either = 2,
    Then = 3,
    Repeat = 4,
}

// A number that no kind of node has.
#[derive(Clone, Copy, PartialEq, Eq, Debug)]
pub struct UnknownKind(pub u8);

impl TryFrom<u8> for NodeKind {
    type Error = UnknownKind;

    ghost try_from_gives = { Decodes };

    fn try_from(number: u8) -> Result<NodeKind, UnknownKind> {
        match number {
            0 => Ok(NodeKind::Empty),
            1 => Ok(NodeKind::Leaf),
            2 => Ok(NodeKind::Either),
            3 => Ok(NodeKind::Then),
            4 => Ok(NodeKind::Repeat),
            _ => Err(UnknownKind(number)),
        }
    }
}

impl From<NodeKind> for u8 {
    ghost from_gives = { λ kind n. n ≡ number_of kind };

    fn from(kind: NodeKind) -> u8 {
        kind as u8
    }
}

// A node of a pattern, which by the rules is a list in postfix order: its operands stand before it, and `size` counts it and their nodes.
// `tag`, `low`, `high` and `price` belong to leaves, and are 0 in every other node.
// A list comes from outside and may hold a kind that is unknown, so `kind` is a number. What a tag means is for the kind
// of symbol to say, and further kinds may come, so it is a number too.
#[derive(Clone, Copy, PartialEq, Eq, Debug, Default)]
pub struct Node {
    pub kind: u8,
    pub tag: u8,
    pub size: u16,
    pub low: u32,
    pub high: u32,
    pub price: u32,
}

// The empty pattern's only node. A constant cannot call `From` for its kind.
pub const BLANK: Node = Node {
    kind: NodeKind::Empty as u8,
    tag: 0,
    size: 1,
    low: 0,
    high: 0,
    price: 0,
};

// Which symbols a leaf lets pass: a tag, which is a number as in the list, and two bounds. The price is no part of it, so that no such answer can depend on the price.
#[derive(Clone, Copy, PartialEq, Eq, Debug)]
pub struct Leaf {
    pub tag: u8,
    pub low: u32,
    pub high: u32,
}

impl From<Node> for Leaf {
    ghost from_gives = { λ node leaf. leaf ≡ leaf_of node };

    fn from(node: Node) -> Leaf {
        Leaf {
            tag: node.tag,
            low: node.low,
            high: node.high,
        }
    }
}
