// Why a list of nodes is refused.
ghost use Rattle.std.specs.Prelude.{◌≡◌, Some};
ghost use Rattle.table.specs.Faults.{refusal_of, refusal_text};

use std::fmt;

// A refusal as it is written down, three numbers: its own, its place, and that of the layer whose call refused. The
// faults themselves are enums.
#[derive(Clone, Copy, PartialEq, Eq, Debug)]
pub struct Refusal {
    pub number: u8,
    pub place: usize,
    pub layer: u8,
}

// `5 2 2`: number, place and layer.
impl fmt::Display for Refusal {
    ghost output = { λ refusal. Some (refusal_text refusal) };

    fn fmt<W: fmt::Write>(&self, f: &mut fmt::Formatter<W>) -> fmt::Result {
        let (number, place, layer) = (self.number, self.place, self.layer);
        write!(f, "{number} {place} {layer}")
    }
}

// What the judge finds wrong. A place is the index of a node, from 0.
#[derive(Clone, Copy, PartialEq, Eq, Debug)]
pub enum TableFault {
    // The list has no node, or more than 512: how many.
    NodeCount(usize),
    // A node of unknown kind, or one that is no leaf and has a tag, a bound or a price.
    BadNode(usize),
    // A node with an operand missing before it.
    NoOperand(usize),
    // A node whose size is not one more than its operands' sizes, or a last node whose size is not the list's length.
    WrongSize(usize),
    // A leaf that the kind of symbol does not allow.
    BadLeaf(usize),
}

impl From<TableFault> for Refusal {
    ghost from_gives = { λ fault refusal. refusal ≡ refusal_of fault };

    fn from(fault: TableFault) -> Refusal {
        let (number, place) = match fault {
            TableFault::NodeCount(count) => (4, count),
            TableFault::BadNode(at) => (5, at),
            TableFault::NoOperand(at) => (6, at),
            TableFault::WrongSize(at) => (7, at),
            TableFault::BadLeaf(at) => (8, at),
        };
        Refusal {
            number,
            place,
            layer: 2,
        }
    }
}

impl TableFault {
    // The fault's number, place and layer: the call by name, which the docs name, of what `From` gives.
    pub fn refusal(self) -> Refusal
        ensures { result ≡ refusal_of self }
    {
        Refusal::from(self)
    }
}
