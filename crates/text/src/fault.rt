// Why a pattern text is refused.
ghost use Rattle.std.specs.Prelude.{◌≡◌};
ghost use Rattle.text.specs.Faults.{refusal_of};

use crate::reader::MOST_BYTES;
use table::Refusal;

#[derive(Clone, Copy, PartialEq, Eq, Debug)]
pub enum TextFault {
    // More than 4,096 bytes.
    TooLong,
    // No text of the grammar begins with more than this many bytes of it.
    OffGrammar(usize),
    // The place of the first `(` that is 33 deep.
    TooDeep(usize),
    // More than 512 nodes: how many.
    NodeCount(usize),
    // The lent list is too short: how many nodes are needed.
    ShortList(usize),
}

impl TextFault {
    // The fault's number, place and layer: the call by name, which the docs name, of what `From` gives.
    pub fn refusal(self) -> Refusal
        ensures { result ≡ refusal_of self }
    {
        Refusal::from(self)
    }
}

impl From<TextFault> for Refusal {
    ghost from_gives = { λ f r. r ≡ refusal_of f };

    fn from(fault: TextFault) -> Refusal {
        let (number, place) = match fault {
            TextFault::TooLong => (1, MOST_BYTES),
            TextFault::OffGrammar(at) => (2, at),
            TextFault::TooDeep(at) => (3, at),
            TextFault::NodeCount(count) => (4, count),
            TextFault::ShortList(needed) => (10, needed),
        };
        Refusal {
            number,
            place,
            layer: 1,
        }
    }
}
