// Kind 1: the bytes of a line.
ghost use Rattle.table.specs.Kinds.{byte_number, byte_admitted, byte_allowed, byte_passing, byte_any};
ghost use Rattle.table.specs.KindLaws.{byte_any_admitted, byte_any_passed};

use crate::node::Leaf;
use crate::symbol::Symbol;

impl Symbol for u8 {
    ghost number = { byte_number };

    ghost admitted = { byte_admitted };

    ghost allowed = { byte_allowed };

    ghost passing = { byte_passing };

    ghost any = { byte_any };

    ghost anyadmitted = { byte_any_admitted };

    ghost anypassed = { byte_any_passed };

    fn kind() -> u8 {
        1
    }

    fn admits(leaf: Leaf) -> bool {
        leaf.tag == 0 && leaf.low <= leaf.high && leaf.high <= 255
    }

    fn is_allowed(self) -> bool {
        true
    }

    fn passes(self, leaf: Leaf) -> bool {
        let b = u32::from(self);
        leaf.low <= b && b <= leaf.high
    }

    fn any_leaf() -> Leaf {
        Leaf {
            tag: 0,
            low: 0,
            high: 255,
        }
    }
}
