// Kind 2: the touches of a timing pad, a button or the start signal.
ghost use Rattle.std.specs.Prelude.{◌≡◌, true, false, [], ◌∷◌};
ghost use Rattle.table.specs.Kinds.{touch_number, touch_admitted, touch_allowed, touch_passing, touch_any, PadBounds};
ghost use Rattle.table.specs.KindLaws.{touch_any_admitted, touch_any_passed};

use crate::node::Leaf;
use crate::symbol::Symbol;

// A touch: where it came from (0 pad, 1 button, 2 start signal) and the time since the touch before, in thousandths
// of a second. A source of 3 and above can come in, and is not allowed, so the source is a number.
#[derive(Clone, Copy, PartialEq, Eq, Debug)]
pub struct Touch {
    pub source: u8,
    pub gap: u32,
}

impl Symbol for Touch {
    ghost number = { touch_number };

    ghost admitted = { touch_admitted };

    ghost allowed = { touch_allowed };

    ghost passing = { touch_passing };

    ghost any = { touch_any };

    ghost anyadmitted = { touch_any_admitted };

    ghost anypassed = { touch_any_passed };

    fn kind() -> u8 {
        2
    }

    fn admits(leaf: Leaf) -> bool {
        leaf.tag <= 3 && leaf.low <= leaf.high && leaf.high <= 999_999
    }

    fn is_allowed(self) -> bool {
        self.source <= 2 && self.gap <= 9_999_999
    }

    fn passes(self, leaf: Leaf) -> bool {
        let hundredths = self.gap / 10;
        (leaf.tag == 3 || leaf.tag == self.source)
            && leaf.low <= hundredths
            && hundredths <= leaf.high
    }

    fn any_leaf() -> Leaf {
        Leaf {
            tag: 3,
            low: 0,
            high: 999_999,
        }
    }
}

// A leaf's bounds count hundredths and a gap counts thousandths, so a gap's last digit is cut off: a pad leaf from
// 2,500 to 6,000 lets pad touches with gaps of 25,000 and 60,009 pass, and those of 24,999 and 60,010 not.
pub fn pad_leaf_bounds() -> [bool; 4]
    ensures answers { result ≡ false ∷ true ∷ true ∷ false ∷ [] }
    ensures facts { PadBounds }
{
    let leaf = Leaf {
        tag: 0,
        low: 2_500,
        high: 6_000,
    };
    [
        pad_touch(24_999).passes(leaf),
        pad_touch(25_000).passes(leaf),
        pad_touch(60_009).passes(leaf),
        pad_touch(60_010).passes(leaf),
    ]
}

fn pad_touch(gap: u32) -> Touch
    ensures source { result.source ≡ 0 }
    ensures gap { result.gap ≡ gap }
{
    Touch { source: 0, gap }
}
