// What is answered when a line is entered.
ghost use Rattle.std.specs.Prelude.{◌≡◌};
ghost use Rattle.sheet.specs.Entries.{due, outcome, placed};
ghost use Rattle.sheet.specs.Weighing.{Consistent};

use crate::lane::Lane;
use crate::slip::Slip;
use crate::standing::Standing;
use scale::{Count, Pair, Price};

// How a line was read. An owed line's count stands on its slip.
pub enum Entry {
    // No reading.
    Unreadable,
    // One reading, and its price.
    Clean { price: u64 },
    // Several readings, the least price of any, and the slip by which one rules on the lane.
    Owed { price: u64, slip: Slip },
}

// Where a line of that weight puts its lane, and what is answered.
pub(crate) fn entry_of(sheet: u32, lane: Lane, weight: Pair<Count, Price>) -> (Standing, Entry)
    requires { Consistent weight }
    ensures standing { result.0 ≡ placed weight.first.value }
    ensures entry { outcome result.1 ≡ due sheet lane weight }
{
    let count = weight.first.value;
    let price = weight.second.value;
    match count {
        0 => (Standing::Unfilled, Entry::Unreadable),
        1 => (Standing::Clean, Entry::Clean { price }),
        _ => {
            let slip = Slip::new(sheet, lane, count);
            (Standing::Owed, Entry::Owed { price, slip })
        }
    }
}
