// The weight of a whole line.
ghost use Rattle.std.specs.Prelude.{◌≡◌, ◌≤◌, length, drop};
ghost use Rattle.session.specs.Faults.{most_symbols};
ghost use Rattle.sheet.specs.Weighing.{line_weight, needed};
ghost use Rattle.table.specs.Content.{content};
ghost use Rattle.table.specs.Kinds.{byte_number};

use scale::{Count, Pair, Price};
use session::Session;
use table::Table;

// What the line weighs in the pair of count and least price. The weights past the needed ones are left as they are.
pub(crate) fn weigh(
    table: &Table,
    line: &[u8],
    weights: &mut [Pair<Count, Price>],
) -> Pair<Count, Price>
    requires kind { (content table.now).kind ≡ byte_number }
    requires room { needed table.now ≤ length weights.old }
    requires short { length line.now ≤ most_symbols }
    ensures weight { result ≡ line_weight table.now line.now }
    ensures rest { drop (needed table.now) weights.new ≡ drop (needed table.now) weights.old }
{
    let mut session = Session::open(table, weights);
    for byte in line {
        // A byte is always allowed, and the line is short enough.
        session.read(*byte).unwrap();
    }
    // The list was judged.
    let weight = session.weigh().unwrap();
    session.end();
    weight
}
