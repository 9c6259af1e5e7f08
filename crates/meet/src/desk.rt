// The desk at which a meet's result lines are entered.
ghost use Rattle.std.specs.Prelude.{◌≡◌};
ghost use Rattle.meet.specs.Settled.{Settled};
ghost use Rattle.sheet.specs.Calls.{filled};
ghost use Rattle.sheet.specs.Closes.{is_owed};
ghost use Rattle.sheet.specs.Lanes.{NoneOf};
ghost use Rattle.table.specs.Content.{content};
ghost use Rattle.table.specs.Kinds.{byte_number};

use scale::{Count, Pair, Price};
use session::WEIGHTS_PER_NODE;
use sheet::{Entry, Sheet, SheetFault};
use table::{MOST_NODES, Table};

// How many weights the greatest table needs.
const MOST_WEIGHTS: usize = WEIGHTS_PER_NODE * MOST_NODES;

// The meet has one sheet, so any number will do.
const SHEET_NUMBER: u32 = 1;

// A byte table, room to weigh any line by it, and a sheet on which no lane is owed. `cases` has settled sheets of its own,
// since it hands out the slips that a desk strikes at once.
pub(crate) struct Desk<'t> {
    table: &'t Table,
    weights: [Pair<Count, Price>; MOST_WEIGHTS],
    sheet: Sheet,
    ghost bytes: { (content table.now).kind ≡ byte_number },
    ghost settled: { NoneOf (is_owed sheet) },
}

impl<'t> Desk<'t> {
    // A desk on whose sheet no lane is filled.
    pub(crate) fn open(table: &'t Table) -> Desk<'t>
        requires { (content table.now).kind ≡ byte_number }
        ensures table { result.table.now ≡ table.now }
        ensures unfilled { NoneOf (filled result.sheet) }
    {
        // Any weights will do. Of zeros the list is made where it stays; of others it is made apart and copied.
        let weight = Pair {
            first: Count { value: 0 },
            second: Price { value: 0 },
        };
        Desk {
            table,
            weights: [weight; MOST_WEIGHTS],
            sheet: Sheet::open(SHEET_NUMBER),
        }
    }

    // Enters a line, strikes it where it has several readings, and answers how many it has.
    pub(crate) fn settle(&mut self, lane: u8, line: &[u8]) -> Result<u32, SheetFault>
        ensures table { self.new.table.now ≡ self.old.table.now }
        ensures settled { Settled lane line.now self.old.table.now result self.old.sheet self.new.sheet }
    {
        match self.sheet.enter(lane, line, self.table, &mut self.weights)? {
            Entry::Unreadable => Ok(0),
            Entry::Clean { price } => Ok(1),
            Entry::Owed { price, slip } => {
                let count = slip.count();
                // The slip was just handed out.
                self.sheet.strike(slip).unwrap();
                Ok(count)
            }
        }
    }

    // Closes and prints the sheet.
    pub(crate) fn close(self) {
        let Desk {
            table,
            weights,
            sheet,
        } = self;
        // No lane is owed.
        let _ = sheet.close().unwrap().print();
    }
}
