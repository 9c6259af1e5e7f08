// Closing a sheet, and printing it.
ghost use Rattle.std.specs.Prelude.{◌≡◌, ℕ, List, MatchOption};
ghost use Rattle.sheet.specs.Account.{Account};
ghost use Rattle.sheet.specs.Closes.{Closes, is_owed};
ghost use Rattle.sheet.specs.History.{Event, Run};
ghost use Rattle.sheet.specs.Lanes.{Least, NoneOf};

use crate::fault::SheetFault;
use crate::lanes::LaneSet;
use crate::sheet::{ClosedSheet, Sheet, StillOpen};

impl Sheet {
    // Closes a sheet on which no lane is owed. Any other sheet goes back, with its lowest owed lane.
    pub fn close(self) -> Result<ClosedSheet, StillOpen>
        ensures closes { Closes self result }
        ensures account { (number : ℕ) (h : List Event) → Run number h self → Account number h self }
    {
        match self.lowest_owed() {
            Some(lane) => Err(StillOpen {
                sheet: self,
                fault: SheetFault::LanesOwed(lane),
            }),
            None => {
                let Sheet {
                    number,
                    clean,
                    owed,
                    taken,
                    struck,
                } = self;
                Ok(ClosedSheet {
                    clean,
                    taken,
                    struck,
                })
            }
        }
    }

    fn lowest_owed(&self) -> Option<u8>
        ensures { MatchOption result (NoneOf (is_owed self.now)) (λ l. Least (is_owed self.now) l) }
    {
        self.owed.lowest()
    }
}

impl ClosedSheet {
    // The lanes that are clean, taken and struck, handed over together, as the rules say.
    pub fn print(self) -> (LaneSet, LaneSet, LaneSet)
        ensures { (result.0 ≡ self.clean) × (result.1 ≡ self.taken) × (result.2 ≡ self.struck) }
    {
        let ClosedSheet {
            clean,
            taken,
            struck,
        } = self;
        (clean, taken, struck)
    }
}
