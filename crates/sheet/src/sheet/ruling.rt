// Ruling on owed lanes.
ghost use Rattle.std.specs.Prelude.{◌≡◌};
ghost use Rattle.sheet.specs.Calls.{Ruled, matches};
ghost use Rattle.sheet.specs.History.{Did, rule, strike, take};

use crate::fault::SheetFault;
use crate::sheet::Sheet;
use crate::slip::{Returned, Slip};
use crate::standing::Standing;

impl Sheet {
    // Uses up a slip and makes its lane taken. A slip of another sheet number, or whose lane is not owed, goes back.
    pub fn take(&mut self, slip: Slip) -> Result<(), Returned>
        ensures { Did (rule take slip result) self.old self.new }
    {
        self.rule(slip, Standing::Taken)
    }

    // Uses up a slip and makes its lane struck. A slip of another sheet number, or whose lane is not owed, goes back.
    pub fn strike(&mut self, slip: Slip) -> Result<(), Returned>
        ensures { Did (rule strike slip result) self.old self.new }
    {
        self.rule(slip, Standing::Struck)
    }

    fn rule(&mut self, slip: Slip, to: Standing) -> Result<(), Returned>
        ensures { Ruled to slip result self.old self.new }
    {
        if !self.matches(&slip) {
            let fault = SheetFault::NoSuchSlip(slip.lane());
            return Err(Returned { slip, fault });
        }
        let lane = slip.lane;
        slip.spend();
        self.place(lane, to);
        Ok(())
    }

    // Whether the slip is for this sheet's number and its lane is owed.
    fn matches(&self, slip: &Slip) -> bool
        ensures { result ≡ matches self.now slip.now }
    {
        slip.sheet() == self.number && self.standing(slip.lane) == Standing::Owed
    }
}
