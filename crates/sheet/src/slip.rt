// A slip: the right to rule on one owed lane, which must be used.
ghost use Rattle.std.specs.Prelude.{◌≡◌, true};
ghost use Rattle.sheet.specs.Slips.{new_slip};

use crate::fault::SheetFault;
use crate::lane::Lane;

// Handed out by a sheet for a lane with several readings. The rule is that its `drop` is allowed only when it is spent, so
// it has a flag that says so.
pub struct Slip {
    sheet: u32,
    pub(crate) lane: Lane,
    count: u32,
    spent: bool,
}

impl Drop for Slip {
    fn drop(self)
        requires { self.spent ≡ true }
    {
        let Slip {
            sheet,
            lane,
            count,
            spent,
        } = self;
    }
}

impl Slip {
    pub(crate) fn new(sheet: u32, lane: Lane, count: u32) -> Slip
        ensures { result ≡ new_slip sheet lane count }
    {
        Slip {
            sheet,
            lane,
            count,
            spent: false,
        }
    }

    // The number of the sheet that handed it out.
    pub fn sheet(&self) -> u32
        ensures { result ≡ self.now.sheet }
    {
        self.sheet
    }

    // The lane that it is for.
    pub fn lane(&self) -> u8
        ensures { result ≡ self.now.lane }
    {
        self.lane.number()
    }

    // How many readings the lane's line has.
    pub fn count(&self) -> u32
        ensures { result ≡ self.now.count }
    {
        self.count
    }

    pub(crate) fn spend(mut self) {
        self.spent = true;
    }
}

// A slip that does not match the sheet, handed back, and why.
pub struct Returned {
    pub slip: Slip,
    pub fault: SheetFault,
}
