// A new sheet, and its lanes' moves.
ghost use Rattle.std.specs.Prelude.{◌≡◌};
ghost use Rattle.sheet.specs.Calls.{Moved, Opened};
ghost use Rattle.sheet.specs.Sheets.{standing};

use crate::lane::Lane;
use crate::lanes::LaneSet;
use crate::sheet::Sheet;
use crate::standing::Standing;

impl Sheet {
    // A sheet with every lane unfilled.
    pub fn open(number: u32) -> Sheet
        ensures { Opened number result }
    {
        Sheet {
            number,
            clean: LaneSet::empty(),
            owed: LaneSet::empty(),
            taken: LaneSet::empty(),
            struck: LaneSet::empty(),
        }
    }

    // Where the lane stands.
    pub(crate) fn standing(&self, lane: Lane) -> Standing
        ensures { result ≡ standing self.now lane }
    {
        if self.clean.holds(lane) {
            Standing::Clean
        } else if self.owed.holds(lane) {
            Standing::Owed
        } else if self.taken.holds(lane) {
            Standing::Taken
        } else if self.struck.holds(lane) {
            Standing::Struck
        } else {
            Standing::Unfilled
        }
    }

    // Moves a lane, and leaves every other as it is.
    pub(crate) fn place(&mut self, lane: Lane, to: Standing)
        ensures { Moved lane to self.old self.new }
    {
        self.clean = self.clean.put(lane, to == Standing::Clean);
        self.owed = self.owed.put(lane, to == Standing::Owed);
        self.taken = self.taken.put(lane, to == Standing::Taken);
        self.struck = self.struck.put(lane, to == Standing::Struck);
    }
}
