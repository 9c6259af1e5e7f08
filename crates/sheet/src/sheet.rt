// The ruling sheet's types: sets of lanes, no two of which share a lane.
ghost use Rattle.std.specs.Prelude.{[], ◌∷◌};
ghost use Rattle.sheet.specs.Lanes.{Apart};

use crate::fault::SheetFault;
use crate::lanes::LaneSet;

mod closing;
mod entering;
mod moves;
mod ruling;

// A sheet for lanes 1 to 10. It is never let go: it is closed. The sets stand side by side, since the type says that they
// are apart, and one more set is then one more field.
pub struct Sheet {
    number: u32,
    clean: LaneSet,
    owed: LaneSet,
    taken: LaneSet,
    struck: LaneSet,
    ghost apart: { Apart (clean ∷ owed ∷ taken ∷ struck ∷ []) },
}

// A sheet on which no lane is owed. It is never let go: it is printed.
pub struct ClosedSheet {
    clean: LaneSet,
    taken: LaneSet,
    struck: LaneSet,
    ghost apart: { Apart (clean ∷ taken ∷ struck ∷ []) },
}

// A sheet that cannot be closed, handed back, and why.
pub struct StillOpen {
    pub sheet: Sheet,
    pub fault: SheetFault,
}
