// Sheets with no lane owed and with one lane owed, so that every sheet can be closed and every slip spent.
ghost use Rattle.std.specs.Prelude.{◌≡◌, ℕ, true, ◌==◌};
ghost use Rattle.sheet.specs.Calls.{matches};
ghost use Rattle.sheet.specs.Closes.{is_owed};
ghost use Rattle.sheet.specs.Lanes.{NoneOf};

use sheet::{Sheet, Slip};

// A sheet on which no lane is owed.
pub struct Settled {
    pub sheet: Sheet,
    ghost none: { NoneOf (is_owed sheet) },
}

// A sheet on which one lane is owed, and its slip.
pub struct Owing {
    pub sheet: Sheet,
    pub slip: Slip,
    ghost fits: { matches sheet slip ≡ true },
    ghost only: { (k : ℕ) → is_owed sheet k ≡ (k == slip.lane) },
}
