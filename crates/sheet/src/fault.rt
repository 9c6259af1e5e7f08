// Why a sheet refuses.
ghost use Rattle.std.specs.Prelude.{◌≡◌};
ghost use Rattle.sheet.specs.Faults.{refusal_of};
ghost use Rattle.sheet.specs.declared.fault.SheetFault.TheVariants.{Session};

use session::{MOST_SYMBOLS, SessionFault};
use table::Refusal;

#[derive(Clone, Copy, PartialEq, Eq, Debug)]
pub enum SheetFault {
    // What the session refuses, beside the lane that was to be entered.
    Session { lane: u8, fault: SessionFault },
    // A lane outside 1 to 10.
    BadLane(u8),
    // A line of more than 65,535 symbols.
    LongLine,
    // The lane has a line with a reading.
    Filled(u8),
    // A slip of another sheet number, or whose lane is not owed: the slip's lane.
    NoSuchSlip(u8),
    // The sheet cannot be closed: the lowest lane that is owed.
    LanesOwed(u8),
}

impl SheetFault {
    // The fault's number, place and layer: the call by name, which the docs name, of what `From` gives.
    pub fn refusal(self) -> Refusal
        ensures { result ≡ refusal_of self }
    {
        Refusal::from(self)
    }
}

// A session's fault keeps its own number, place and layer.
impl From<SheetFault> for Refusal {
    ghost from_gives = { λ f r. r ≡ refusal_of f };

    fn from(fault: SheetFault) -> Refusal {
        let (number, place) = match fault {
            SheetFault::Session { lane, fault } => {
                return fault.refusal();
            }
            SheetFault::BadLane(lane) => (11, usize::from(lane)),
            SheetFault::LongLine => (12, MOST_SYMBOLS),
            SheetFault::Filled(lane) => (21, usize::from(lane)),
            SheetFault::NoSuchSlip(lane) => (22, usize::from(lane)),
            SheetFault::LanesOwed(lane) => (23, usize::from(lane)),
        };
        Refusal {
            number,
            place,
            layer: 5,
        }
    }
}

// A session's fault and the lane that was to be entered: what `?` turns into the sheet's fault, which has both.
#[derive(Clone, Copy, PartialEq, Eq, Debug)]
pub struct AtLane {
    pub lane: u8,
    pub fault: SessionFault,
}

impl From<AtLane> for SheetFault {
    ghost from_gives = { λ a r. r ≡ Session a.lane a.fault };

    fn from(at: AtLane) -> SheetFault {
        SheetFault::Session {
            lane: at.lane,
            fault: at.fault,
        }
    }
}
