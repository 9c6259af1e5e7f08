// Why a session refuses.
ghost use Rattle.std.specs.Prelude.{◌≡◌};
ghost use Rattle.session.specs.Faults.{refusal_of};

use table::Refusal;

// The most symbols that a session holds.
pub const MOST_SYMBOLS: usize = 65_535;

#[derive(Clone, Copy, PartialEq, Eq, Debug)]
pub enum SessionFault {
    // A symbol that is not allowed, or of another kind than the table's: how many symbols are held.
    BadSymbol(usize),
    // The lent list is too short: how many weights are needed.
    ShortList(usize),
    // 65,535 symbols are held.
    Full,
}

// A fault's number, place and layer.
impl From<SessionFault> for Refusal {
    ghost from_gives = { λ fault refusal. refusal ≡ refusal_of fault };

    fn from(fault: SessionFault) -> Refusal {
        let (number, place) = match fault {
            SessionFault::BadSymbol(held) => (9, held),
            SessionFault::ShortList(needed) => (10, needed),
            SessionFault::Full => (20, MOST_SYMBOLS),
        };
        Refusal {
            number,
            place,
            layer: 3,
        }
    }
}

impl SessionFault {
    // The fault's number, place and layer: the call by name, which the docs name, of what `From` gives.
    pub fn refusal(self) -> Refusal
        ensures { result ≡ refusal_of self }
    {
        self.into()
    }
}
