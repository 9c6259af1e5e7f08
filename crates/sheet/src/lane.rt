// A lane that may be in a set of lanes.
ghost use Rattle.std.specs.Prelude.{◌≡◌, ◌^◌, ◌<◌, SomeIff};

use std::marker::Model;

// A number that is a bit of a set's mask. Contracts see the number.
#[derive(Clone, Copy)]
pub(crate) struct Lane {
    number: u8,
}

impl Model for Lane {
    ghost use Rattle.std.specs.Prelude.{ℕ, ◌<◌};

    ghost Value = { ℕ };

    ghost view = { λ l. l.number };

    ghost invariant = { λ l. l.number < 16 };

    ghost inverse = { λ n. record { number = n } };
}

impl Lane {
    pub(crate) fn new(number: u8) -> Option<Lane>
        ensures { SomeIff result (number < 16) number }
    {
        // Not by `then_some`, which would make a lane that is none before it lets it go.
        if number < 16 {
            Some(Lane { number })
        } else {
            None
        }
    }

    pub(crate) fn number(self) -> u8
        ensures value { result ≡ self }
        ensures few { result < 16 }
    {
        self.number
    }

    // The mask of this lane alone.
    pub(crate) fn flag(self) -> u16
        ensures { result ≡ 2 ^ self }
    {
        1 << self.number
    }
}
