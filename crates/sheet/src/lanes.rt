// Sets of lanes.
ghost use Rattle.std.specs.Prelude.{◌≡◌, ◌<◌, true, MatchOption};
ghost use Rattle.sheet.specs.Lanes.{Least, NoneOf, Put, has};

use crate::lane::Lane;

// A set of lanes: a lane's bit is its own number.
#[derive(Clone, Copy, PartialEq, Eq, Debug)]
pub struct LaneSet {
    mask: u16,
}

impl LaneSet {
    pub(crate) fn empty() -> LaneSet
        ensures { result.mask ≡ 0 }
    {
        LaneSet { mask: 0 }
    }

    // Whether the lane is in the set.
    pub fn has(self, lane: u8) -> bool
        ensures value { result ≡ has self lane }
        ensures few { result ≡ true → lane < 16 }
    {
        Lane::new(lane).is_some_and(|lane| self.holds(lane))
    }

    // The same of a lane that may be in a set.
    pub(crate) fn holds(self, lane: Lane) -> bool
        ensures { result ≡ has self lane }
    {
        (self.mask >> lane.number()) % 2 == 1
    }

    // The lowest lane of the set, or none where it is empty.
    pub(crate) fn lowest(self) -> Option<u8>
        ensures { MatchOption result (NoneOf (has self)) (λ l. Least (has self) l) }
    {
        (0..16).find(|lane| self.has(*lane))
    }

    // The same set but for one lane, which is in it or not as told, so that a move names every set once.
    pub(crate) fn put(self, lane: Lane, member: bool) -> LaneSet
        ensures { Put lane member self result }
    {
        let flag = lane.flag();
        LaneSet {
            mask: if member {
                self.mask | flag
            } else {
                self.mask & !flag
            },
        }
    }
}
