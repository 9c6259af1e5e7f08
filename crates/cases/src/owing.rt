// Calls on a sheet with no lane owed or one, and what they answered.
ghost use Rattle.std.specs.Prelude.{◌≡◌, ◌&&◌, ◌==◌, if◌then◌else◌};
ghost use Rattle.sheet.specs.Calls.{Moved, Opened};
ghost use Rattle.sheet.specs.Faults.{sheet_refusal};
ghost use Rattle.sheet.specs.declared.standing.Standing.TheVariants.{Struck, Taken};

use crate::outcome::Refused;
use crate::settled::{Owing, Settled};
use scale::{Count, Pair, Price};
use sheet::{Entry, LaneSet, Returned, Sheet, Slip, StillOpen};
use std::fmt;
use table::{Refusal, Table};

// How a line was read.
#[derive(Clone, Copy)]
pub enum Reading {
    Unreadable,
    Clean(u64),
    Owed { price: u64, note: Note },
}

// How a line was read, or why it was not entered.
#[derive(Clone, Copy)]
pub struct Answer(pub Result<Reading, Refusal>);

// What stands on a slip.
#[derive(Clone, Copy)]
pub struct Note {
    pub sheet: u32,
    pub lane: u8,
    pub count: u32,
}

// `sheet 7, lane 3, 2 readings`.
impl fmt::Display for Note {
    fn fmt<W: fmt::Write>(&self, f: &mut fmt::Formatter<W>) -> fmt::Result {
        let (sheet, lane, count) = (self.sheet, self.lane, self.count);
        write!(f, "sheet {sheet}, lane {lane}, {count} readings")
    }
}

// `unreadable`, `clean at 6` or `owed at 3 by sheet 7, lane 3, 2 readings`.
impl fmt::Display for Reading {
    fn fmt<W: fmt::Write>(&self, f: &mut fmt::Formatter<W>) -> fmt::Result {
        match self {
            Reading::Unreadable => f.write_str("unreadable"),
            Reading::Clean(price) => write!(f, "clean at {price}"),
            Reading::Owed { price, note } => write!(f, "owed at {price} by {note}"),
        }
    }
}

// The same, or a refusal's number, place and layer.
impl fmt::Display for Answer {
    fn fmt<W: fmt::Write>(&self, f: &mut fmt::Formatter<W>) -> fmt::Result {
        match self.0 {
            Ok(reading) => reading.fmt(f),
            Err(refusal) => Refused(refusal).fmt(f),
        }
    }
}

pub fn note_of(slip: &Slip) -> Note
    ensures sheet { result.sheet ≡ slip.now.sheet }
    ensures lane { result.lane ≡ slip.now.lane }
    ensures count { result.count ≡ slip.now.count }
{
    Note {
        sheet: slip.sheet(),
        lane: slip.lane(),
        count: slip.count(),
    }
}

// A sheet after a line was entered. Neither case is a failure, so it is no `Result`.
pub enum After {
    Settled(Settled, Answer),
    Owing(Owing, Answer),
}

// The lanes of a closed sheet.
#[derive(Clone, Copy)]
pub struct Lanes {
    pub clean: LaneSet,
    pub taken: LaneSet,
    pub struck: LaneSet,
}

// `clean 1, taken 2 3, struck none`.
impl fmt::Display for Lanes {
    fn fmt<W: fmt::Write>(&self, f: &mut fmt::Formatter<W>) -> fmt::Result {
        let (clean, taken, struck) = (Listed(self.clean), Listed(self.taken), Listed(self.struck));
        write!(f, "clean {clean}, taken {taken}, struck {struck}")
    }
}

// The lanes of a set, or `none`.
#[derive(Clone, Copy)]
struct Listed(LaneSet);

impl fmt::Display for Listed {
    fn fmt<W: fmt::Write>(&self, f: &mut fmt::Formatter<W>) -> fmt::Result {
        let mut mark = "";
        for lane in 0..=u8::MAX {
            if self.0.has(lane) {
                write!(f, "{mark}{lane}")?;
                mark = " ";
            }
        }
        if mark.is_empty() {
            f.write_str("none")?;
        }
        Ok(())
    }
}

impl Settled {
    pub fn open(number: u32) -> Settled
        ensures { Opened number result.sheet }
    {
        Settled {
            sheet: Sheet::open(number),
        }
    }

    pub fn enter(
        self,
        lane: u8,
        line: &[u8],
        table: &Table,
        weights: &mut [Pair<Count, Price>],
    ) -> After {
        let Settled { mut sheet } = self;
        match sheet.enter(lane, line, table, weights) {
            Err(fault) => After::Settled(Settled { sheet }, Answer(Err(fault.refusal()))),
            Ok(Entry::Unreadable) => {
                After::Settled(Settled { sheet }, Answer(Ok(Reading::Unreadable)))
            }
            Ok(Entry::Clean { price }) => {
                After::Settled(Settled { sheet }, Answer(Ok(Reading::Clean(price))))
            }
            Ok(Entry::Owed { price, slip }) => {
                let note = note_of(&slip);
                let answer = Answer(Ok(Reading::Owed { price, note }));
                After::Owing(Owing { sheet, slip }, answer)
            }
        }
    }

    // Closes and prints.
    pub fn close(self) -> Lanes
        ensures clean { result.clean ≡ self.sheet.clean }
        ensures taken { result.taken ≡ self.sheet.taken }
        ensures struck { result.struck ≡ self.sheet.struck }
    {
        let Settled { sheet } = self;
        // No lane is owed.
        let (clean, taken, struck) = sheet.close().unwrap().print();
        Lanes {
            clean,
            taken,
            struck,
        }
    }
}

// To take and to strike are two calls here, as they are of a sheet.
impl Owing {
    pub fn take(self) -> Settled
        ensures { Moved self.slip.lane Taken self.sheet result.sheet }
    {
        let Owing { mut sheet, slip } = self;
        // The slip matches.
        sheet.take(slip).unwrap();
        Settled { sheet }
    }

    pub fn strike(self) -> Settled
        ensures { Moved self.slip.lane Struck self.sheet result.sheet }
    {
        let Owing { mut sheet, slip } = self;
        // The slip matches.
        sheet.strike(slip).unwrap();
        Settled { sheet }
    }

    // Closes the sheet too early.
    pub fn close(self) -> (Refusal, Owing)
        ensures sheet { result.1.sheet ≡ self.sheet }
        ensures slip { result.1.slip ≡ self.slip }
        ensures refused { result.0 ≡ sheet_refusal 23 self.slip.lane }
    {
        let Owing { sheet, slip } = self;
        // The slip's lane is owed.
        let StillOpen { sheet, fault } = sheet.close().unwrap_err();
        (fault.refusal(), Owing { sheet, slip })
    }

    // Enters one more line, and closes the sheet too early. A second slip is then struck.
    pub fn enter(
        self,
        lane: u8,
        line: &[u8],
        table: &Table,
        weights: &mut [Pair<Count, Price>],
    ) -> (Owing, Answer, Answer) {
        let Owing { mut sheet, slip } = self;
        match sheet.enter(lane, line, table, weights) {
            Err(fault) => same_twice(Owing { sheet, slip }, Answer(Err(fault.refusal()))),
            Ok(Entry::Unreadable) => {
                same_twice(Owing { sheet, slip }, Answer(Ok(Reading::Unreadable)))
            }
            Ok(Entry::Clean { price }) => {
                same_twice(Owing { sheet, slip }, Answer(Ok(Reading::Clean(price))))
            }
            Ok(
                Entry::Owed {
                    price,
                    slip: second,
                },
            ) => {
                let note = note_of(&second);
                // Two lanes are owed.
                let StillOpen { mut sheet, fault } = sheet.close().unwrap_err();
                // The slip matches.
                sheet.strike(second).unwrap();
                let entered = Answer(Ok(Reading::Owed { price, note }));
                (Owing { sheet, slip }, entered, Answer(Err(fault.refusal())))
            }
        }
    }

    // Offers the slip to a sheet that owes nothing.
    pub fn offer(self, other: Settled) -> (Refusal, Owing, Settled)
        ensures sheet { result.1.sheet ≡ self.sheet }
        ensures slip { result.1.slip ≡ self.slip }
        ensures other { result.2.sheet ≡ other.sheet }
        ensures refused { result.0 ≡ sheet_refusal 22 self.slip.lane }
    {
        let Owing { sheet, slip } = self;
        let Settled {
            sheet: mut stranger,
        } = other;
        // No lane is owed there.
        let Returned { slip, fault } = stranger.take(slip).unwrap_err();
        let stranger = Settled { sheet: stranger };
        (fault.refusal(), Owing { sheet, slip }, stranger)
    }

    // Two sheets with each other's slips, where number and lane agree.
    pub fn exchange(self, other: Owing) -> (Owing, Owing)
        ensures first { result.0.sheet ≡ self.sheet }
        ensures second { result.1.sheet ≡ other.sheet }
        ensures own { result.0.slip ≡ (if self.slip.sheet == other.slip.sheet && self.slip.lane == other.slip.lane then other.slip else self.slip) }
        ensures others { result.1.slip ≡ (if self.slip.sheet == other.slip.sheet && self.slip.lane == other.slip.lane then self.slip else other.slip) }
    {
        let same_number = self.slip.sheet() == other.slip.sheet();
        let same_lane = self.slip.lane() == other.slip.lane();
        if !same_number || !same_lane {
            return (self, other);
        }
        let Owing {
            sheet: first,
            slip: own,
        } = self;
        let Owing {
            sheet: second,
            slip: others,
        } = other;
        (
            Owing {
                sheet: first,
                slip: others,
            },
            Owing {
                sheet: second,
                slip: own,
            },
        )
    }
}

fn same_twice(owing: Owing, answer: Answer) -> (Owing, Answer, Answer) {
    (owing, answer, answer)
}
