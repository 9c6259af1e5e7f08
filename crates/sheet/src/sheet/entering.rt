// Entering lines, and all that refuses an entry.
ghost use Rattle.std.specs.Prelude.{◌≡◌, length, drop, IfErr, MatchResult};
ghost use Rattle.std.specs.Option.{option_map};
ghost use Rattle.std.specs.Result.{result_err};
ghost use Rattle.session.specs.Faults.{refusal_of};
ghost use Rattle.sheet.specs.Calls.{Judged, filled};
ghost use Rattle.sheet.specs.History.{Did, enter};
ghost use Rattle.sheet.specs.Refusals.{entry_refusal, filled_refusal, lane_refusal, session_judged};
ghost use Rattle.sheet.specs.Weighing.{needed};

use crate::entry::{Entry, entry_of};
use crate::fault::{AtLane, SheetFault};
use crate::lane::Lane;
use crate::sheet::Sheet;
use crate::standing::Standing;
use crate::weigh::weigh;
use scale::{Count, Pair, Price};
use session::{MOST_SYMBOLS, SessionFault, judge_weights};
use table::{Symbol, Table};

impl Sheet {
    // Enters a line at a lane: weighs it by a byte table, and answers how it was read. A line with one reading makes the
    // lane clean, one with more makes it owed. The lent weights must be three for each node; those past them are left as
    // they are, and a refusal leaves all as it is.
    pub fn enter(
        &mut self,
        lane: u8,
        line: &[u8],
        table: &Table,
        weights: &mut [Pair<Count, Price>],
    ) -> Result<Entry, SheetFault>
        ensures entered { Did (enter lane line.now table.now (length weights.old) result) self.old self.new }
        ensures lent { MatchResult result (λ _. drop (needed table.now) weights.new ≡ drop (needed table.now) weights.old) (λ _. weights.new ≡ weights.old) }
    {
        let lane = self.judge(lane, line, table, weights)?;
        let weight = weigh(table, line, weights);
        let (standing, entry) = entry_of(self.number, lane, weight);
        self.place(lane, standing);
        Ok(entry)
    }

    // All that refuses an entry, the lowest number first; else the lane. Table and weights stand apart here and below, as
    // `enter` is given them and the session takes them.
    fn judge(
        &self,
        lane: u8,
        line: &[u8],
        table: &Table,
        weights: &[Pair<Count, Price>],
    ) -> Result<Lane, SheetFault>
        ensures { Judged lane (entry_refusal (filled self.now lane) lane line.now table.now (length weights.now)) result }
    {
        judge_session(lane, table, weights)?;
        let at = judge_lane(lane)?;
        if line.len() > MOST_SYMBOLS {
            return Err(SheetFault::LongLine);
        }
        self.judge_filled(at)
    }

    // A lane whose line has a reading takes no other line.
    fn judge_filled(&self, lane: Lane) -> Result<Lane, SheetFault>
        ensures { Judged lane (filled_refusal (filled self.now lane) lane) result }
    {
        if self.standing(lane) == Standing::Unfilled {
            return Ok(lane);
        }
        Err(SheetFault::Filled(lane.number()))
    }
}

// What the session refuses before it reads a symbol.
fn judge_list(table: &Table, weights: &[Pair<Count, Price>]) -> Result<(), SessionFault>
    ensures { option_map refusal_of (result_err result) ≡ session_judged table.now (length weights.now) }
{
    if table.kind() != <u8 as Symbol>::kind() {
        return Err(SessionFault::BadSymbol(0));
    }
    judge_weights(table, weights)
}

// The same, with the lane beside the fault.
fn judge_session(lane: u8, table: &Table, weights: &[Pair<Count, Price>]) -> Result<(), AtLane>
    ensures answer { option_map (λ a. refusal_of a.fault) (result_err result) ≡ session_judged table.now (length weights.now) }
    ensures beside { IfErr result (λ a. a.lane ≡ lane) }
{
    judge_list(table, weights).map_err(|fault| AtLane { lane, fault })
}

// A sheet has the lanes 1 to 10.
fn judge_lane(lane: u8) -> Result<Lane, SheetFault>
    ensures { Judged lane (lane_refusal lane) result }
{
    match Lane::new(lane) {
        Some(at) if (1..=10).contains(&lane) => Ok(at),
        _ => Err(SheetFault::BadLane(lane)),
    }
}
