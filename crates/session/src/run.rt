// Successions of read, weigh and restart, gone through on a new session.
ghost use Rattle.std.specs.Option.{option_or};
ghost use Rattle.std.specs.Prelude.{◌≡◌, List, [], length, drop, MatchResult, OnOk};
ghost use Rattle.std.specs.Result.{result_err};
ghost use Rattle.session.specs.Runs.{AllRight, LawOfMaps, asks};
ghost use Rattle.session.specs.Sessions.{Holds, Kept, room_fault};
ghost use Rattle.session.specs.Words.{needed};
ghost use Rattle.table.specs.Content.{tree};

use crate::fault::SessionFault;
use crate::lent::judge_weights;
use crate::session::Session;
use crate::turn::Turn;
use scale::Scale;
use table::{Symbol, Table};

// Goes through a succession of asks on a new session, and puts each reply beside its ask.
//
// Each weigh answers the summed weight of all readings of the symbols held: those of the reads not refused since the last
// restart, in order. Reads are refused exactly on their conditions, and weigh and restart never.
pub fn run_turns<W: Scale, S: Symbol>(
    table: &Table,
    weights: &mut [W],
    turns: &mut [Turn<W, S>],
) -> Result<(), SessionFault>
    ensures refused { result_err result ≡ room_fault table.now (length weights.old) }
    ensures law { OnOk result (AllRight W.Scale.ops S.Symbol.passing S.Symbol.number S.Symbol.allowed table.now [] turns.new) }
    ensures asks { asks turns.new ≡ asks turns.old }
    ensures lent { MatchResult result (λ _. drop (needed (tree table.now)) weights.new ≡ drop (needed (tree table.now)) weights.old) (λ _. (weights.new ≡ weights.old) × (turns.new ≡ turns.old)) }
{
    judge_weights(table, weights)?;
    let mut session = Session::open(table, weights);
    take_turns(&mut session, turns);
    session.end();
    Ok(())
}

// Goes through two successions over one table, each on a new session of its own scale.
//
// Where they ask the same, each weigh of the second answers the map of the first's, for every map between the scales
// that carries nothing, one, sums, products and prices; and the same reads are refused.
pub fn run_both<A: Scale, B: Scale, S: Symbol>(
    table: &Table,
    here: &mut [A],
    first: &mut [Turn<A, S>],
    there: &mut [B],
    second: &mut [Turn<B, S>],
) -> Result<(), SessionFault>
    ensures refused { result_err result ≡ option_or (room_fault table.now (length here.old)) (room_fault table.now (length there.old)) }
    ensures maps { OnOk result (LawOfMaps A.Scale.ops B.Scale.ops first.new second.new) }
    ensures right { OnOk result (AllRight A.Scale.ops S.Symbol.passing S.Symbol.number S.Symbol.allowed table.now [] first.new × AllRight B.Scale.ops S.Symbol.passing S.Symbol.number S.Symbol.allowed table.now [] second.new) }
    ensures asks { (asks first.new ≡ asks first.old) × (asks second.new ≡ asks second.old) }
    ensures lent { MatchResult result (λ _. (drop (needed (tree table.now)) here.new ≡ drop (needed (tree table.now)) here.old) × (drop (needed (tree table.now)) there.new ≡ drop (needed (tree table.now)) there.old)) (λ _. (here.new ≡ here.old) × (first.new ≡ first.old) × (there.new ≡ there.old) × (second.new ≡ second.old)) }
{
    judge_weights(table, here)?;
    judge_weights(table, there)?;
    // Both lists are judged, so neither run is refused; past each `?` the proof has what the run says.
    run_turns(table, here, first)?;
    run_turns(table, there, second)?;
    Ok(())
}

// One turn after another.
fn take_turns<'t, 'w, W: Scale, S: Symbol>(
    session: &mut Session<'t, 'w, W, S>,
    turns: &mut [Turn<W, S>],
)
    ensures kept { Kept session.old session.new }
    ensures asks { asks turns.new ≡ asks turns.old }
    ensures right { (w : List S) → Holds W.Scale.ops S.Symbol.passing session.old w → AllRight W.Scale.ops S.Symbol.passing S.Symbol.number S.Symbol.allowed session.old.table.now w turns.new }
{
    for turn in turns.iter_mut() {
        turn.reply = session.ask(turn.ask);
    }
}
