// One session's step over its lent list of weights. A session's methods hand the list to functions, as the marks of a
// whole word do, which have no session.
ghost use Rattle.std.specs.Prelude.{◌≡◌, List, length, IfOk, if◌then◌else◌, Some, None, MatchResult, nat_eq, nat_le};
ghost use Rattle.std.specs.Result.{result_err};
ghost use Rattle.readings.specs.Weights.{weight};
ghost use Rattle.session.specs.Sessions.{Front, Next, read_fault, room_fault, symbol_fault};
ghost use Rattle.session.specs.Words.{needed};
ghost use Rattle.session.specs.declared.fault.SessionFault.TheVariants.{ShortList};
ghost use Rattle.table.specs.Content.{tree};

use crate::fault::{MOST_SYMBOLS, SessionFault};
use crate::marks::{NodeWeights, WEIGHTS_PER_NODE, root};
use crate::word::mark_symbol;
use scale::Scale;
use table::{Symbol, Table};

// Refuses a list of weights that is too short for a table: it must have three for each node.
pub fn judge_weights<W: Scale>(table: &Table, weights: &[W]) -> Result<(), SessionFault>
    ensures { result_err result ≡ room_fault table.now (length weights.now) }
{
    judge_room(needed_by(table), weights.len())
}

// How many weights a table's marks take.
pub(crate) fn needed_by(table: &Table) -> usize
    ensures { result ≡ needed (tree table.now) }
{
    WEIGHTS_PER_NODE * table.nodes().len()
}

pub(crate) fn judge_room(needed: usize, room: usize) -> Result<(), SessionFault>
    ensures { result_err result ≡ (if nat_le needed room then None else Some (ShortList needed)) }
{
    if room < needed {
        return Err(SessionFault::ShortList(needed));
    }
    Ok(())
}

// Takes one symbol, and answers how many leaves were tested. A refusal leaves the list as it was.
pub(crate) fn mark_next<W: Scale, S: Symbol>(
    table: &Table,
    weights: &mut [W],
    held: usize,
    symbol: S,
) -> Result<usize, SessionFault>
    ensures refused { result_err result ≡ read_fault S.Symbol.number (S.Symbol.allowed symbol) table.now (length weights.old) held }
    ensures after { MatchResult result (λ n. Next W.Scale.ops S.Symbol.passing (tree table.now) held symbol weights.old weights.new n) (λ _. weights.new ≡ weights.old) }
{
    let needed = needed_by(table);
    judge_room(needed, weights.len())?;
    judge_symbol(table, held, symbol)?;
    Ok(mark_symbol(table.nodes(), &mut weights[..needed], held, symbol))
}

// A symbol that is not allowed or of another kind than the table's, and then a session that is full.
fn judge_symbol<S: Symbol>(table: &Table, held: usize, symbol: S) -> Result<(), SessionFault>
    ensures { result_err result ≡ symbol_fault S.Symbol.number (S.Symbol.allowed symbol) table.now held }
{
    if table.kind() != S::kind() || !symbol.is_allowed() {
        return Err(SessionFault::BadSymbol(held));
    }
    if held >= MOST_SYMBOLS {
        return Err(SessionFault::Full);
    }
    Ok(())
}

// The root's weight: its empty weight before the first symbol, its last weight after.
pub(crate) fn root_weight<W: Scale, S: Symbol>(
    table: &Table,
    weights: &[W],
    held: usize,
) -> Result<W, SessionFault>
    ensures refused { result_err result ≡ room_fault table.now (length weights.now) }
    ensures value { IfOk result (λ v. (w : List S) → Front W.Scale.ops S.Symbol.passing (tree table.now) held weights.now w → v ≡ weight W.Scale.ops S.Symbol.passing (tree table.now) w) }
{
    let needed = needed_by(table);
    judge_room(needed, weights.len())?;
    let root = root(&weights[..needed]);
    Ok(latest(root, held))
}

// What a root weighs with so many symbols held.
fn latest<W: Scale>(root: NodeWeights<W>, held: usize) -> W
    ensures { result ≡ (if nat_eq held 0 then root.empty else root.last) }
{
    if held == 0 { root.empty } else { root.last }
}
