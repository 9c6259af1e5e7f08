// The marks of a whole word.
ghost use Rattle.std.specs.Prelude.{◌≡◌, ◌<◌, ◌≤◌, [], length, if◌then◌else◌, MatchResult, nat_eq};
ghost use Rattle.std.specs.Result.{result_err};
ghost use Rattle.session.specs.Shifts.{Fits};
ghost use Rattle.session.specs.Sessions.{room_fault};
ghost use Rattle.session.specs.Words.{Follows, Marked, marks_after, needed};
ghost use Rattle.table.specs.Content.{tree};
ghost use Rattle.table.specs.Tree.{tree_of};

use crate::fault::SessionFault;
use crate::lent::{judge_room, needed_by};
use crate::marks::shift;
use crate::start::start;
use scale::Scale;
use table::{Node, Symbol, Table};

// Writes a pattern's marks after a word's symbols at the front of a lent list of weights, which keeps the rest, or
// refuses a list that is too short, which is left as it was.
//
// Every node then holds what its readings say, and the root's weight is the pattern's weight of the word, at every
// scale: the root's empty weight where the word is empty, else its last weight.
pub fn mark_word<W: Scale, S: Symbol>(
    table: &Table,
    word: &[S],
    weights: &mut [W],
) -> Result<(), SessionFault>
    ensures refused { result_err result ≡ room_fault table.now (length weights.old) }
    ensures after { MatchResult result (λ _. Marked W.Scale.ops S.Symbol.passing (tree table.now) word.now weights.old weights.new) (λ _. weights.new ≡ weights.old) }
{
    let needed = needed_by(table);
    judge_room(needed, weights.len())?;
    mark_symbols(table.nodes(), word, &mut weights[..needed]);
    Ok(())
}

// The marks of no symbol. A list that is too short is left as it was.
pub(crate) fn mark_start<W: Scale, S: Symbol>(table: &Table, weights: &mut [W])
    ensures new { needed (tree table.now) ≤ length weights.old → Marked W.Scale.ops S.Symbol.passing (tree table.now) [] weights.old weights.new }
    ensures short { length weights.old < needed (tree table.now) → weights.new ≡ weights.old }
{
    let _ = mark_word::<W, S>(table, &[], weights);
}

fn mark_symbols<W: Scale, S: Symbol>(nodes: &[Node], word: &[S], marks: &mut [W])
    requires fits { Fits (tree_of nodes.now) nodes.now (length marks.old) }
    ensures { marks.new ≡ marks_after W.Scale.ops S.Symbol.passing (tree_of nodes.now) word.now }
{
    start::<W, S>(nodes, marks);
    for (held, symbol) in word.iter().enumerate() {
        mark_symbol(nodes, marks, held, *symbol);
    }
}

// Shifts the marks by the symbol that follows as many as are held, and answers how many leaves were tested.
pub(crate) fn mark_symbol<W: Scale, S: Symbol>(
    nodes: &[Node],
    marks: &mut [W],
    held: usize,
    symbol: S,
) -> usize
    requires fits { Fits (tree_of nodes.now) nodes.now (length marks.old) }
    ensures { Follows W.Scale.ops S.Symbol.passing (tree_of nodes.now) marks.old held symbol marks.new result }
{
    shift(nodes, marks, to_root(held), symbol)
}

// What comes in at the root: one with the first symbol, nothing later.
fn to_root<W: Scale>(held: usize) -> W
    ensures { result ≡ (if nat_eq held 0 then W.Scale.ops.one else W.Scale.ops.nothing) }
{
    if held == 0 { W::unit() } else { W::zero() }
}
