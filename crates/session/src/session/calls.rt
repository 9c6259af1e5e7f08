// What a session is asked.
ghost use Rattle.std.specs.Prelude.{◌≡◌, ◌<◌, ◌≤◌, List, [], ◌∷◌, ◌++◌, length, drop, IfOk, Ok, MatchResult, OnErr};
ghost use Rattle.std.specs.Result.{result_err};
ghost use Rattle.readings.specs.Weights.{weight};
ghost use Rattle.session.specs.Runs.{ask_fault, Right, held_next};
ghost use Rattle.session.specs.Sessions.{Holds, Kept, leaves, read_fault, room_fault};
ghost use Rattle.session.specs.Words.{live_after, needed};
ghost use Rattle.table.specs.Content.{tree};

use crate::fault::SessionFault;
use crate::lent::{mark_next, root_weight};
use crate::session::Session;
use crate::turn::{Ask, Reply};
use crate::word::{mark_start, mark_word};
use scale::Scale;
use table::{Symbol, Table};

impl<'t, 'w, W: Scale, S: Symbol> Session<'t, 'w, W, S> {
    // A new session, which holds no symbol. Over a list that is too short it is none: every call but `end` is refused.
    pub fn open(table: &'t Table, weights: &'w mut [W]) -> Session<'t, 'w, W, S>
        ensures table { result.table.now ≡ table.now }
        ensures lender { result.weights.ghost_name ≡ weights.entry.ghost_name }
        ensures empty { result.held ≡ 0 }
        ensures new { needed (tree table.now) ≤ length weights.old → Holds W.Scale.ops S.Symbol.passing result [] }
        ensures rest { drop (needed (tree table.now)) result.weights.now ≡ drop (needed (tree table.now)) weights.old }
        ensures short { length weights.old < needed (tree table.now) → result.weights.now ≡ weights.old }
    {
        mark_start::<W, S>(table, weights);
        Session {
            table,
            weights,
            held: 0,
            kind: &[],
        }
    }

    // Takes one symbol, and answers how many leaves were tested. A refusal changes nothing.
    pub fn read(&mut self, symbol: S) -> Result<usize, SessionFault>
        ensures refused { result_err result ≡ read_fault S.Symbol.number (S.Symbol.allowed symbol) self.old.table.now (length self.old.weights.now) self.old.held }
        ensures kept { Kept self.old self.new }
        ensures unchanged { OnErr result (self.new ≡ self.old) }
        ensures taken { (w : List S) → Holds W.Scale.ops S.Symbol.passing self.old w → IfOk result (λ n. Holds W.Scale.ops S.Symbol.passing self.new (w ++ symbol ∷ []) × (live_after W.Scale.ops S.Symbol.passing (tree self.old.table.now) w ≤ n) × (n ≤ leaves (tree self.old.table.now))) }
    {
        let tests = mark_next(self.table, self.weights, self.held, symbol)?;
        self.held += 1;
        Ok(tests)
    }

    // What the pattern weighs over the symbols held.
    pub fn weigh(&self) -> Result<W, SessionFault>
        ensures refused { result_err result ≡ room_fault self.now.table.now (length self.now.weights.now) }
        ensures value { (w : List S) → Holds W.Scale.ops S.Symbol.passing self.now w → result ≡ Ok (weight W.Scale.ops S.Symbol.passing (tree self.now.table.now) w) }
    {
        root_weight::<W, S>(self.table, self.weights, self.held)
    }

    // Makes the session new.
    pub fn restart(&mut self) -> Result<(), SessionFault>
        ensures refused { result_err result ≡ room_fault self.old.table.now (length self.old.weights.now) }
        ensures kept { Kept self.old self.new }
        ensures after { MatchResult result (λ _. Holds W.Scale.ops S.Symbol.passing self.new []) (λ _. self.new ≡ self.old) }
    {
        mark_word::<W, S>(self.table, &[], self.weights)?;
        self.held = 0;
        Ok(())
    }

    // Asks once: reads, weighs or restarts. A refusal changes nothing.
    pub fn ask(&mut self, ask: Ask<S>) -> Result<Reply<W>, SessionFault>
        ensures refused { result_err result ≡ ask_fault S.Symbol.number S.Symbol.allowed self.old.table.now (length self.old.weights.now) self.old.held ask }
        ensures kept { Kept self.old self.new }
        ensures unchanged { OnErr result (self.new ≡ self.old) }
        ensures right { (w : List S) → Holds W.Scale.ops S.Symbol.passing self.old w → Right W.Scale.ops S.Symbol.passing S.Symbol.number S.Symbol.allowed self.old.table.now w ask result × Holds W.Scale.ops S.Symbol.passing self.new (held_next w ask result) }
    {
        // What is asked is data, so a `match` goes by it. `?` and not `map(Reply::Took)`: a call of `map` gets no proof where the constructor's type has a parameter.
        match ask {
            Ask::Read(symbol) => Ok(Reply::Took(self.read(symbol)?)),
            Ask::Weigh => Ok(Reply::Weighs(self.weigh()?)),
            Ask::Restart => {
                self.restart()?;
                Ok(Reply::Restarted)
            }
        }
    }

    // Uses the session up, and answers how many symbols it held.
    pub fn end(self) -> usize
        ensures count { result ≡ self.entry.held }
        ensures list { self.exit.1.0.now ≡ self.entry.weights.now }
    {
        let Session {
            table,
            weights,
            held,
            kind,
        } = self;
        held
    }
}
