// A session's type.
use table::Table;

mod calls;

// The symbols of one kind that were taken since the last restart, over a checked table, in a lent list of weights.
//
// Which symbols these are stands in the calls' contracts and in no field: a field would name one word, and the contracts
// speak of every word that the marks may hold.
pub struct Session<'t, 'w, W, S> {
    table: &'t Table,
    weights: &'w mut [W],
    held: usize,
    // No symbol; it says of which kind they are. A loan and no `PhantomData<S>`, so that a session can be sent where its symbols
    // can be shared; of a `PhantomData` of a loan `end` has no proof.
    kind: &'t [S],
}
