// What sessions do with symbols of another kind, with a list that is too short or too long, and when they are full.
use crate::outcome::Refused;
use crate::replies::{Weight, told};
use crate::sessions::{
    PADS, PADS_OR_ANY, byte_table, lent, needed, succession, table_of, turns_of,
};
use scale::{Count, Pair, Price, Scale};
use session::{
    Ask, MOST_SYMBOLS, Session, SessionFault, judge_weights, mark_word, run_both, run_turns,
};
use std::alloc::{AllocError, Global};
use std::io;
use table::{Symbol, Table, Touch};

const PAD: Touch = Touch {
    source: 0,
    gap: 30_000,
};

// A touch that is not allowed.
const STRAY: Touch = Touch {
    source: 3,
    gap: 30_000,
};

// What a full session is asked: to the end, and until it is made new and after.
const KEPT_FULL: [Ask<Touch>; 2] = [Ask::Read(PAD), Ask::Weigh];

const MADE_NEW: [Ask<Touch>; 7] = [
    Ask::Read(PAD),
    Ask::Read(STRAY),
    Ask::Weigh,
    Ask::Restart,
    Ask::Weigh,
    Ask::Read(PAD),
    Ask::Weigh,
];

pub fn run(rt: &HostRuntime, heap: Global) -> io::Result<()> {
    let bytes = byte_table(b"(a|a)*");
    let pads = table_of::<Touch>(PADS.nodes);
    let touched = succession::<Count, Touch>(heap, &bytes, &around(PAD))?;
    println!(rt; "touches on a byte table -> {touched}")?;
    let spelled = succession::<Count, u8>(heap, &pads, &around(b'a'))?;
    println!(rt; "bytes on a touch table -> {spelled}")?;
    let both = both(heap, &bytes, needed(&bytes))?;
    println!(rt; "count and yes over one table -> {both}")?;
    lists(rt, heap, &bytes)?;
    let unlent = short_session(heap, &pads, STRAY)?;
    println!(rt; "a session over 5 of 6 weights -> {unlent}")?;
    let more = full::<Pair<Count, Price>>(heap, &table_of::<Touch>(PADS_OR_ANY.nodes), &MADE_NEW)?;
    println!(rt; "65535 touches and more -> {more}")?;
    let kept = full::<Price>(heap, &pads, &KEPT_FULL)?;
    println!(rt; "65535 touches, no restart -> {kept}")
}

// What is asked around one symbol.
fn around<S: Copy>(symbol: S) -> [Ask<S>; 5] {
    [
        Ask::Weigh,
        Ask::Read(symbol),
        Ask::Weigh,
        Ask::Restart,
        Ask::Weigh,
    ]
}

// Lists of 11, 12 and 14 weights for a table that needs 12.
fn lists(rt: &HostRuntime, heap: Global, table: &Table) -> io::Result<()> {
    for room in [11, 12, 14] {
        let judged = judged(heap, table, room)?;
        println!(rt; "{room} weights, judged -> {judged}")?;
        let turned = turned(heap, table, room)?;
        println!(rt; "{room} weights, turns -> {turned}")?;
        let marked = marked(heap, table, room)?;
        println!(rt; "{room} weights, marks of aa -> {marked}")?;
    }
    let both = both(heap, table, 11)?;
    println!(rt; "12 and 11 weights, count and yes -> {both}")
}

fn judged(heap: Global, table: &Table, room: usize) -> Result<String, AllocError> {
    let weights = lent(heap, Count::unit(), room)?;
    answer(heap, judge_weights(table, weights.as_slice()))
}

fn answer(heap: Global, res: Result<(), SessionFault>) -> Result<String, AllocError> {
    match res {
        Ok(()) => String::from_str(heap, "done"),
        Err(fault) => Refused(fault.into()).to_string(heap),
    }
}

// The answer, and the turns and the list as they then are.
fn turned(heap: Global, table: &Table, room: usize) -> Result<String, AllocError> {
    let mut weights = lent(heap, Price { value: 42 }, room)?;
    let mut turns = turns_of::<Price, u8>(heap, &around(b'a'))?;
    let answer = answer(
        heap,
        run_turns(table, weights.as_mut_slice(), turns.as_mut_slice()),
    )?;
    let turns = told(heap, turns.as_slice())?;
    let list = listed(heap, weights.as_slice())?;
    format!(in heap; "{answer}; {turns};{list}")
}

// The answer, and the list as it then is.
fn marked(heap: Global, table: &Table, room: usize) -> Result<String, AllocError> {
    let mut weights = lent(heap, Count { value: 42 }, room)?;
    let answer = answer(
        heap,
        mark_word::<Count, u8>(table, b"aa", weights.as_mut_slice()),
    )?;
    let list = listed(heap, weights.as_slice())?;
    format!(in heap; "{answer};{list}")
}

fn listed<W: Copy + Into<Weight>>(heap: Global, weights: &[W]) -> Result<String, AllocError> {
    let mut text = String::new(heap);
    for weight in weights {
        let weight: Weight = (*weight).into();
        write!(text, " {weight}")?;
    }
    Ok(text)
}

// The same succession in counts and in yes, the latter over a list of so many weights.
fn both(heap: Global, table: &Table, room: usize) -> Result<String, AllocError> {
    let mut here = lent(heap, Count::unit(), needed(table))?;
    let mut there = lent(heap, bool::unit(), room)?;
    let mut first = turns_of::<Count, u8>(heap, &around(b'a'))?;
    let mut second = turns_of::<bool, u8>(heap, &around(b'a'))?;
    let result = run_both(
        table,
        here.as_mut_slice(),
        first.as_mut_slice(),
        there.as_mut_slice(),
        second.as_mut_slice(),
    );
    let answer = answer(heap, result)?;
    let counts = told(heap, first.as_slice())?;
    let yes = told(heap, second.as_slice())?;
    format!(in heap; "{answer}; {counts}; {yes}")
}

// Asks a session one thing after another, and tells what it answered.
fn asked<'t, 'w, W: Scale + Into<Weight>>(
    heap: Global,
    session: &mut Session<'t, 'w, W, Touch>,
    asks: &[Ask<Touch>],
) -> Result<String, AllocError> {
    let mut turns = turns_of::<W, Touch>(heap, asks)?;
    for turn in turns.iter_mut() {
        turn.reply = session.ask(turn.ask);
    }
    told(heap, turns.as_slice())
}

// A session over a list that is one weight too short.
fn short_session(heap: Global, table: &Table, symbol: Touch) -> Result<String, AllocError> {
    let asks = [Ask::Read(PAD), Ask::Read(symbol), Ask::Weigh, Ask::Restart];
    let mut weights = lent(heap, Count::unit(), 5)?;
    let mut session = Session::open(table, weights.as_mut_slice());
    let turns = asked(heap, &mut session, &asks);
    let held = session.end();
    let turns = turns?;
    let list = listed(heap, weights.as_slice())?;
    format!(in heap; "{turns}, end: {held};{list}")
}

// A session that is full, and what it is asked then.
fn full<W: Scale + Into<Weight>>(
    heap: Global,
    table: &Table,
    asks: &[Ask<Touch>],
) -> Result<String, AllocError> {
    let mut weights = lent(heap, W::unit(), needed(table))?;
    let mut session = Session::open(table, weights.as_mut_slice());
    let taken = fill(&mut session, PAD);
    let turns = asked(heap, &mut session, asks);
    let held = session.end();
    let turns = turns?;
    format!(in heap; "{taken} taken, {turns}, end: {held}")
}

// Reads a symbol as often as a session takes it, and answers how often it was taken.
fn fill<'t, 'w, W: Scale, S: Symbol>(session: &mut Session<'t, 'w, W, S>, symbol: S) -> u32 {
    let mut taken = 0u32;
    for _ in 0..MOST_SYMBOLS {
        if session.read(symbol).is_ok() {
            taken = taken.saturating_add(1);
        }
    }
    taken
}
