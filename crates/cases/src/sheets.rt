// Cases of ruling sheets: entering, ruling, closing and printing.
use crate::owing::{After, Answer, Lanes, Note, note_of};
use crate::sessions::{ONE_OR_MANY, PADS, byte_table, lent, table_of};
use crate::settled::{Owing, Settled};
use scale::{Count, Pair, Price, Scale};
use std::alloc::{AllocError, Global};
use std::io;
use table::{Table, Touch};

// A lane, a line and how many weights are lent, on a sheet of its own, by the pattern `a at 9|(a at 3)*`, which needs 12.
const ALONE: [(u8, &str, usize); 13] = [
    (1, "b", 12),
    (1, "", 12),
    (2, "aa", 12),
    (3, "a", 12),
    (10, "a", 14),
    (10, "aab", 12),
    (0, "aa", 12),
    (11, "aa", 12),
    (255, "aa", 12),
    (4, "aa", 11),
    (0, "aa", 11),
    (11, "a", 0),
    (4, "", 0),
];

// Numbers of a's in a line, and its lane.
const LONG: [(u8, usize); 4] = [(5, 65_535), (5, 65_536), (0, 65_536), (5, 65_537)];

pub fn run(rt: &HostRuntime, heap: Global) -> io::Result<()> {
    let table = table_of::<u8>(ONE_OR_MANY.nodes);
    for (lane, line, room) in ALONE {
        let answer = alone(heap, &table, lane, line.as_bytes(), room)?;
        println!(rt; "lane {lane}, '{line}', {room} weights -> {answer}")?;
    }
    for (lane, count) in LONG {
        let line = vec![in heap; b'a'; count]?;
        let answer = alone(heap, &table, lane, line.as_slice(), 12)?;
        println!(rt; "lane {lane}, {count} a's -> {answer}")?;
    }
    others(rt, heap, &table)
}

// Other tables, and more than one line.
fn others(rt: &HostRuntime, heap: Global, table: &Table) -> io::Result<()> {
    let touches = table_of::<Touch>(PADS.nodes);
    let pads = alone(heap, &touches, 0, b"", 0)?;
    println!(rt; "a table for touches, lane 0, '', 0 weights -> {pads}")?;
    let twos = byte_table(b"(a|a)*");
    let many = alone(heap, &twos, 6, &[b'a'; 40], 12)?;
    println!(rt; "(a|a)*, lane 6, 40 a's -> {many}")?;
    let heat = shown_heat(heap, table)?;
    println!(rt; "a heat -> {heat}")?;
    for number in [8, 7] {
        let strange = shown_strange(heap, table, number)?;
        println!(rt; "a slip of sheet 7 on another sheet {number} -> {strange}")?;
    }
    let exchanged = shown_exchange(heap, table, &twos)?;
    println!(rt; "two sheets 7 with each other's slips -> {exchanged}")?;
    let early = shown_early(heap, table)?;
    println!(rt; "a sheet closed too early -> {early}")
}

fn weight() -> Pair<Count, Price> {
    Pair::<Count, Price>::unit()
}

// A line on a sheet of its own, which is then closed.
fn alone(
    heap: Global,
    table: &Table,
    lane: u8,
    line: &[u8],
    room: usize,
) -> Result<String, AllocError> {
    let mut weights = lent(heap, weight(), room)?;
    let (sheet, answer) = ruled(
        Settled::open(7),
        lane,
        line,
        table,
        weights.as_mut_slice(),
        Owing::strike,
    );
    let lanes = sheet.close();
    format!(in heap; "{answer}; {lanes}")
}

// Enters a line, and rules on its lane where it is owed.
fn ruled<R: FnOnce(Owing) -> Settled>(
    sheet: Settled,
    lane: u8,
    line: &[u8],
    table: &Table,
    weights: &mut [Pair<Count, Price>],
    rule: R,
) -> (Settled, Answer)
    requires { R.IsAlwaysCallable rule }
{
    match sheet.enter(lane, line, table, weights) {
        After::Settled(sheet, answer) => (sheet, answer),
        After::Owing(owing, answer) => (rule(owing), answer),
    }
}

// Several lines on one sheet: a lane whose line has a reading takes no other.
fn heat(table: &Table, weights: &mut [Pair<Count, Price>]) -> ([Answer; 9], Lanes) {
    let (sheet, a) = ruled(Settled::open(9), 1, b"a", table, weights, Owing::take);
    let (sheet, b) = ruled(sheet, 1, b"aa", table, weights, Owing::take);
    let (sheet, c) = ruled(sheet, 2, b"b", table, weights, Owing::take);
    let (sheet, d) = ruled(sheet, 2, b"aaa", table, weights, Owing::take);
    let (sheet, e) = ruled(sheet, 2, b"a", table, weights, Owing::take);
    let (sheet, f) = ruled(sheet, 3, b"a", table, weights, Owing::strike);
    let (sheet, g) = ruled(sheet, 3, b"", table, weights, Owing::take);
    let (sheet, h) = ruled(sheet, 10, b"a", table, weights, Owing::strike);
    let (sheet, i) = ruled(sheet, 9, b"a", table, weights, Owing::take);
    ([a, b, c, d, e, f, g, h, i], sheet.close())
}

fn shown_heat(heap: Global, table: &Table) -> Result<String, AllocError> {
    let mut weights = lent(heap, weight(), 12)?;
    let (answers, lanes) = heat(table, weights.as_mut_slice());
    told_and_shown(heap, &answers, lanes)
}

// What a sheet answered, and its lanes in the end.
fn told_and_shown(heap: Global, answers: &[Answer], lanes: Lanes) -> Result<String, AllocError> {
    let answers = told(heap, answers)?;
    format!(in heap; "{answers}{lanes}")
}

fn told(heap: Global, answers: &[Answer]) -> Result<String, AllocError> {
    let mut text = String::new(heap);
    for answer in answers {
        write!(text, "{answer}; ")?;
    }
    Ok(text)
}

// A slip that is offered to another sheet, and then struck on its own.
fn strange(
    table: &Table,
    number: u32,
    weights: &mut [Pair<Count, Price>],
) -> ([Answer; 2], Lanes, Lanes) {
    let other = Settled::open(number);
    match Settled::open(7).enter(3, b"a", table, weights) {
        After::Settled(own, answer) => ([answer, answer], own.close(), other.close()),
        After::Owing(own, answer) => {
            let (refusal, own, other) = own.offer(other);
            (
                [answer, Answer(Err(refusal))],
                own.strike().close(),
                other.close(),
            )
        }
    }
}

fn shown_strange(heap: Global, table: &Table, number: u32) -> Result<String, AllocError> {
    let mut weights = lent(heap, weight(), 12)?;
    let (answers, own, other) = strange(table, number, weights.as_mut_slice());
    let answers = told(heap, &answers)?;
    format!(in heap; "{answers}own: {own}; other: {other}")
}

// Two sheets of one number: what stands on the slip that each was ruled by, and the lanes of each.
#[derive(Clone, Copy)]
struct Exchanged {
    note: Note,
    lanes: Lanes,
    other_note: Note,
    other_lanes: Lanes,
}

fn swapped(table: &Table, twos: &Table, weights: &mut [Pair<Count, Price>]) -> Option<Exchanged> {
    match Settled::open(7).enter(3, b"a", table, weights) {
        After::Settled(first, _) => {
            first.close();
            None
        }
        After::Owing(first, _) => match Settled::open(7).enter(3, b"aa", twos, weights) {
            After::Settled(second, _) => {
                second.close();
                first.strike().close();
                None
            }
            After::Owing(second, _) => Some(exchange(first, second)),
        },
    }
}

fn exchange(first: Owing, second: Owing) -> Exchanged {
    let (first, second) = first.exchange(second);
    let (note, other_note) = (note_of(&first.slip), note_of(&second.slip));
    Exchanged {
        note,
        lanes: first.take().close(),
        other_note,
        other_lanes: second.strike().close(),
    }
}

fn shown_exchange(heap: Global, table: &Table, twos: &Table) -> Result<String, AllocError> {
    let mut weights = lent(heap, weight(), 12)?;
    match swapped(table, twos, weights.as_mut_slice()) {
        None => String::from_str(heap, "no slips"),
        Some(both) => {
            let (a, b) = (both.note, both.other_note);
            let (first, second) = (both.lanes, both.other_lanes);
            format!(in heap; "{a}; {first}; {b}; {second}")
        }
    }
}

// A sheet that is closed while lanes are owed: lane 5 all along, and others until their slips are struck.
fn early(table: &Table, weights: &mut [Pair<Count, Price>]) -> ([Answer; 9], Lanes) {
    match Settled::open(7).enter(5, b"a", table, weights) {
        After::Settled(sheet, answer) => ([answer; 9], sheet.close()),
        After::Owing(owing, answer) => {
            let (owing, a, b) = owing.enter(8, b"a", table, weights);
            let (owing, c, d) = owing.enter(3, b"a", table, weights);
            let (owing, e, _) = owing.enter(5, b"aa", table, weights);
            let (owing, f, _) = owing.enter(4, b"b", table, weights);
            let (owing, g, _) = owing.enter(1, b"aa", table, weights);
            let (refusal, owing) = owing.close();
            let refused = Answer(Err(refusal));
            ([answer, a, b, c, d, e, f, g, refused], owing.take().close())
        }
    }
}

fn shown_early(heap: Global, table: &Table) -> Result<String, AllocError> {
    let mut weights = lent(heap, weight(), 12)?;
    let (answers, lanes) = early(table, weights.as_mut_slice());
    told_and_shown(heap, &answers, lanes)
}
