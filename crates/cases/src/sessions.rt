// Cases of sessions: successions of read, weigh and restart, at both kinds of symbol and at all four scales.
use crate::judged::{Case, EITHER_OF_2, REPEAT_OF_1};
use crate::outcome::Refused;
use crate::replies::{Sign, Weight, told};
use scale::{Count, Pair, Price, Scale};
use session::{Ask, Reply, Turn, WEIGHTS_PER_NODE, run_turns};
use std::alloc::{AllocError, Global};
use std::io;
use table::{BLANK, Node, NodeKind, Symbol, Table, Touch};

// Patterns of bytes, of which the text says all.
const TEXTS: [&str; 5] = ["(a|a*)(b|b*)", "(a*)*", "()*", "(a|())*", "a"];

const A: Node = Node {
    kind: NodeKind::Leaf as u8,
    low: 97,
    high: 97,
    price: 3,
    ..BLANK
};

// A pad touch from 25 to 60 seconds after the touch before.
const PAD: Node = Node {
    kind: NodeKind::Leaf as u8,
    low: 2_500,
    high: 6_000,
    price: 7,
    ..BLANK
};

// A touch of any source.
const ANY: Node = Node {
    kind: NodeKind::Leaf as u8,
    tag: 3,
    size: 1,
    low: 0,
    high: 999_999,
    price: 9,
};

const REPEAT_OF_3: Node = Node {
    size: 4,
    ..REPEAT_OF_1
};

// A single a is read in two ways, and any other number of them in one.
pub const ONE_OR_MANY: Case = Case {
    name: "a at 9|(a at 3)*",
    nodes: &[
        Node { price: 9, ..A },
        A,
        REPEAT_OF_1,
        Node {
            size: 4,
            ..EITHER_OF_2
        },
    ],
};

// Patterns of bytes with prices.
const PRICED: [Case; 3] = [
    Case {
        name: "(a at 3|a at 5)*",
        nodes: &[A, Node { price: 5, ..A }, EITHER_OF_2, REPEAT_OF_3],
    },
    ONE_OR_MANY,
    Case {
        name: "(a at 4294967295)*",
        nodes: &[
            Node {
                price: 4_294_967_295,
                ..A
            },
            REPEAT_OF_1,
        ],
    },
];

pub const PADS: Case = Case {
    name: "(pad at 7)*",
    nodes: &[PAD, REPEAT_OF_1],
};

pub const PADS_OR_ANY: Case = Case {
    name: "(pad at 7|any at 9)*",
    nodes: &[PAD, ANY, EITHER_OF_2, REPEAT_OF_3],
};

// What is asked of patterns of bytes.
const BYTES: [Ask<u8>; 13] = [
    Ask::Weigh,
    Ask::Read(b'a'),
    Ask::Weigh,
    Ask::Read(b'a'),
    Ask::Weigh,
    Ask::Read(b'b'),
    Ask::Weigh,
    Ask::Restart,
    Ask::Weigh,
    Ask::Read(b'b'),
    Ask::Weigh,
    Ask::Read(b'a'),
    Ask::Weigh,
];

// What is asked of patterns of touches: those at the ends of the pad's bounds, and some that are not allowed.
const TOUCHES: [Ask<Touch>; 20] = [
    Ask::Weigh,
    Ask::Read(Touch {
        source: 0,
        gap: 25_000,
    }),
    Ask::Weigh,
    Ask::Read(Touch {
        source: 0,
        gap: 60_009,
    }),
    Ask::Weigh,
    Ask::Read(Touch {
        source: 3,
        gap: 30_000,
    }),
    Ask::Weigh,
    Ask::Read(Touch {
        source: 0,
        gap: 10_000_000,
    }),
    Ask::Weigh,
    Ask::Read(Touch {
        source: 1,
        gap: 30_000,
    }),
    Ask::Weigh,
    Ask::Restart,
    Ask::Weigh,
    Ask::Read(Touch {
        source: 3,
        gap: 30_000,
    }),
    Ask::Read(Touch {
        source: 0,
        gap: 24_999,
    }),
    Ask::Weigh,
    Ask::Read(Touch {
        source: 2,
        gap: 9_999_999,
    }),
    Ask::Weigh,
    Ask::Restart,
    Ask::Weigh,
];

pub fn run(rt: &HostRuntime, heap: Global) -> io::Result<()> {
    for text in TEXTS {
        at_all_scales::<u8>(rt, heap, text, &byte_table(text.as_bytes()), &BYTES)?;
    }
    for case in PRICED {
        let table = table_of::<u8>(case.nodes);
        at_all_scales::<u8>(rt, heap, case.name, &table, &BYTES)?;
    }
    let pads = table_of::<Touch>(PADS.nodes);
    at_all_scales::<Touch>(rt, heap, PADS.name, &pads, &TOUCHES)?;
    let pads_or_any = table_of::<Touch>(PADS_OR_ANY.nodes);
    at_all_scales::<Touch>(rt, heap, PADS_OR_ANY.name, &pads_or_any, &TOUCHES)
}

// The table of a text. A text that is refused would have a new table.
pub fn byte_table(text: &[u8]) -> Table {
    text::table_of(text).unwrap_or_else(|_| Table::new())
}

// The table of a list. A list that is refused would leave the table new.
pub fn table_of<S: Symbol>(nodes: &[Node]) -> Table {
    let mut table = Table::new();
    let _ = table.judge::<S>(nodes);
    table
}

// The same succession at each scale.
fn at_all_scales<S: Symbol + Into<Sign>>(
    rt: &HostRuntime,
    heap: Global,
    name: &str,
    table: &Table,
    asks: &[Ask<S>],
) -> io::Result<()> {
    let yes = succession::<bool, S>(heap, table, asks)?;
    println!(rt; "{name}, yes -> {yes}")?;
    let count = succession::<Count, S>(heap, table, asks)?;
    println!(rt; "{name}, count -> {count}")?;
    let price = succession::<Price, S>(heap, table, asks)?;
    println!(rt; "{name}, price -> {price}")?;
    let both = succession::<Pair<Count, Price>, S>(heap, table, asks)?;
    println!(rt; "{name}, count and price -> {both}")
}

pub fn succession<W: Scale + Into<Weight>, S: Symbol + Into<Sign>>(
    heap: Global,
    table: &Table,
    asks: &[Ask<S>],
) -> Result<String, AllocError> {
    let mut weights = lent(heap, W::unit(), needed(table))?;
    let mut turns = turns_of::<W, S>(heap, asks)?;
    match run_turns(table, weights.as_mut_slice(), turns.as_mut_slice()) {
        Ok(()) => told(heap, turns.as_slice()),
        Err(fault) => Refused(fault.into()).to_string(heap),
    }
}

// How many weights a table's sessions are lent.
pub fn needed(table: &Table) -> usize {
    WEIGHTS_PER_NODE * table.nodes().len()
}

// A list of weights to be lent, all the same.
pub fn lent<W: Scale>(heap: Global, weight: W, room: usize) -> Result<Vec<W>, AllocError> {
    Ok(vec![in heap; weight; room]?)
}

// Turns that have no answer yet, which stands as 99 tests.
pub fn turns_of<W: Scale, S: Symbol>(
    heap: Global,
    asks: &[Ask<S>],
) -> Result<Vec<Turn<W, S>>, AllocError> {
    let mut turns = Vec::new(heap);
    for ask in asks {
        turns.push(Turn {
            ask: *ask,
            reply: Ok(Reply::Took(99)),
        })?;
    }
    Ok(turns)
}
