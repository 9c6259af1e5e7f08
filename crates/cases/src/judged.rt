// Cases of the judge.
use crate::outcome::Outcome;
use std::alloc::Global;
use std::io;
use table::{BLANK, Node, NodeKind, Symbol, Table, Touch};

// The nodes that the cases are made of: a leaf for one byte or one touch, and a node of each kind with operands, of the
// size that it has after single nodes. A constant cannot call `From` for a node's kind.
const LONE: Node = Node {
    kind: NodeKind::Leaf as u8,
    low: 97,
    high: 97,
    ..BLANK
};

pub const EITHER_OF_2: Node = Node {
    kind: NodeKind::Either as u8,
    size: 3,
    ..BLANK
};

const THEN_OF_2: Node = Node {
    kind: NodeKind::Then as u8,
    size: 3,
    ..BLANK
};

pub const REPEAT_OF_1: Node = Node {
    kind: NodeKind::Repeat as u8,
    size: 2,
    ..BLANK
};

// How many empty nodes are judged at a time, to see the limits of a table.
const MANY: [usize; 3] = [511, 512, 513];

// A list of nodes, and what it shows or says.
#[derive(Clone, Copy)]
pub struct Case {
    pub name: &'static str,
    pub nodes: &'static [Node],
}

const OF_BYTES: [Case; 52] = [
    Case {
        name: "no node",
        nodes: &[],
    },
    Case {
        name: "an empty node",
        nodes: &[BLANK],
    },
    Case {
        name: "a leaf",
        nodes: &[LONE],
    },
    Case {
        name: "either",
        nodes: &[LONE, BLANK, EITHER_OF_2],
    },
    Case {
        name: "then",
        nodes: &[LONE, LONE, THEN_OF_2],
    },
    Case {
        name: "repeat",
        nodes: &[LONE, REPEAT_OF_1],
    },
    Case {
        name: "repeat of repeat",
        nodes: &[
            LONE,
            REPEAT_OF_1,
            Node {
                size: 3,
                ..REPEAT_OF_1
            },
        ],
    },
    Case {
        name: "then of repeats",
        nodes: &[
            LONE,
            REPEAT_OF_1,
            LONE,
            REPEAT_OF_1,
            Node {
                size: 5,
                ..THEN_OF_2
            },
        ],
    },
    Case {
        name: "kind 5",
        nodes: &[Node { kind: 5, ..BLANK }],
    },
    Case {
        name: "kind 255",
        nodes: &[Node { kind: 255, ..BLANK }],
    },
    Case {
        name: "kind 5 second",
        nodes: &[LONE, Node { kind: 5, ..BLANK }],
    },
    Case {
        name: "tag in an empty node",
        nodes: &[Node { tag: 1, ..BLANK }],
    },
    Case {
        name: "low in an empty node",
        nodes: &[Node { low: 1, ..BLANK }],
    },
    Case {
        name: "high in an empty node",
        nodes: &[Node { high: 1, ..BLANK }],
    },
    Case {
        name: "price in an empty node",
        nodes: &[Node { price: 1, ..BLANK }],
    },
    Case {
        name: "tag in an either",
        nodes: &[
            LONE,
            LONE,
            Node {
                tag: 1,
                ..EITHER_OF_2
            },
        ],
    },
    Case {
        name: "low in a then",
        nodes: &[
            LONE,
            LONE,
            Node {
                low: 1,
                ..THEN_OF_2
            },
        ],
    },
    Case {
        name: "high in a repeat",
        nodes: &[
            LONE,
            Node {
                high: 1,
                ..REPEAT_OF_1
            },
        ],
    },
    Case {
        name: "price in a repeat",
        nodes: &[
            LONE,
            Node {
                price: 1,
                ..REPEAT_OF_1
            },
        ],
    },
    Case {
        name: "repeat first",
        nodes: &[REPEAT_OF_1],
    },
    Case {
        name: "either first",
        nodes: &[EITHER_OF_2],
    },
    Case {
        name: "then first",
        nodes: &[THEN_OF_2],
    },
    Case {
        name: "either of one",
        nodes: &[
            LONE,
            Node {
                size: 2,
                ..EITHER_OF_2
            },
        ],
    },
    Case {
        name: "then of one",
        nodes: &[
            LONE,
            Node {
                size: 2,
                ..THEN_OF_2
            },
        ],
    },
    Case {
        name: "either of one repeat",
        nodes: &[LONE, REPEAT_OF_1, EITHER_OF_2],
    },
    Case {
        name: "an empty node of size 0",
        nodes: &[Node { size: 0, ..BLANK }],
    },
    Case {
        name: "an empty node of size 2",
        nodes: &[Node { size: 2, ..BLANK }],
    },
    Case {
        name: "a leaf of size 2",
        nodes: &[Node { size: 2, ..LONE }],
    },
    Case {
        name: "either of size 2",
        nodes: &[
            LONE,
            LONE,
            Node {
                size: 2,
                ..EITHER_OF_2
            },
        ],
    },
    Case {
        name: "either of size 4",
        nodes: &[
            LONE,
            LONE,
            Node {
                size: 4,
                ..EITHER_OF_2
            },
        ],
    },
    Case {
        name: "then of size 2",
        nodes: &[
            LONE,
            LONE,
            Node {
                size: 2,
                ..THEN_OF_2
            },
        ],
    },
    Case {
        name: "then of size 4",
        nodes: &[
            LONE,
            LONE,
            Node {
                size: 4,
                ..THEN_OF_2
            },
        ],
    },
    Case {
        name: "repeat of size 1",
        nodes: &[
            LONE,
            Node {
                size: 1,
                ..REPEAT_OF_1
            },
        ],
    },
    Case {
        name: "repeat of size 3",
        nodes: &[
            LONE,
            Node {
                size: 3,
                ..REPEAT_OF_1
            },
        ],
    },
    Case {
        name: "two empty nodes",
        nodes: &[BLANK, BLANK],
    },
    Case {
        name: "a leaf and a then",
        nodes: &[LONE, LONE, LONE, THEN_OF_2],
    },
    Case {
        name: "a leaf and a repeat",
        nodes: &[LONE, LONE, REPEAT_OF_1],
    },
    Case {
        name: "a leaf with tag 1",
        nodes: &[Node { tag: 1, ..LONE }],
    },
    Case {
        name: "a leaf from b to a",
        nodes: &[Node { low: 98, ..LONE }],
    },
    Case {
        name: "a leaf to 256",
        nodes: &[Node { high: 256, ..LONE }],
    },
    Case {
        name: "a leaf from 256 to 256",
        nodes: &[Node {
            low: 256,
            high: 256,
            ..LONE
        }],
    },
    Case {
        name: "a leaf to 255",
        nodes: &[Node { high: 255, ..LONE }],
    },
    Case {
        name: "a leaf from 0 to 255",
        nodes: &[Node {
            low: 0,
            high: 255,
            ..LONE
        }],
    },
    Case {
        name: "a leaf at the dearest price",
        nodes: &[Node {
            price: 4294967295,
            ..LONE
        }],
    },
    Case {
        name: "5 before 6",
        nodes: &[Node {
            tag: 1,
            ..REPEAT_OF_1
        }],
    },
    Case {
        name: "5 before 7",
        nodes: &[Node {
            kind: 5,
            size: 0,
            ..BLANK
        }],
    },
    Case {
        name: "6 before 7",
        nodes: &[Node {
            size: 9,
            ..REPEAT_OF_1
        }],
    },
    Case {
        name: "7 before 8",
        nodes: &[Node {
            tag: 1,
            size: 2,
            ..LONE
        }],
    },
    Case {
        name: "an early 8 before a later 5",
        nodes: &[Node { tag: 1, ..LONE }, Node { kind: 5, ..BLANK }],
    },
    Case {
        name: "an early 7 before a later 5",
        nodes: &[Node { size: 2, ..LONE }, Node { kind: 5, ..BLANK }],
    },
    Case {
        name: "an early 6 before a later 5",
        nodes: &[REPEAT_OF_1, Node { kind: 5, ..BLANK }],
    },
    Case {
        name: "a last 8 before the length",
        nodes: &[BLANK, BLANK, Node { tag: 1, ..LONE }],
    },
];

const OF_TOUCHES: [Case; 16] = [
    Case {
        name: "an empty node",
        nodes: &[BLANK],
    },
    Case {
        name: "a leaf",
        nodes: &[LONE],
    },
    Case {
        name: "then",
        nodes: &[LONE, LONE, THEN_OF_2],
    },
    Case {
        name: "a pad leaf to 256",
        nodes: &[Node { high: 256, ..LONE }],
    },
    Case {
        name: "a button leaf",
        nodes: &[Node { tag: 1, ..LONE }],
    },
    Case {
        name: "a start leaf",
        nodes: &[Node { tag: 2, ..LONE }],
    },
    Case {
        name: "a leaf of any source",
        nodes: &[Node { tag: 3, ..LONE }],
    },
    Case {
        name: "a leaf to 999999",
        nodes: &[Node {
            tag: 3,
            low: 0,
            high: 999999,
            ..LONE
        }],
    },
    Case {
        name: "a leaf from 999999 to 999999",
        nodes: &[Node {
            low: 999999,
            high: 999999,
            ..LONE
        }],
    },
    Case {
        name: "a leaf with tag 4",
        nodes: &[Node { tag: 4, ..LONE }],
    },
    Case {
        name: "a leaf to 1000000",
        nodes: &[Node {
            high: 1000000,
            ..LONE
        }],
    },
    Case {
        name: "a leaf from b to a",
        nodes: &[Node { low: 98, ..LONE }],
    },
    Case {
        name: "tag 3 in an empty node",
        nodes: &[Node { tag: 3, ..BLANK }],
    },
    Case {
        name: "7 before 8",
        nodes: &[Node {
            tag: 4,
            size: 0,
            ..LONE
        }],
    },
    Case {
        name: "no node",
        nodes: &[],
    },
    Case {
        name: "repeat first",
        nodes: &[REPEAT_OF_1],
    },
];

pub fn run(rt: &HostRuntime, heap: Global) -> io::Result<()> {
    judge_all::<u8>(rt, "bytes", &OF_BYTES)?;
    judge_all::<Touch>(rt, "touches", &OF_TOUCHES)?;
    for count in MANY {
        let nodes = vec![in heap; BLANK; count]?;
        let outcome = judged::<u8>(nodes.as_slice());
        println!(rt; "bytes, {count} empty nodes -> {outcome}")?;
    }
    refused_twice(rt)
}

// What the judge answers on each case.
fn judge_all<S: Symbol>(rt: &HostRuntime, kind: &str, cases: &[Case]) -> io::Result<()> {
    for case in cases {
        let name = case.name;
        let outcome = judged::<S>(case.nodes);
        println!(rt; "{kind}, {name} -> {outcome}")?;
    }
    Ok(())
}

// What the judge answers on a new table.
fn judged<S: Symbol>(nodes: &[Node]) -> Outcome {
    outcome::<S>(&mut Table::new(), nodes)
}

fn outcome<S: Symbol>(table: &mut Table, nodes: &[Node]) -> Outcome {
    let judged = table.judge::<S>(nodes);
    Outcome::from(judged.map(|()| table.nodes().len()))
}

// A table that holds a list keeps it, and its kind, through refusals; an accepted list takes its place.
fn refused_twice(rt: &HostRuntime) -> io::Result<()> {
    let mut table = Table::new();
    show(rt, "a new table", &table)?;
    let first = outcome::<Touch>(&mut table, &[LONE, LONE, THEN_OF_2]);
    println!(rt; "touches, then -> {first}")?;
    show(rt, "the table then", &table)?;
    let second = outcome::<u8>(&mut table, &[LONE, LONE]);
    println!(rt; "bytes, two leaves -> {second}")?;
    show(rt, "the table then", &table)?;
    let third = outcome::<u8>(&mut table, &[]);
    println!(rt; "bytes, no node -> {third}")?;
    show(rt, "the table then", &table)?;
    let fourth = outcome::<u8>(&mut table, &[LONE, REPEAT_OF_1]);
    println!(rt; "bytes, repeat -> {fourth}")?;
    show(rt, "the table then", &table)
}

fn show(rt: &HostRuntime, when: &str, table: &Table) -> io::Result<()> {
    let kind = table.kind();
    let held = Outcome(Ok(table.nodes().len()));
    println!(rt; "{when} -> kind {kind}, {held}")
}
