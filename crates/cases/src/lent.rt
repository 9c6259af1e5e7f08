// What the reader does with the nodes that are lent to it.
use crate::outcome::Outcome;
use std::alloc::{AllocError, Global};
use std::io;
use table::{BLANK, Node, NodeKind};

// A node that the reader never makes, to see which nodes it wrote.
const MARK: Node = Node {
    kind: NodeKind::Leaf as u8,
    tag: 7,
    size: 9,
    low: 1,
    high: 2,
    price: 3,
};

// A text, and how many nodes are lent for it.
const LENT: [(&str, usize); 10] = [
    ("abc", 5),
    ("abc", 4),
    ("abc", 6),
    ("a", 1),
    ("a", 0),
    ("a|", 0),
    ("a|", 3),
    ("a*", 1),
    ("(a", 8),
    ("[a-b]|.", 8),
];

pub fn run(rt: &HostRuntime, heap: Global) -> io::Result<()> {
    for (text, lent) in LENT {
        let answer = answer(heap, text.as_bytes(), lent)?;
        println!(rt; "{text} into {lent} -> {answer}")?;
    }
    // A text that is refused for another reason too is not refused for the lent nodes.
    let many = answer(heap, &[b'a'; 257], 4)?;
    println!(rt; "257 a's into 4 -> {many}")?;
    let long = answer(heap, &[b'a'; 4097], 4)?;
    println!(rt; "4097 a's into 4 -> {long}")
}

// The outcome, and whether the lent nodes are then as they should be: all emptied by a refusal, and those past the
// text's own untouched where it is accepted.
fn answer(heap: Global, text: &[u8], lent: usize) -> Result<String, AllocError> {
    let mut nodes = vec![in heap; MARK; lent]?;
    let outcome = Outcome::from(text::read(text, nodes.as_mut_slice()));
    match outcome.0 {
        Ok(count) => {
            let kept = yes_or_no(all_are(nodes.as_slice(), count, MARK));
            format!(in heap; "{outcome}, the others kept: {kept}")
        }
        Err(_) => {
            let emptied = yes_or_no(all_are(nodes.as_slice(), 0, BLANK));
            format!(in heap; "{outcome}, all emptied: {emptied}")
        }
    }
}

fn all_are(nodes: &[Node], from: usize, wanted: Node) -> bool {
    nodes.iter().skip(from).all(|node| *node == wanted)
}

fn yes_or_no(answer: bool) -> &'static str {
    if answer { "yes" } else { "no" }
}
