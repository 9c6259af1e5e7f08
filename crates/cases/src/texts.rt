// Cases of the text reader.
use crate::outcome::Outcome;
use std::alloc::{AllocError, Global};
use std::io;
use table::{BLANK, MOST_NODES};

// Texts that are printed as they are.
const SHORT: [&str; 61] = [
    "", "a", "ab", "abc", "a|b", "a|b|c", "ab|cd", "a*", "a**", "ab*", "(ab)*", ".", "...", "a.b",
    ".*", "a|", "|a", "a||b", "|", "*", "*a", "a|*", "(*a)", "a)", ")", "()", "()*", "()a", "a()",
    "(())", "((a))", "(a", "(", "((", "(a|)", "(|a)", "(a|b)", "(a)(b)", "[a-z]", "[a-a]", "[z-a]",
    "[", "[a", "[a-", "[a-b", "[a-b)", "[ab]", "[]-]]", "[\\-a]", "[\\-]]", "[---]", "[(-)]",
    "[a-b]*", "\\", "\\\\", "a\\", "\\(", "\\*", "]", "a]", "\\]*",
];

// Texts that are named in words, since they are too long to print: the parts of each, and how many times each part
// stands there.
const LONG: [(&str, &[(usize, &str)]); 29] = [
    ("256 a's", &[(256, "a")]),
    ("256 a's and *", &[(256, "a"), (1, "*")]),
    ("256 a's and **", &[(256, "a"), (1, "**")]),
    ("257 a's", &[(257, "a")]),
    ("128 times a| and 1 a", &[(128, "a|"), (1, "a")]),
    ("255 times a| and 1 a", &[(255, "a|"), (1, "a")]),
    ("256 times a| and 1 a", &[(256, "a|"), (1, "a")]),
    ("a and 511 *", &[(1, "a"), (511, "*")]),
    ("a and 512 *", &[(1, "a"), (512, "*")]),
    ("4096 a's", &[(4096, "a")]),
    ("4097 a's", &[(4097, "a")]),
    ("4095 a's and |", &[(4095, "a"), (1, "|")]),
    ("4096 a's and |", &[(4096, "a"), (1, "|")]),
    ("2048 times \\a", &[(2048, "\\a")]),
    ("2048 times \\a and 1 a", &[(2048, "\\a"), (1, "a")]),
    ("4097 times )", &[(4097, ")")]),
    ("a in brackets 32 deep", &[(32, "("), (1, "a"), (32, ")")]),
    ("a in brackets 33 deep", &[(33, "("), (1, "a"), (33, ")")]),
    ("() 32 deep", &[(31, "("), (1, "()"), (31, ")")]),
    ("() 33 deep", &[(32, "("), (1, "()"), (32, ")")]),
    ("32 opening brackets", &[(32, "(")]),
    ("33 opening brackets", &[(33, "(")]),
    ("32 opening brackets and *", &[(32, "("), (1, "*")]),
    ("33 opening brackets and *", &[(33, "("), (1, "*")]),
    ("a) and 33 opening brackets", &[(1, "a)"), (33, "(")]),
    ("33 times \\(", &[(33, "\\(")]),
    ("33 times [(-(]", &[(33, "[(-(]")]),
    ("33 times ()", &[(33, "()")]),
    ("33 times (a)", &[(33, "(a)")]),
];

pub fn run(rt: &HostRuntime, heap: Global) -> io::Result<()> {
    for text in SHORT {
        let outcome = outcome(text.as_bytes());
        println!(rt; "{text} -> {outcome}")?;
    }
    for (name, parts) in LONG {
        let text = built(heap, parts)?;
        let outcome = outcome(text.as_bytes());
        println!(rt; "{name} -> {outcome}")?;
    }
    let summary = one_byte_texts(heap)?;
    println!(rt; "texts of one byte -> {summary}")
}

// What the reader answers where as many nodes are lent as a table holds.
fn outcome(text: &[u8]) -> Outcome {
    let mut nodes = [BLANK; MOST_NODES];
    Outcome::from(text::read(text, &mut nodes))
}

// The text of which those are the parts.
fn built(heap: Global, parts: &[(usize, &str)]) -> Result<String, AllocError> {
    let mut text = String::new(heap);
    for (times, part) in parts {
        for _ in 0..*times {
            text.push_str(part)?;
        }
    }
    Ok(text)
}

// How many of the 256 texts of one byte are accepted, and which are refused.
fn one_byte_texts(heap: Global) -> Result<String, AllocError> {
    let mut accepted = 0u32;
    let mut refused = String::new(heap);
    for byte in 0..=u8::MAX {
        match outcome(&[byte]).0 {
            Ok(_) => accepted = accepted.saturating_add(1),
            Err(_) => write!(refused, " {byte}")?,
        }
    }
    format!(in heap; "{accepted} accepted, refused:{refused}")
}
