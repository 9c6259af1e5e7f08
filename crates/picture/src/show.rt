// Bytes and nodes in a person's words, all of it plain ASCII.
ghost use Rattle.std.specs.Prelude.{◌≡◌, ◌<◌, map, Some};
ghost use Rattle.picture.specs.Words.{printable, shown_byte, symbol, leaf_words, node_words};

use std::{fmt, str};
use table::{Leaf, Node, NodeKind};

// How many bytes of a text are written at a time. A write for each byte took sixteen times as many instructions of a
// report on 16,384 bytes.
const RUN: usize = 64;

// Whether a byte is printable ASCII, the blank among it.
fn is_printable(byte: u32) -> bool
    ensures { result ≡ printable byte }
{
    (32..=126).contains(&byte)
}

// The byte that stands for a byte of a text: itself where it is printable, else `?`.
fn glyph(byte: u8) -> u8
    ensures value { result ≡ shown_byte byte }
    ensures ascii { result < 128 }
{
    if is_printable(u32::from(byte)) {
        byte
    } else {
        b'?'
    }
}

// Turns each byte of a text into the one that stands for it.
fn to_glyphs(bytes: &mut [u8])
    ensures { bytes.new ≡ map shown_byte bytes.old }
{
    for byte in bytes.iter_mut() {
        *byte = glyph(*byte);
    }
}

// A text as it is shown, a character for each byte, so that a mark below it stands under its place.
#[derive(Clone, Copy)]
pub struct Shown<'a>(pub &'a [u8]);

impl fmt::Display for Shown<'_> {
    ghost output = { λ t. Some (map shown_byte t.0.now) };

    fn fmt<W: fmt::Write>(&self, f: &mut fmt::Formatter<W>) -> fmt::Result {
        let bytes = self.0;
        let mut room = [0u8; RUN];
        for run in bytes.chunks(RUN) {
            let glyphs = &mut room[..run.len()];
            glyphs.copy_from_slice(run);
            to_glyphs(glyphs);
            // Glyphs are ASCII.
            f.write_str(str::from_utf8(glyphs).unwrap())?;
        }
        Ok(())
    }
}

// A byte that a leaf names: in quotes where it is printable, else its number.
#[derive(Clone, Copy)]
struct Symbol(u32);

impl fmt::Display for Symbol {
    ghost output = { λ s. Some (symbol s.0) };

    fn fmt<W: fmt::Write>(&self, f: &mut fmt::Formatter<W>) -> fmt::Result {
        let byte = self.0;
        if is_printable(byte) {
            // A printable byte fits in 8 bits.
            let c = char::from(byte as u8);
            write!(f, "'{c}'")
        } else {
            write!(f, "{byte}")
        }
    }
}

// The bytes that pass a leaf, from the first to the last.
#[derive(Clone, Copy)]
struct Span(Leaf);

impl fmt::Display for Span {
    ghost output = { λ s. Some (leaf_words s.0.low s.0.high) };

    fn fmt<W: fmt::Write>(&self, f: &mut fmt::Formatter<W>) -> fmt::Result {
        let Leaf { low, high, .. } = self.0;
        let first = Symbol(low);
        let last = Symbol(high);
        if low == 0 && high == 255 {
            f.write_str("any byte")
        } else if low != high {
            write!(f, "a byte from {first} to {last}")
        } else if is_printable(low) {
            write!(f, "the byte {first}")
        } else {
            write!(f, "byte {first}")
        }
    }
}

// What a node asks of a line, without its operands.
#[derive(Clone, Copy)]
pub struct Words<'a>(pub &'a Node);

impl fmt::Display for Words<'_> {
    ghost output = { λ w. Some (node_words w.0.now) };

    fn fmt<W: fmt::Write>(&self, f: &mut fmt::Formatter<W>) -> fmt::Result {
        let node = self.0;
        match NodeKind::try_from(node.kind) {
            Ok(NodeKind::Empty) => f.write_str("nothing"),
            Ok(NodeKind::Leaf) => Span(Leaf::from(*node)).fmt(f),
            Ok(NodeKind::Either) => f.write_str("one of these two"),
            Ok(NodeKind::Then) => f.write_str("these two in turn"),
            Ok(NodeKind::Repeat) => f.write_str("any number of"),
            // A list's node may be of an unknown kind, though a checked table has none.
            Err(_) => f.write_str("an unknown node"),
        }
    }
}
