// The bytes of a row.
ghost use Rattle.std.specs.Prelude.{◌≡◌, [], ◌∷◌, IfOk, Some, string_bytes};
ghost use Rattle.meet.specs.Rows.{fault_row, letter, row};

use std::alloc::{AllocError, Global};
use std::fmt;
use table::Refusal;

// A line that was entered: its lane, and how many readings it has.
#[derive(Clone, Copy)]
struct EnteredRow {
    lane: u8,
    count: u32,
}

// Lane, letter and number of readings.
impl fmt::Display for EnteredRow {
    ghost output = { λ r. Some (row r.lane r.count) };

    fn fmt<W: fmt::Write>(&self, f: &mut fmt::Formatter<W>) -> fmt::Result {
        let (lane, letter, count) = (self.lane, letter(self.count), self.count);
        writeln!(f, "{lane:02} {letter} {count}")
    }
}

// A line or pattern that is refused.
#[derive(Clone, Copy)]
struct RefusedRow {
    line: usize,
    refusal: Refusal,
}

// The line's number, and the refusal's number, place and layer.
impl fmt::Display for RefusedRow {
    ghost output = { λ r. Some (fault_row r.line r.refusal) };

    fn fmt<W: fmt::Write>(&self, f: &mut fmt::Formatter<W>) -> fmt::Result {
        let (line, refusal) = (self.line, self.refusal);
        writeln!(f, "fault {line} {refusal}")
    }
}

// How a line of that many readings is ruled on: C clean, S struck, U unreadable.
fn letter(count: u32) -> &'static str
    ensures { result.now ≡ letter count ∷ [] }
{
    match count {
        0 => "U",
        1 => "C",
        _ => "S",
    }
}

// The row of a line that was entered: lane, letter and number of readings.
pub fn row(heap: Global, lane: u8, count: u32) -> Result<String, AllocError>
    ensures { IfOk result (λ s. string_bytes s ≡ row lane count) }
{
    EnteredRow { lane, count }.to_string(heap)
}

// The row of a refusal. The line's number is 0 for a pattern, and counts from 1 for a result line.
pub fn fault_row(heap: Global, line: usize, refusal: Refusal) -> Result<String, AllocError>
    ensures { IfOk result (λ s. string_bytes s ≡ fault_row line refusal) }
{
    RefusedRow { line, refusal }.to_string(heap)
}
