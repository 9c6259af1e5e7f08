// The rows of a file of result lines.
ghost use Rattle.std.specs.Prelude.{◌≡◌, ℕ, [], IfOk, string_bytes};
ghost use Rattle.lines.specs.Lines.{lines};
ghost use Rattle.meet.specs.Meet.{filled_with, line_row, rows};
ghost use Rattle.meet.specs.Parts.{lane_of};
ghost use Rattle.meet.specs.Settled.{answer_row};
ghost use Rattle.sheet.specs.Calls.{filled};
ghost use Rattle.sheet.specs.Lanes.{NoneOf};
ghost use Rattle.table.specs.Content.{tree};

use crate::desk::Desk;
use crate::parsing::laned;
use crate::tables::Tables;
use crate::writing::{fault_row, row};
use lines::Lines;
use sheet::SheetFault;
use std::alloc::{AllocError, Global};

// The rows of all lines, entered by the line pattern on one sheet, which is closed and printed at the end.
pub(crate) fn rows_by(heap: Global, tables: &Tables, results: &[u8]) -> Result<Vec<u8>, AllocError>
    ensures { IfOk result (λ v. v.items ≡ rows (tree tables.now.line) [] (lines results.now)) }
{
    let mut desk = Desk::open(&tables.line);
    let rows = desk.rows(heap, results);
    desk.close();
    rows
}

impl<'t> Desk<'t> {
    // The rows of all lines, on a sheet on which no lane is filled.
    fn rows(&mut self, heap: Global, results: &[u8]) -> Result<Vec<u8>, AllocError>
        requires { NoneOf (filled self.old.sheet) }
        ensures { IfOk result (λ v. v.items ≡ rows (tree self.old.table.now) [] (lines results.now)) }
    {
        let mut out = Vec::new(heap);
        for (number, line) in Lines::new(results).enumerate() {
            let row = self.row(heap, number + 1, line)?;
            out.extend_from_slice(row.as_bytes())?;
        }
        Ok(out)
    }

    // Enters the line of that number, and answers its row.
    fn row(&mut self, heap: Global, number: usize, line: &[u8]) -> Result<String, AllocError>
        ensures row { IfOk result (λ s. string_bytes s ≡ line_row (tree self.old.table.now) number (filled self.old.sheet (lane_of line.now)) line.now) }
        ensures lanes { (k : ℕ) → filled self.new.sheet k ≡ filled_with (tree self.old.table.now) line.now (filled self.old.sheet) k }
        ensures table { self.new.table.now ≡ self.old.table.now }
    {
        let (lane, text) = laned(line);
        let answer = self.settle(lane, text);
        answer_row(heap, number, lane, answer)
    }
}

// The row of a line's number of readings, or of its refusal.
fn answer_row(
    heap: Global,
    number: usize,
    lane: u8,
    answer: Result<u32, SheetFault>,
) -> Result<String, AllocError>
    ensures { IfOk result (λ s. string_bytes s ≡ answer_row number lane answer) }
{
    match answer {
        Ok(count) => row(heap, lane, count),
        Err(fault) => fault_row(heap, number, fault.refusal()),
    }
}
