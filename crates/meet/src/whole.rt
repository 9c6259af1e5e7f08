// All that is written for a meet.
ghost use Rattle.meet.specs.Whole.{Written, pattern_fault};
ghost use Rattle.std.specs.Prelude.{◌≡◌, IfOk, string_bytes};

use crate::listing::rows_by;
use crate::patterns::tables_of;
use crate::writing::fault_row;
use std::alloc::{AllocError, Global};
use text::TextFault;

// The rows of the result lines, or the fault of a pattern. The patterns' file has the line pattern first, then the club
// pattern.
pub fn rows(heap: Global, patterns: &[u8], results: &[u8]) -> Result<Vec<u8>, AllocError>
    ensures { IfOk result (λ v. Written patterns.now results.now v.items) }
{
    match tables_of(patterns) {
        Ok(tables) => rows_by(heap, &tables, results),
        Err(fault) => Ok(pattern_fault(heap, fault)?.into_bytes()),
    }
}

// The row of a pattern that is refused.
fn pattern_fault(heap: Global, fault: TextFault) -> Result<String, AllocError>
    ensures { IfOk result (λ s. string_bytes s ≡ pattern_fault fault) }
{
    fault_row(heap, 0, fault.refusal())
}
