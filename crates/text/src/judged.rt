// A pattern text as a checked table.
ghost use Rattle.std.specs.Prelude.{Err, MatchResult};
ghost use Rattle.text.specs.Reads.{Answers};
ghost use Rattle.text.specs.Tables.{Tabled};

use crate::fault::TextFault;
use crate::reader::read;
use table::{BLANK, MOST_NODES, Table};

// Reads a pattern text and judges its nodes. The judge refuses none that the reader accepted.
pub fn table_of(text: &[u8]) -> Result<Table, TextFault>
    ensures { MatchResult result (λ t. Tabled text.now t) (λ f. Answers text.now 512 (Err f)) }
{
    let mut nodes = [BLANK; MOST_NODES];
    let count = read(text, &mut nodes)?;
    let mut table = Table::new();
    table.judge::<u8>(&nodes[..count]).unwrap();
    Ok(table)
}
