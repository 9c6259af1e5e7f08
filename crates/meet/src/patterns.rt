// A meet's two patterns.
ghost use Rattle.std.specs.Prelude.{◌≡◌};
ghost use Rattle.meet.specs.Whole.{TablesBy, pattern_text};

use crate::tables::Tables;
use text::{TextFault, table_of};

// The tables of the line pattern and the club pattern, the file's first two lines. The line pattern is judged first.
pub(crate) fn tables_of(patterns: &[u8]) -> Result<Tables, TextFault>
    ensures { TablesBy (pattern_text patterns.now 0) (pattern_text patterns.now 1) result }
{
    let line = table_of(pattern_text(patterns, 0))?;
    let club = table_of(pattern_text(patterns, 1))?;
    Ok(Tables { line, club })
}

// The pattern of that line. A line that is not there counts as empty.
fn pattern_text(patterns: &[u8], n: usize) -> &[u8]
    ensures { result.now ≡ pattern_text patterns.now n }
{
    lines::nth_line(patterns, n).unwrap_or(&[])
}
