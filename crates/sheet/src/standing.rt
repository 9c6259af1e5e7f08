// Where a lane stands on a sheet.

// A lane without a readable line is unfilled. A line with one reading is clean; one with more is owed a ruling, and then
// taken or struck.
#[derive(Clone, Copy, PartialEq, Eq, Debug)]
pub enum Standing {
    Unfilled,
    Clean,
    Owed,
    Taken,
    Struck,
}
