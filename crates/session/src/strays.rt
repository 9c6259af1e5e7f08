// Two ways that do not work, with the numbers that show it.
ghost use Rattle.session.specs.Strays.{NewMarkStrays, RangesStray};

// Start and end of a reading, with leftmost then longest as the sum, are no scale: where (3,4) × ((1,2) + (2,5)) ends,
// and where (3,4) × (1,2) + (3,4) × (2,5) does.
pub fn ends_of_ranges() -> [u32; 2]
    ensures { RangesStray result }
{
    [2, 5]
}

// The ways in which aa ends after one a: by the readings, by the left's mark from before the symbol, and by the left's
// new mark, which reads the symbol twice.
pub fn new_mark_counts() -> [u32; 3]
    ensures { NewMarkStrays result }
{
    [0, 0, 1]
}
