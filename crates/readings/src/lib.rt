// Readings: what the weights of a pattern say about its readings of a word, for every kind of symbol. Each contract is a
// theorem, and the answer is the number or weight that stands in it.
#![tactic(auto)]

ghost use Rattle.readings.specs.Examples.{CountedExamples, worked};
ghost use Rattle.readings.specs.Theorems.{CountNumbersReadings, Listed, PairWeighsEach, PriceLeastOfReadings, YesTellsReading};
ghost use Rattle.std.specs.Prelude.{◌≡◌};

use scale::{Pair, Scale};
use table::Symbol;

// The weight at yes that a word has exactly when there is a reading.
pub fn yes_of_some_reading<S: Symbol>() -> bool
    ensures { YesTellsReading S.Symbol.passing result }
{
    true
}

// The cap up to which the weight at count is the number of readings, and 1 exactly when there is one and no other. The
// list whose length is that number has each reading, no other, and none twice.
pub fn cap_of_counts<S: Symbol>() -> u32
    ensures listed { Listed S.Symbol.passing }
    ensures number { CountNumbersReadings S.Symbol.passing result }
{
    4_294_967_295
}

// The length of word up to which the weight at least price is the least price of any reading, for leaf prices of 32 bits.
pub fn longest_priced_word<S: Symbol>() -> usize
    ensures { PriceLeastOfReadings S.Symbol.passing result }
{
    65_535
}

// What a word weighs at a pair of scales, from what it weighs at each.
pub fn weight_at_both<A: Scale, B: Scale, S: Symbol>(first: A, second: B) -> Pair<A, B>
    ensures { PairWeighsEach A.Scale.ops B.Scale.ops S.Symbol.passing first second result }
{
    Pair { first, second }
}

// How many readings six small patterns have: ()* and ()|() over no byte, a|a* over a, (a|a*)(b|b*) over ab,
// (a|())* over a, and (a*)* over aa.
pub fn worked_counts() -> [u32; 6]
    ensures counts { result ≡ worked }
    ensures examples { CountedExamples }
{
    [1, 2, 2, 4, 1, 2]
}
