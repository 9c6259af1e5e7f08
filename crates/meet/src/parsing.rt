// A result line taken apart.
ghost use Rattle.std.specs.Prelude.{◌≡◌, true, Some, None, MatchOption};
ghost use Rattle.std.specs.Char.{is_ascii_digit};
ghost use Rattle.meet.specs.Parts.{lane_of, number, parted, text_of};

// A line's lane and text, where it begins with two digits and a blank.
pub fn lane_and_text(line: &[u8]) -> Option<(u8, &[u8])>
    ensures { MatchOption result (parted line.now ≡ None) (λ x. parted line.now ≡ Some (x.0, x.1.now)) }
{
    match line {
        [tens, units, b' ', text @ ..] if tens.is_ascii_digit() && units.is_ascii_digit() => {
            Some((two_digits(*tens, *units), text))
        }
        _ => None,
    }
}

// The number that two digits write.
fn two_digits(tens: u8, units: u8) -> u8
    requires tens { is_ascii_digit tens ≡ true }
    requires units { is_ascii_digit units ≡ true }
    ensures { result ≡ number tens units }
{
    10 * (tens - b'0') + (units - b'0')
}

// The same, but a line without a lane is at lane 0, which no sheet has.
pub(crate) fn laned(line: &[u8]) -> (u8, &[u8])
    ensures lane { result.0 ≡ lane_of line.now }
    ensures text { result.1.now ≡ text_of line.now }
{
    lane_and_text(line).unwrap_or((0, line))
}
