// The weights of the scale count.
ghost use Rattle.std.specs.Prelude.{◌^◌, ◌<◌};

// A number of readings. It has another width than a price, and so another bound in its laws. The greatest value means that many or more.
#[derive(Clone, Copy, PartialEq, Eq, PartialOrd, Ord, Debug)]
pub struct Count {
    pub value: u32,
    ghost fits: { value < 2 ^ 32 },
}
