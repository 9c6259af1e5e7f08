// The weights of the scale least price.
ghost use Rattle.std.specs.Prelude.{◌^◌, ◌<◌};

// A least price. The greatest value means that there is no reading.
#[derive(Clone, Copy, PartialEq, Eq, PartialOrd, Ord, Debug)]
pub struct Price {
    pub value: u64,
    ghost fits: { value < 2 ^ 64 },
}
