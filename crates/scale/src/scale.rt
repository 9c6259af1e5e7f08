// What a scale is: code above this trait is written once for every scale.
ghost use Rattle.std.specs.Prelude.{◌≡◌};
ghost use Rattle.scale.specs.Semiring.{Ops, Semiring, Tells};

// Weights with a sum and a product. The product need not commute.
pub trait Scale: Copy {
    ghost ops: { Ops Self };

    // The eight laws, owed by every implementation for all its weights.
    ghost laws: { Semiring ops };

    ghost tells: { Tells ops };

    // The weight of no reading at all.
    fn zero() -> Self
        ensures { result ≡ ops.nothing };

    // The weight of a reading without a leaf.
    fn unit() -> Self
        ensures { result ≡ ops.one };

    fn add(self, other: Self) -> Self
        ensures { result ≡ ops.plus self other };

    fn mul(self, other: Self) -> Self
        ensures { result ≡ ops.times self other };

    // The weight of a leaf's price.
    fn of_price(price: u32) -> Self
        ensures { result ≡ ops.priced price };

    fn is_zero(self) -> bool
        ensures { result ≡ ops.vanishes self };
}
