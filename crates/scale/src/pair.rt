// The scale pair: two scales side by side.
ghost use Rattle.scale.specs.PairLaws.{pair_laws, pair_tells};
ghost use Rattle.scale.specs.Pairs.{pair_ops};

use crate::scale::Scale;

// A weight in each of two scales.
#[derive(Clone, Copy, PartialEq, Eq, Debug)]
pub struct Pair<A, B> {
    pub first: A,
    pub second: B,
}

impl<A: Scale, B: Scale> Scale for Pair<A, B> {
    ghost ops = { pair_ops A.Scale.ops B.Scale.ops };

    ghost laws = { pair_laws A.Scale.laws B.Scale.laws };

    ghost tells = { pair_tells A.Scale.tells B.Scale.tells };

    fn zero() -> Pair<A, B> {
        Pair {
            first: A::zero(),
            second: B::zero(),
        }
    }

    fn unit() -> Pair<A, B> {
        Pair {
            first: A::unit(),
            second: B::unit(),
        }
    }

    fn add(self, other: Pair<A, B>) -> Pair<A, B> {
        Pair {
            first: self.first.add(other.first),
            second: self.second.add(other.second),
        }
    }

    fn mul(self, other: Pair<A, B>) -> Pair<A, B> {
        Pair {
            first: self.first.mul(other.first),
            second: self.second.mul(other.second),
        }
    }

    fn of_price(price: u32) -> Pair<A, B> {
        Pair {
            first: A::of_price(price),
            second: B::of_price(price),
        }
    }

    fn is_zero(self) -> bool {
        self.first.is_zero() & self.second.is_zero()
    }
}
