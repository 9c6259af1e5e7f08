// The scale yes: false where there is no reading, true where there is one.
ghost use Rattle.scale.specs.Yes.{yes_ops};
ghost use Rattle.scale.specs.YesLaws.{yes_laws, yes_tells};

use crate::scale::Scale;

impl Scale for bool {
    ghost ops = { yes_ops };

    ghost laws = { yes_laws };

    ghost tells = { yes_tells };

    fn zero() -> bool {
        false
    }

    fn unit() -> bool {
        true
    }

    fn add(self, other: bool) -> bool {
        self | other
    }

    fn mul(self, other: bool) -> bool {
        self & other
    }

    fn of_price(price: u32) -> bool {
        true
    }

    fn is_zero(self) -> bool {
        !self
    }
}
