// Least prices: the sum is the smaller price, the product the prices added, up to the greatest value.
ghost use Rattle.scale.specs.PriceLaws.{price_laws, price_tells};
ghost use Rattle.scale.specs.Prices.{price_ops};

use crate::price::weight::Price;
use crate::scale::Scale;

impl Scale for Price {
    ghost ops = { price_ops };

    ghost laws = { price_laws };

    ghost tells = { price_tells };

    fn zero() -> Price {
        Price { value: u64::MAX }
    }

    fn unit() -> Price {
        Price { value: 0 }
    }

    fn add(self, other: Price) -> Price {
        Price {
            value: self.value.min(other.value),
        }
    }

    fn mul(self, other: Price) -> Price {
        Price {
            value: self.value.saturating_add(other.value),
        }
    }

    fn of_price(price: u32) -> Price {
        Price {
            value: u64::from(price),
        }
    }

    fn is_zero(self) -> bool {
        self.value == u64::MAX
    }
}
