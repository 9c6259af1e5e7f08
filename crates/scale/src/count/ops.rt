// Counting: sum and product stop at the greatest count.
ghost use Rattle.scale.specs.CountLaws.{count_laws, count_tells};
ghost use Rattle.scale.specs.Counts.{count_ops};

use crate::count::weight::Count;
use crate::scale::Scale;

impl Scale for Count {
    ghost ops = { count_ops };

    ghost laws = { count_laws };

    ghost tells = { count_tells };

    fn zero() -> Count {
        Count { value: 0 }
    }

    fn unit() -> Count {
        Count { value: 1 }
    }

    fn add(self, other: Count) -> Count {
        Count {
            value: self.value.saturating_add(other.value),
        }
    }

    fn mul(self, other: Count) -> Count {
        Count {
            value: self.value.saturating_mul(other.value),
        }
    }

    fn of_price(price: u32) -> Count {
        Count { value: 1 }
    }

    fn is_zero(self) -> bool {
        self.value == 0
    }
}
