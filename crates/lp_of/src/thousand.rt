// Another type of whole numbers, of a range that programs of roads soon leave.
ghost use Rattle.std.specs.Prelude.{◌≡◌, ◌≤◌, unsigned_abs, refl};
ghost use Rattle.std.proofs.Common.{arith, rules};

use numbers::{Narrow, W64, Whole};
use std::cmp::Ordering;

/// The whole numbers of magnitude at most 1000.
#[derive(Clone, Copy, Debug)]
pub(crate) struct Thousand {
    value: i16,
    ghost in_range: { unsigned_abs value ≤ 1000 },
}

impl Whole for Thousand {
    ghost meaning = { λ x. x.value };

    ghost greatest = { 1000 };

    fn zero() -> Thousand {
        Thousand { value: 0 }
    }

    fn one() -> Thousand {
        Thousand { value: 1 }
    }

    fn of(v: i64) -> Option<Thousand> {
        if -1000 <= v && v <= 1000 {
            Some(Thousand { value: v as i16 })
        } else {
            None
        }
    }

    fn of_wide(v: i128) -> Option<Thousand> {
        if -1000 <= v && v <= 1000 {
            Some(Thousand { value: v as i16 })
        } else {
            None
        }
    }

    fn narrow(self) -> Option<i128> {
        Some(self.value as i128)
    }

    fn size(self) -> u128 {
        self.value.unsigned_abs() as u128
    }

    fn times(self, other: Thousand) -> Option<Thousand> {
        Thousand::of_wide(self.wide() * other.wide())
    }

    fn plus(self, other: Thousand) -> Option<Thousand> {
        Thousand::of_wide(self.wide() + other.wide())
    }

    fn minus(self, other: Thousand) -> Option<Thousand> {
        Thousand::of_wide(self.wide() - other.wide())
    }

    fn product_difference(
        self,
        factor: Thousand,
        other: Thousand,
        by: Thousand,
    ) -> Option<Thousand> {
        let difference = word(self).product_difference(word(factor), word(other), word(by))?;
        Thousand::of_wide(difference.wide())
    }

    fn negated(self) -> Thousand {
        Thousand { value: -self.value }
    }

    fn sign(self) -> Ordering {
        self.value.cmp(&0)
    }

    fn exact_part(self, divisor: Thousand) -> Thousand {
        Thousand {
            value: self.value / divisor.value,
        }
    }

    fn gcd(self, other: Thousand) -> Thousand {
        let divisor = word(self).gcd(word(other)).wide();
        Thousand {
            value: divisor as i16,
        }
    }

    fn order(self, other: Thousand) -> Ordering {
        self.value.cmp(&other.value)
    }

    ghost in_range = { λ x. Prim.search rules };

    ghost holds_all = { λ z h. (record { value = z; in_range = Prim.omega arith }, refl) };

    ghost at_least_one = { Prim.search rules };
}

impl Narrow for Thousand {
    fn wide(self) -> i128 {
        self.value as i128
    }

    ghost below_wide = { Prim.search rules };
}

/// The same number in 64 bits.
fn word(x: Thousand) -> W64
    ensures { result.value ≡ x.value }
{
    match W64::of(x.value as i64) {
        Some(word) => word,
        None => unreachable!(),
    }
}
