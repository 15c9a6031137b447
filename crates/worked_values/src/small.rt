// Another type of whole numbers, of a range that is soon left.
ghost use Rattle.std.specs.Prelude.{◌≡◌, ◌≤◌, ◌*ℤ◌, unsigned_abs, refl};
ghost use Rattle.std.proofs.Common.{arith, rules};

use numbers::{Narrow, W64, Whole};
use std::cmp::Ordering;

/// The whole numbers of magnitude at most 10.
#[derive(Clone, Copy)]
pub(crate) struct Small {
    value: i8,
    ghost in_range: { unsigned_abs value ≤ 10 },
}

impl Whole for Small {
    ghost meaning = { λ x. x.value };

    ghost greatest = { 10 };

    fn zero() -> Small {
        Small { value: 0 }
    }

    fn one() -> Small {
        Small { value: 1 }
    }

    fn of(v: i64) -> Option<Small> {
        if -10 <= v && v <= 10 {
            Some(Small { value: v as i8 })
        } else {
            None
        }
    }

    fn of_wide(v: i128) -> Option<Small> {
        if -10 <= v && v <= 10 {
            Some(Small { value: v as i8 })
        } else {
            None
        }
    }

    fn narrow(self) -> Option<i128> {
        Some(self.value as i128)
    }

    fn size(self) -> u128 {
        self.value.unsigned_abs() as u128
    }

    fn times(self, other: Small) -> Option<Small> {
        Small::of_wide(product(self, other))
    }

    fn plus(self, other: Small) -> Option<Small> {
        Small::of_wide(self.wide() + other.wide())
    }

    fn minus(self, other: Small) -> Option<Small> {
        Small::of_wide(self.wide() - other.wide())
    }

    fn product_difference(self, factor: Small, other: Small, by: Small) -> Option<Small> {
        Small::of_wide(product(self, factor) - product(other, by))
    }

    fn negated(self) -> Small {
        Small { value: -self.value }
    }

    fn sign(self) -> Ordering {
        self.value.cmp(&0)
    }

    fn exact_part(self, divisor: Small) -> Small {
        Small {
            value: self.value / divisor.value,
        }
    }

    fn gcd(self, other: Small) -> Small {
        let divisor = word(self).gcd(word(other)).wide();
        Small {
            value: divisor as i8,
        }
    }

    fn order(self, other: Small) -> Ordering {
        self.value.cmp(&other.value)
    }

    ghost in_range = { λ x. Prim.search rules };

    ghost holds_all = { λ z h. (record { value = z; in_range = Prim.omega arith }, refl) };

    ghost at_least_one = { Prim.search rules };
}

impl Narrow for Small {
    fn wide(self) -> i128 {
        self.value as i128
    }

    ghost below_wide = { Prim.search rules };
}

/// The product, in 128 bits.
fn product(a: Small, b: Small) -> i128
    ensures value { result ≡ a.value *ℤ b.value }
    ensures width { unsigned_abs result ≤ 100 }
{
    (a.value as i128) * (b.value as i128)
}

/// The same number in 64 bits.
fn word(x: Small) -> W64
    ensures { result.value ≡ x.value }
{
    match W64::of(x.value as i64) {
        Some(word) => word,
        None => unreachable!(),
    }
}
