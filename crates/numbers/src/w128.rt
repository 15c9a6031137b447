ghost use Rattle.std.specs.Prelude.{◌^◌, ◌-◌, ◌<◌, unsigned_abs, refl};
ghost use Rattle.std.proofs.Common.{arith, rules};

use crate::divisors::magnitude_gcd;
use crate::products::{is_word, word_product};
use crate::whole::{Narrow, Whole};
use std::cmp::Ordering;

/// The whole numbers of magnitude at most 2^127 - 1.
#[derive(Clone, Copy, Debug)]
pub struct W128 {
    value: i128,
    ghost in_range: { unsigned_abs value < 2 ^ 127 },
}

impl Whole for W128 {
    ghost meaning = { λ x. x.value };

    ghost greatest = { 2 ^ 127 - 1 };

    fn zero() -> W128 {
        W128 { value: 0 }
    }

    fn one() -> W128 {
        W128 { value: 1 }
    }

    fn of(v: i64) -> Option<W128> {
        Some(W128 { value: v as i128 })
    }

    fn of_wide(v: i128) -> Option<W128> {
        if v == i128::MIN {
            None
        } else {
            Some(W128 { value: v })
        }
    }

    fn narrow(self) -> Option<i128> {
        Some(self.value)
    }

    fn size(self) -> u128 {
        self.value.unsigned_abs()
    }

    fn times(self, other: W128) -> Option<W128> {
        if is_word(self.value) && is_word(other.value) {
            return Some(W128 {
                value: word_product(self.value, other.value),
            });
        }
        W128::of_wide(self.value.checked_mul(other.value)?)
    }

    fn plus(self, other: W128) -> Option<W128> {
        W128::of_wide(self.value.checked_add(other.value)?)
    }

    fn minus(self, other: W128) -> Option<W128> {
        W128::of_wide(self.value.checked_sub(other.value)?)
    }

    fn product_difference(self, factor: W128, other: W128, by: W128) -> Option<W128> {
        let left = self.times(factor)?;
        let right = other.times(by)?;
        left.minus(right)
    }

    fn negated(self) -> W128 {
        W128 { value: -self.value }
    }

    fn sign(self) -> Ordering {
        self.value.cmp(&0)
    }

    fn exact_part(self, divisor: W128) -> W128 {
        W128 {
            value: self.value / divisor.value,
        }
    }

    fn gcd(self, other: W128) -> W128 {
        let divisor = magnitude_gcd(self.value.unsigned_abs(), other.value.unsigned_abs());
        W128 {
            value: divisor as i128,
        }
    }

    fn order(self, other: W128) -> Ordering {
        self.value.cmp(&other.value)
    }

    ghost in_range = { λ x. Prim.search rules };

    ghost holds_all = { λ z h. (record { value = z; in_range = Prim.omega arith }, refl) };

    ghost at_least_one = { Prim.search rules };
}

impl Narrow for W128 {
    fn wide(self) -> i128 {
        self.value
    }

    ghost below_wide = { Prim.search rules };
}
