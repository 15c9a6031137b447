ghost use Rattle.std.specs.Prelude.{◌^◌, ◌-◌, ◌<◌, unsigned_abs, refl};
ghost use Rattle.std.proofs.Common.{arith, rules};

use crate::divisors::gcd_word;
use crate::products::word_product_difference;
use crate::whole::{Narrow, Whole};
use std::cmp::Ordering;

/// The whole numbers of magnitude at most 2^63 - 1.
#[derive(Clone, Copy, Debug)]
pub struct W64 {
    value: i64,
    ghost in_range: { unsigned_abs value < 2 ^ 63 },
}

impl Whole for W64 {
    ghost meaning = { λ x. x.value };

    ghost greatest = { 2 ^ 63 - 1 };

    fn zero() -> W64 {
        W64 { value: 0 }
    }

    fn one() -> W64 {
        W64 { value: 1 }
    }

    fn of(v: i64) -> Option<W64> {
        if v == i64::MIN {
            None
        } else {
            Some(W64 { value: v })
        }
    }

    fn of_wide(v: i128) -> Option<W64> {
        if -GREATEST <= v && v <= GREATEST {
            Some(W64 { value: v as i64 })
        } else {
            None
        }
    }

    fn narrow(self) -> Option<i128> {
        Some(self.value as i128)
    }

    fn size(self) -> u128 {
        self.value.unsigned_abs() as u128
    }

    fn times(self, other: W64) -> Option<W64> {
        W64::of_wide(self.wide() * other.wide())
    }

    fn plus(self, other: W64) -> Option<W64> {
        W64::of_wide(self.wide() + other.wide())
    }

    fn minus(self, other: W64) -> Option<W64> {
        W64::of_wide(self.wide() - other.wide())
    }

    fn product_difference(self, factor: W64, other: W64, by: W64) -> Option<W64> {
        W64::of_wide(word_product_difference(self.wide(), factor.wide(), other.wide(), by.wide()))
    }

    fn negated(self) -> W64 {
        W64 { value: -self.value }
    }

    fn sign(self) -> Ordering {
        self.value.cmp(&0)
    }

    fn exact_part(self, divisor: W64) -> W64 {
        W64 {
            value: self.value / divisor.value,
        }
    }

    fn gcd(self, other: W64) -> W64 {
        let divisor = gcd_word(self.value.unsigned_abs(), other.value.unsigned_abs());
        W64 {
            value: divisor as i64,
        }
    }

    fn order(self, other: W64) -> Ordering {
        self.value.cmp(&other.value)
    }

    ghost in_range = { λ x. Prim.search rules };

    ghost holds_all = { λ z h. (record { value = z; in_range = Prim.omega arith }, refl) };

    ghost at_least_one = { Prim.search rules };
}

impl Narrow for W64 {
    fn wide(self) -> i128 {
        self.value as i128
    }

    ghost below_wide = { Prim.search rules };
}

/// The greatest magnitude.
const GREATEST: i128 = i64::MAX as i128;
