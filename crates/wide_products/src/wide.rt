// Whole numbers of magnitude below 2^256.
ghost use Rattle.std.specs.Prelude.{◌≡◌, ◌≢◌, ◌↔◌, ◌^◌, ◌<◌, pos, neg_ℤ, ◌+ℤ◌, ◌-ℤ◌, ◌*ℤ◌, IsSome, IfSome, IsTrue, unsigned_abs};
ghost use Rattle.std.specs.Ordering.{int_cmp};
ghost use Rattle.numbers.specs.Divisors.{Divides, IsGreatestCommonDivisor};
ghost use Rattle.wide_products.specs.Naturals.{natural_of, whole_of};

use crate::dividing::quotient;
use crate::euclid::gcd;
use crate::magnitude::{Magnitude, half_product, low_half, product, sum};
use crate::signs::{is_below, signed_difference};
use std::cmp::Ordering;

/// A whole number of magnitude below 2^256, such as the product of two numbers of 128 bits.
#[derive(Clone, Copy, Debug)]
pub struct Wide {
    pub(crate) negative: bool,
    pub(crate) magnitude: Magnitude,
}

impl Wide {
    /// The number `v`.
    pub fn of(v: i128) -> Wide
        ensures { whole_of result ≡ v }
    {
        Wide {
            negative: v < 0,
            magnitude: low_half(v.unsigned_abs()),
        }
    }

    /// The product of two numbers of 128 bits.
    pub fn product(a: i128, b: i128) -> Wide
        ensures { whole_of result ≡ a *ℤ b }
    {
        Wide {
            negative: (a < 0) != (b < 0),
            magnitude: half_product(a.unsigned_abs(), b.unsigned_abs()),
        }
    }

    /// The number in 128 bits; `None` exactly where its magnitude is above 2^127 - 1.
    pub fn narrow(self) -> Option<i128>
        ensures some { IsSome result ↔ (unsigned_abs (whole_of self) < 2 ^ 127) }
        ensures value { IfSome result (λ v. v ≡ whole_of self) }
    {
        if self.magnitude.high > 0 || self.magnitude.low > GREATEST {
            return None;
        }
        let size = self.magnitude.low as i128;
        Some(if self.negative { -size } else { size })
    }

    /// Whether its magnitude is below 2^255.
    pub fn has_255_bits(self) -> bool
        ensures { IsTrue result ↔ (unsigned_abs (whole_of self) < 2 ^ 255) }
    {
        self.magnitude.high <= GREATEST
    }

    /// About the magnitude: the greatest number of 128 bits where it has more. Nothing is claimed of it.
    pub fn size(self) -> u128 {
        if self.magnitude.high == 0 {
            self.magnitude.low
        } else {
            u128::MAX
        }
    }

    /// The product; `None` exactly where its magnitude is 2^256 or more.
    pub fn times(self, other: Wide) -> Option<Wide>
        ensures some { IsSome result ↔ (unsigned_abs (whole_of self *ℤ whole_of other) < 2 ^ 256) }
        ensures value { IfSome result (λ w. whole_of w ≡ whole_of self *ℤ whole_of other) }
    {
        match product(self.magnitude, other.magnitude) {
            Some(magnitude) => Some(Wide {
                negative: self.negative != other.negative,
                magnitude,
            }),
            None => None,
        }
    }

    /// The sum; `None` exactly where its magnitude is 2^256 or more.
    pub fn plus(self, other: Wide) -> Option<Wide>
        ensures some { IsSome result ↔ (unsigned_abs (whole_of self +ℤ whole_of other) < 2 ^ 256) }
        ensures value { IfSome result (λ w. whole_of w ≡ whole_of self +ℤ whole_of other) }
    {
        if self.negative != other.negative {
            return Some(signed_difference(self.negative, self.magnitude, other.magnitude));
        }
        match sum(self.magnitude, other.magnitude) {
            Some(magnitude) => Some(Wide {
                negative: self.negative,
                magnitude,
            }),
            None => None,
        }
    }

    /// The difference; `None` exactly where its magnitude is 2^256 or more.
    pub fn minus(self, other: Wide) -> Option<Wide>
        ensures some { IsSome result ↔ (unsigned_abs (whole_of self -ℤ whole_of other) < 2 ^ 256) }
        ensures value { IfSome result (λ w. whole_of w ≡ whole_of self -ℤ whole_of other) }
    {
        self.plus(other.negated())
    }

    /// The number of the other sign and the same magnitude.
    pub fn negated(self) -> Wide
        ensures { whole_of result ≡ neg_ℤ (whole_of self) }
    {
        Wide {
            negative: !self.negative,
            magnitude: self.magnitude,
        }
    }

    /// The order of the numbers.
    pub fn order(self, other: Wide) -> Ordering
        ensures { result ≡ int_cmp (whole_of self) (whole_of other) }
    {
        if is_below(self, other) {
            Ordering::Less
        } else if is_below(other, self) {
            Ordering::Greater
        } else {
            Ordering::Equal
        }
    }

    /// The greatest common divisor, never negative; it is 0 of 0 and 0.
    pub fn gcd(self, other: Wide) -> Wide
        ensures { IsGreatestCommonDivisor (whole_of self) (whole_of other) (whole_of result) }
    {
        Wide {
            negative: false,
            magnitude: gcd(self.magnitude, other.magnitude),
        }
    }

    /// The quotient by a divisor that isn't 0 and divides.
    pub fn exact_part(self, divisor: Wide) -> Wide
        requires nonzero { whole_of divisor ≢ pos 0 }
        requires divides { Divides (whole_of divisor) (whole_of self) }
        ensures { whole_of result *ℤ whole_of divisor ≡ whole_of self }
    {
        Wide {
            negative: self.negative != divisor.negative,
            magnitude: quotient(self.magnitude, divisor.magnitude),
        }
    }
}

/// 2^127 - 1.
const GREATEST: u128 = i128::MAX as u128;
