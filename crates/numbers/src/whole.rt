ghost use Rattle.std.specs.Prelude.{◌≡◌, ◌≢◌, ◌↔◌, ℕ, ◌^◌, ◌≤◌, ◌<◌, ℤ, pos, neg_ℤ, ◌+ℤ◌, ◌-ℤ◌, ◌*ℤ◌, IsSome, IfSome, unsigned_abs};
ghost use Rattle.std.specs.Ordering.{int_cmp};
ghost use Rattle.numbers.specs.Divisors.{Divides, IsGreatestCommonDivisor};
ghost use Rattle.numbers.specs.Products.{HasDifference};

use std::cmp::Ordering;

/// A type that holds exactly the whole numbers up to one greatest magnitude, its range.
/// Each call gives the exact value, or `None` exactly where that value is out of range; none takes memory.
pub trait Whole: Copy {
    // the whole number that a value stands for
    ghost meaning: { Self → ℤ };

    // the greatest magnitude of the type
    ghost greatest: { ℕ };

    /// The number 0.
    fn zero() -> Self
        ensures { meaning result ≡ pos 0 };

    /// The number 1.
    fn one() -> Self
        ensures { meaning result ≡ pos 1 };

    /// The number `v`.
    fn of(v: i64) -> Option<Self>
        ensures some { IsSome result ↔ (unsigned_abs v ≤ greatest) }
        ensures value { IfSome result (λ x. meaning x ≡ v) };

    /// The number `v`, from 128 bits.
    fn of_wide(v: i128) -> Option<Self>
        ensures some { IsSome result ↔ (unsigned_abs v ≤ greatest) }
        ensures value { IfSome result (λ x. meaning x ≡ v) };

    /// The number in 128 bits; `None` exactly where its magnitude is above 2^127 - 1.
    fn narrow(self) -> Option<i128>
        ensures some { IsSome result ↔ (unsigned_abs (meaning self) < 2 ^ 127) }
        ensures value { IfSome result (λ v. v ≡ meaning self) };

    /// About the magnitude, for guesses: nothing is claimed of it.
    fn size(self) -> u128;

    /// The product.
    fn times(self, other: Self) -> Option<Self>
        ensures some { IsSome result ↔ (unsigned_abs (meaning self *ℤ meaning other) ≤ greatest) }
        ensures value { IfSome result (λ x. meaning x ≡ meaning self *ℤ meaning other) };

    /// The sum.
    fn plus(self, other: Self) -> Option<Self>
        ensures some { IsSome result ↔ (unsigned_abs (meaning self +ℤ meaning other) ≤ greatest) }
        ensures value { IfSome result (λ x. meaning x ≡ meaning self +ℤ meaning other) };

    /// The difference.
    fn minus(self, other: Self) -> Option<Self>
        ensures some { IsSome result ↔ (unsigned_abs (meaning self -ℤ meaning other) ≤ greatest) }
        ensures value { IfSome result (λ x. meaning x ≡ meaning self -ℤ meaning other) };

    /// The difference of two products, `self * factor - other * by`; also `None` where a product is of
    /// a magnitude above both the greatest and 2^127 - 1, which none of two numbers of magnitude up to 2^63 is.
    fn product_difference(self, factor: Self, other: Self, by: Self) -> Option<Self>
        ensures some { IsSome result
            ↔ HasDifference (meaning self) (meaning factor) (meaning other) (meaning by) greatest }
        ensures value { IfSome result
            (λ x. meaning x ≡ meaning self *ℤ meaning factor -ℤ meaning other *ℤ meaning by) };

    /// The number of the other sign and the same magnitude.
    fn negated(self) -> Self
        ensures { meaning result ≡ neg_ℤ (meaning self) };

    /// The sign: the order of the number to 0.
    fn sign(self) -> Ordering
        ensures { result ≡ int_cmp (meaning self) (pos 0) };

    /// The quotient by a divisor that isn't 0 and divides.
    fn exact_part(self, divisor: Self) -> Self
        requires nonzero { meaning divisor ≢ pos 0 }
        requires divides { Divides (meaning divisor) (meaning self) }
        ensures { meaning result *ℤ meaning divisor ≡ meaning self };

    /// The greatest common divisor, never negative; it is 0 of 0 and 0.
    fn gcd(self, other: Self) -> Self
        ensures { IsGreatestCommonDivisor (meaning self) (meaning other) (meaning result) };

    /// The order of the numbers.
    fn order(self, other: Self) -> Ordering
        ensures { result ≡ int_cmp (meaning self) (meaning other) };

    // a value stands for no number past the range
    ghost in_range: { (x : Self) → unsigned_abs (meaning x) ≤ greatest };

    // no number of the range is missing
    ghost holds_all: { (z : ℤ) → unsigned_abs z ≤ greatest → (x : Self) × (meaning x ≡ z) };

    // -1, 0 and 1 are numbers of every type
    ghost at_least_one: { 1 ≤ greatest };
}

/// A type of whole numbers all of which have 128 bits at most.
pub trait Narrow: Whole {
    /// The number in 128 bits.
    fn wide(self) -> i128
        ensures { result ≡ Self.meaning self };

    // every number, and its magnitude, fits 128 bits
    ghost below_wide: { Self.greatest < 2 ^ 127 };
}
