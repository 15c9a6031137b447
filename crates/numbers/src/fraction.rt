ghost use Rattle.std.specs.Prelude.{◌≡◌, ◌↔◌, ◌≢◌, ◌<◌, ◌^◌, ℤ, pos, ◌≤ℤ◌, ◌<ℤ◌, IsTrue, IsSome, IsNone, IfSome, IfOk, string_bytes, unsigned_abs};
ghost use Rattle.algebra.specs.Scale.{greatest_scale};
ghost use Rattle.numbers.specs.Fractions.{IsLeastCommonDenominator};
ghost use Rattle.numbers.specs.inside.LowestTerms.{AreLowest, HasSign};

use crate::divisors::{lowest_terms, multiple_within};
use algebra::GREATEST_SCALE;
use std::alloc::{AllocError, Global};
use std::marker::Model;

/// A fraction in lowest terms: its denominator is at least 1, and both numbers have a magnitude of at most 2^127 - 1.
#[derive(Clone, Copy, Debug, PartialEq, Eq)]
pub struct Frac {
    num: i128,
    den: i128,
}

impl Model for Frac {
    ghost use Rattle.numbers.specs.Fractions.{Fraction, IsReduced};

    ghost Value = { Fraction };

    ghost view = { λ f. record { num = f.num; den = f.den } };

    ghost invariant = { λ f. IsReduced (record { num = f.num; den = f.den }) };

    ghost inverse = { λ v. record { num = v.num; den = v.den } };
}

impl Frac {
    ghost use Rattle.numbers.specs.Fractions.{Fraction, IsReduced, HasValue, HasFraction, fraction_text};

    /// The value `num/den`; `None` exactly where `den` is 0 or a number of the lowest terms has a magnitude above 2^127 - 1.
    pub fn new(num: i128, den: i128) -> Option<Frac>
        ensures some { IsSome result ↔ HasFraction num den }
        ensures in_range { den ≢ pos 0 → unsigned_abs num < 2 ^ 127 → unsigned_abs den < 2 ^ 127 → IsSome result }
        ensures value { IfSome result (λ f. HasValue f num den) }
        ensures reduced { IfSome result IsReduced }
        ensures one { IfSome result
            (λ f. (other : Fraction) → IsReduced other → HasValue other num den → other ≡ f) }
    {
        if den == 0 {
            return None;
        }
        let (size, bottom) = lowest_magnitudes(num, den);
        if size > GREATEST || bottom > GREATEST {
            return None;
        }
        Some(Frac {
            num: signed(size, num, den),
            den: bottom as i128,
        })
    }

    /// The numerator of the lowest terms.
    pub fn num(&self) -> i128
        ensures { result ≡ self.now.num }
    {
        self.num
    }

    /// The denominator of the lowest terms, which is at least 1.
    pub fn den(&self) -> i128
        ensures value { result ≡ self.now.den }
        ensures reduced { IsReduced self.now }
    {
        self.den
    }

    /// The text `NUM/DEN` in canonical decimals.
    pub fn text(&self, alloc: Global) -> Result<String, AllocError>
        ensures { IfOk result (λ t. string_bytes t ≡ fraction_text self.now) }
    {
        let (num, den) = (self.num, self.den);
        format!(in alloc; "{num}/{den}")
    }

    /// Whether the two fractions are the same, which is whether their values are, since both are in lowest terms.
    pub fn is_same(&self, other: &Frac) -> bool
        ensures same { IsTrue result ↔ (self.now ≡ other.now) }
        ensures reduced { IsReduced self.now }
    {
        self.num == other.num && self.den == other.den
    }
}

/// The least common multiple of the denominators, 1 of none; `None` exactly where it exceeds 2^40, `GREATEST_SCALE`.
pub fn common_den(parts: &[Frac]) -> Option<i128>
    ensures value { IfSome result (λ m. IsLeastCommonDenominator parts.now m) }
    ensures within { IfSome result (λ m. m ≤ℤ pos greatest_scale) }
    ensures exceeds { IsNone result
        → (m : ℤ) → IsLeastCommonDenominator parts.now m → pos greatest_scale <ℤ m }
{
    let mut common = 1;
    for part in parts {
        let Some(next) = multiple_within(common, size_of_den(part), MOST) else {
            return None;
        };
        common = next;
    }
    Some(common as i128)
}

/// The denominator without a sign.
fn size_of_den(part: &Frac) -> u128
    ensures value { pos result ≡ part.now.den }
    ensures positive { 0 < result }
{
    part.den() as u128
}

/// `GREATEST_SCALE` without a sign.
const MOST: u128 = GREATEST_SCALE as u128;

/// The magnitudes of the lowest terms of `num/den`.
fn lowest_magnitudes(num: i128, den: i128) -> (u128, u128)
    requires { den ≢ pos 0 }
    ensures { AreLowest result.0 result.1 num den }
{
    lowest_terms(num.unsigned_abs(), den.unsigned_abs())
}

/// The magnitude `size` with the sign of `num/den`.
fn signed(size: u128, num: i128, den: i128) -> i128
    requires { size < 2 ^ 127 }
    ensures { HasSign result size num den }
{
    let size = size as i128;
    if (num < 0) == (den < 0) { size } else { -size }
}

/// The greatest magnitude of a number of a fraction.
const GREATEST: u128 = i128::MAX as u128;
