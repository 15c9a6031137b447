// Quotients and rests of natural numbers below 2^256. Each quotient begins with a guess of which nothing is claimed, and is
// made right afterwards.
ghost use Rattle.std.specs.Prelude.{◌≡◌, ℕ, ◌+◌, ◌*◌, ◌<◌, ◌≤◌};
ghost use Rattle.wide_products.specs.Naturals.{natural_of};

use crate::magnitude::{Magnitude, difference, half_product, is_less, low_half, scaled};

/// The quotient, which has 128 bits, and the rest.
pub(crate) fn half_quotient(v: Magnitude, divisor: u128) -> (u128, u128)
    requires { v.high < divisor }
    ensures whole { result.0 * divisor + result.1 ≡ natural_of v }
    ensures rest { result.1 < divisor }
{
    if v.high == 0 {
        return (v.low / divisor, v.low % divisor);
    }
    let by = low_half(divisor);
    let mut quotient = guess_of(v, divisor);
    let mut product = half_product(quotient, divisor);
    while is_less(v, product) {
        quotient -= 1;
        product = difference(product, by);
    }
    let mut rest = difference(v, product);
    while !is_less(rest, by) {
        quotient += 1;
        rest = difference(rest, by);
    }
    (quotient, rest.low)
}

/// About the quotient: two digits of 64 bits, of a divisor whose highest bit is set.
fn guess_of(v: Magnitude, divisor: u128) -> u128 {
    let shift = divisor.leading_zeros();
    let divisor = divisor.wrapping_shl(shift);
    let carried = v
        .low
        .wrapping_shr(1)
        .wrapping_shr(127u32.wrapping_sub(shift));
    let high = v.high.wrapping_shl(shift) | carried;
    let low = v.low.wrapping_shl(shift);
    let first = digit_of(high, low >> 64, divisor);
    let rest = high
        .wrapping_shl(64)
        .wrapping_add(low >> 64)
        .wrapping_sub(first.wrapping_mul(divisor));
    let second = digit_of(rest, low & GREATEST_WORD, divisor);
    first.wrapping_shl(64).wrapping_add(second)
}

/// The digit of 64 bits that `rest` and the digit `next` behind it give.
fn digit_of(rest: u128, next: u128, divisor: u128) -> u128 {
    let top = (divisor >> 64).max(1);
    let bottom = divisor & GREATEST_WORD;
    let digit = rest / top;
    let left = rest % top;
    if !is_high(digit, bottom, left, next) {
        return digit;
    }
    let digit = digit.saturating_sub(1);
    let left = left.wrapping_add(top);
    if left <= GREATEST_WORD && is_high(digit, bottom, left, next) {
        digit.saturating_sub(1)
    } else {
        digit
    }
}

/// Whether the digit is too high.
fn is_high(digit: u128, bottom: u128, left: u128, next: u128) -> bool {
    digit > GREATEST_WORD || digit.wrapping_mul(bottom) > left.wrapping_shl(64).wrapping_add(next)
}

/// The rest of a number of any size.
pub(crate) fn remainder(v: Magnitude, divisor: u128) -> u128
    requires { 0 < divisor }
    ensures whole { (k : ℕ) × (natural_of v ≡ k * divisor + result) }
    ensures rest { result < divisor }
{
    let upper = Magnitude {
        high: v.high % divisor,
        low: v.low,
    };
    half_quotient(upper, divisor).1
}

/// The first number less some multiple of the second, most of what it holds of it.
pub(crate) fn reduced(v: Magnitude, divisor: Magnitude) -> (u128, Magnitude)
    requires { natural_of divisor ≤ natural_of v }
    ensures whole { result.0 * natural_of divisor + natural_of result.1 ≡ natural_of v }
    ensures some { 0 < result.0 }
{
    let guess = (v.high / divisor.high.saturating_add(1)).max(1);
    match scaled(divisor, guess) {
        Some(product) if !is_less(v, product) => (guess, difference(v, product)),
        _ => (1, difference(v, divisor)),
    }
}

/// The quotient by a divisor of any size.
pub(crate) fn quotient(v: Magnitude, divisor: Magnitude) -> Magnitude
    requires { 0 < natural_of divisor }
    ensures whole { (rest : ℕ) × ((natural_of result * natural_of divisor + rest ≡ natural_of v) × (rest < natural_of divisor)) }
{
    if divisor.high == 0 {
        long_quotient(v, divisor.low)
    } else {
        low_half(short_quotient(v, divisor))
    }
}

/// The quotient by a divisor of one half.
fn long_quotient(v: Magnitude, divisor: u128) -> Magnitude
    requires { 0 < divisor }
    ensures whole { (rest : ℕ) × ((natural_of result * divisor + rest ≡ natural_of v) × (rest < divisor)) }
{
    let upper = Magnitude {
        high: v.high % divisor,
        low: v.low,
    };
    Magnitude {
        high: v.high / divisor,
        low: half_quotient(upper, divisor).0,
    }
}

/// The quotient by a divisor of both halves.
fn short_quotient(v: Magnitude, divisor: Magnitude) -> u128
    requires { 0 < divisor.high }
    ensures whole { (rest : ℕ) × ((result * natural_of divisor + rest ≡ natural_of v) × (rest < natural_of divisor)) }
{
    let mut quotient = 0;
    let mut rest = v;
    while !is_less(rest, divisor) {
        let (times, left) = reduced(rest, divisor);
        quotient += times;
        rest = left;
    }
    quotient
}

/// The greatest digit of 64 bits.
const GREATEST_WORD: u128 = u64::MAX as u128;
