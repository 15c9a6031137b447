ghost use Rattle.std.specs.Prelude.{◌≡◌, ◌*◌, ℕ, ◌^◌, ◌≤◌, ◌<◌, max, IfSome, IsNone};
ghost use Rattle.std.specs.Int.{IsGcd, ◌∣◌};
ghost use Rattle.numbers.specs.inside.LowestTerms.{IsLeastCommonMultiple};

/// The greatest common divisor of two numbers below 2^64.
pub(crate) fn gcd_word(a: u64, b: u64) -> u64
    ensures greatest { IsGcd a b result }
    ensures within { result ≤ max a b }
{
    if a == 0 {
        return b;
    }
    if a == 1 {
        return 1;
    }
    let mut x = a;
    let mut y = b;
    while y > 1 {
        let rest = x % y;
        x = y;
        y = rest;
    }
    if y == 0 { x } else { 1 }
}

/// The greatest common divisor, 0 of 0 and 0; as soon as both numbers are below 2^64 it divides 64-bit numbers.
pub fn magnitude_gcd(a: u128, b: u128) -> u128
    ensures greatest { IsGcd a b result }
    ensures within { result ≤ max a b }
{
    if a <= GREATEST_WORD && b <= GREATEST_WORD {
        return gcd_word(a as u64, b as u64) as u128;
    }
    if a == 0 {
        return b;
    }
    if a == 1 {
        return 1;
    }
    let mut x = a;
    let mut y = b;
    while y > GREATEST_WORD {
        let rest = x % y;
        x = y;
        y = rest;
    }
    if y == 0 {
        return x;
    }
    if y == 1 {
        return 1;
    }
    let divisor = gcd_word(y as u64, (x % y) as u64);
    divisor as u128
}

/// Both numbers divided by their greatest common divisor.
pub(crate) fn lowest_terms(a: u128, b: u128) -> (u128, u128)
    requires { 0 < b }
    ensures same { result.0 * b ≡ a * result.1 }
    ensures lowest { IsGcd result.0 result.1 1 }
    ensures positive { 0 < result.1 }
{
    let divisor = magnitude_gcd(a, b);
    (a / divisor, b / divisor)
}

/// The least common multiple; `None` exactly where it exceeds `most`.
pub(crate) fn multiple_within(a: u128, b: u128, most: u128) -> Option<u128>
    requires positive { 0 < a }
    requires low { a ≤ most }
    requires other { 0 < b }
    requires narrow { most < 2 ^ 64 }
    ensures value { IfSome result (λ m. IsLeastCommonMultiple a b m) }
    ensures within { IfSome result (λ m. m ≤ most) }
    ensures exceeds { IsNone result → (m : ℕ) → 0 < m → a ∣ m → b ∣ m → most < m }
{
    let factor = lowest_terms(a, b).1;
    if factor > most {
        return None;
    }
    let multiple = product(a, factor);
    if multiple <= most {
        Some(multiple)
    } else {
        None
    }
}

/// The product of two numbers below 2^64.
fn product(a: u128, b: u128) -> u128
    requires left { a < 2 ^ 64 }
    requires right { b < 2 ^ 64 }
    ensures { result ≡ a * b }
{
    a * b
}

/// The greatest number below 2^64.
const GREATEST_WORD: u128 = u64::MAX as u128;
