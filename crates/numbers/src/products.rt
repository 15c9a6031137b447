// Products of numbers of 64 bits in 128 bits.
ghost use Rattle.std.specs.Prelude.{◌≡◌, ◌↔◌, ◌-ℤ◌, ◌*ℤ◌, ◌^◌, ◌<◌, IsTrue, unsigned_abs};

/// Whether the magnitude is below 2^63, so that a product of two such numbers is in range.
pub(crate) fn is_word(v: i128) -> bool
    ensures { IsTrue result ↔ (unsigned_abs v < 2 ^ 63) }
{
    -WORD < v && v < WORD
}

/// The product of two numbers of magnitude below 2^63.
#[tactic(auto, using(crate::proofs::WholeLemmas::word_product_fits))]
pub(crate) fn word_product(a: i128, b: i128) -> i128
    requires left { unsigned_abs a < 2 ^ 63 }
    requires right { unsigned_abs b < 2 ^ 63 }
    ensures value { result ≡ a *ℤ b }
    ensures in_range { unsigned_abs result < 2 ^ 126 }
{
    a * b
}

/// The difference `a * b - c * d` of products of numbers of magnitude below 2^63.
pub(crate) fn word_product_difference(a: i128, b: i128, c: i128, d: i128) -> i128
    requires left { (unsigned_abs a < 2 ^ 63) × (unsigned_abs b < 2 ^ 63) }
    requires right { (unsigned_abs c < 2 ^ 63) × (unsigned_abs d < 2 ^ 63) }
    ensures value { result ≡ a *ℤ b -ℤ c *ℤ d }
    ensures products { (unsigned_abs (a *ℤ b) < 2 ^ 126) × (unsigned_abs (c *ℤ d) < 2 ^ 126) }
{
    let left = word_product(a, b);
    let right = word_product(c, d);
    left - right
}

/// 2^63.
const WORD: i128 = 9_223_372_036_854_775_808;
