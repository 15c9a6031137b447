// Natural numbers below 2^256: sums, differences, products and order.
ghost use Rattle.std.specs.Prelude.{◌≡◌, ◌↔◌, ◌+◌, ◌*◌, ◌^◌, ◌<◌, ◌≤◌, IsSome, IfSome, IsTrue};
ghost use Rattle.wide_products.specs.Naturals.{natural_of};

/// A natural number below 2^256, in two halves of 128 bits.
#[derive(Clone, Copy, Debug)]
pub struct Magnitude {
    pub(crate) high: u128,
    pub(crate) low: u128,
}

/// The number of one half.
pub(crate) fn low_half(low: u128) -> Magnitude
    ensures { natural_of result ≡ low }
{
    Magnitude { high: 0, low }
}

/// The product of two numbers of 128 bits.
pub(crate) fn half_product(a: u128, b: u128) -> Magnitude
    ensures { natural_of result ≡ a * b }
{
    let (low, high) = a.carrying_mul(b, 0);
    Magnitude { high, low }
}

/// The sum; `None` exactly where it is out of range.
pub(crate) fn sum(a: Magnitude, b: Magnitude) -> Option<Magnitude>
    ensures some { IsSome result ↔ (natural_of a + natural_of b < 2 ^ 256) }
    ensures value { IfSome result (λ m. natural_of m ≡ natural_of a + natural_of b) }
{
    let (low, carry) = a.low.carrying_add(b.low, false);
    let (high, over) = a.high.carrying_add(b.high, carry);
    if over {
        None
    } else {
        Some(Magnitude { high, low })
    }
}

/// The first number less the second.
pub(crate) fn difference(a: Magnitude, b: Magnitude) -> Magnitude
    requires { natural_of b ≤ natural_of a }
    ensures { natural_of result + natural_of b ≡ natural_of a }
{
    let (low, borrow) = a.low.borrowing_sub(b.low, false);
    let (high, _) = a.high.borrowing_sub(b.high, borrow);
    Magnitude { high, low }
}

/// Whether the first number is below the second.
pub(crate) fn is_less(a: Magnitude, b: Magnitude) -> bool
    ensures { IsTrue result ↔ (natural_of a < natural_of b) }
{
    if a.high == b.high {
        a.low < b.low
    } else {
        a.high < b.high
    }
}

/// The number times one of 128 bits; `None` exactly where the product is out of range.
pub(crate) fn scaled(a: Magnitude, factor: u128) -> Option<Magnitude>
    ensures some { IsSome result ↔ (natural_of a * factor < 2 ^ 256) }
    ensures value { IfSome result (λ m. natural_of m ≡ natural_of a * factor) }
{
    let (low, carry) = a.low.carrying_mul(factor, 0);
    let (high, over) = a.high.carrying_mul(factor, carry);
    if over == 0 {
        Some(Magnitude { high, low })
    } else {
        None
    }
}

/// The product; `None` exactly where it is out of range.
pub(crate) fn product(a: Magnitude, b: Magnitude) -> Option<Magnitude>
    ensures some { IsSome result ↔ (natural_of a * natural_of b < 2 ^ 256) }
    ensures value { IfSome result (λ m. natural_of m ≡ natural_of a * natural_of b) }
{
    if b.high == 0 {
        scaled(a, b.low)
    } else if a.high == 0 {
        scaled(b, a.low)
    } else {
        None
    }
}
