// Arithmetic on numbers whose results are known to fit.
ghost use Rattle.std.specs.Prelude.{◌↔◌, IsTrue, ◌≡◌, pos, neg_ℤ, ◌+ℤ◌, ◌-ℤ◌, ◌*ℤ◌, ◌≤ℤ◌, FitsSigned};
ghost use Rattle.std.specs.Int.{w128};
ghost use Rattle.algebra.specs.Scale.{IsScale};

/// The greatest denominator of a plan or a bound, and the greatest scale and magnitude of a multiplier.
pub const GREATEST_SCALE: i128 = 1_099_511_627_776;

/// The sum.
pub fn plus(a: i128, b: i128) -> i128
    requires { FitsSigned w128 (a +ℤ b) }
    ensures { result ≡ a +ℤ b }
{
    a + b
}

/// The difference.
pub fn minus(a: i128, b: i128) -> i128
    requires { FitsSigned w128 (a -ℤ b) }
    ensures { result ≡ a -ℤ b }
{
    a - b
}

/// The product.
pub fn times(a: i128, b: i128) -> i128
    requires { FitsSigned w128 (a *ℤ b) }
    ensures { result ≡ a *ℤ b }
{
    a * b
}

/// The opposite of a number that isn't negative.
pub fn opposite(a: i64) -> i64
    requires { pos 0 ≤ℤ a }
    ensures { result ≡ neg_ℤ a }
{
    -a
}

/// Whether two numbers are equal.
pub fn same(a: i128, b: i128) -> bool
    ensures { IsTrue result ↔ (a ≡ b) }
{
    a == b
}

/// Whether one number is at most another.
pub fn at_most(a: i128, b: i128) -> bool
    ensures { IsTrue result ↔ a ≤ℤ b }
{
    a <= b
}

/// A number over a denominator.
pub fn scaled(x: i64, den: i128) -> i128
    requires { IsScale den }
    ensures { result ≡ x *ℤ den }
{
    times(i128::from(x), den)
}
