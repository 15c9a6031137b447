// The height and the grade of one quadratic, over a denominator.
ghost use Rattle.std.specs.Prelude.{◌≡◌, ◌^◌, ◌≤◌, ◌+ℤ◌, ◌*ℤ◌, unsigned_abs};
ghost use Rattle.road_types.specs.Heights.{height_along, grade_along};

use algebra::{plus, times};

/// The height of `a + b*s + c*s^2` at s steps from a segment's start.
pub fn height_along(a: i128, b: i128, c: i128, s: i64) -> i128
    requires a { unsigned_abs a ≤ 2 ^ 64 }
    requires b { unsigned_abs b ≤ 2 ^ 60 }
    requires c { unsigned_abs c ≤ 2 ^ 60 }
    requires s { unsigned_abs s ≤ 2 ^ 17 }
    ensures value { result ≡ height_along a b c s }
    ensures width { unsigned_abs result ≤ 2 ^ 96 }
{
    plus(line_along(a, b, s), bend_along(c, s))
}

/// The grade of `a + b*s + c*s^2` at s steps from a segment's start.
pub fn grade_along(b: i128, c: i128, s: i64) -> i128
    requires b { unsigned_abs b ≤ 2 ^ 60 }
    requires c { unsigned_abs c ≤ 2 ^ 60 }
    requires s { unsigned_abs s ≤ 2 ^ 17 }
    ensures { result ≡ grade_along b c s }
{
    plus(b, times(times(2, c), i128::from(s)))
}

/// The part of a height that is linear.
fn line_along(a: i128, b: i128, s: i64) -> i128
    requires a { unsigned_abs a ≤ 2 ^ 64 }
    requires b { unsigned_abs b ≤ 2 ^ 60 }
    requires s { unsigned_abs s ≤ 2 ^ 17 }
    ensures value { result ≡ a +ℤ b *ℤ s }
    ensures width { unsigned_abs result ≤ 2 ^ 78 }
{
    plus(a, times(b, i128::from(s)))
}

/// The part of a height that the curve adds.
fn bend_along(c: i128, s: i64) -> i128
    requires c { unsigned_abs c ≤ 2 ^ 60 }
    requires s { unsigned_abs s ≤ 2 ^ 17 }
    ensures value { result ≡ c *ℤ (s *ℤ s) }
    ensures width { unsigned_abs result ≤ 2 ^ 94 }
{
    times(c, square(s))
}

fn square(s: i64) -> i128
    requires { unsigned_abs s ≤ 2 ^ 17 }
    ensures value { result ≡ s *ℤ s }
    ensures width { unsigned_abs result ≤ 2 ^ 34 }
{
    times(i128::from(s), i128::from(s))
}
