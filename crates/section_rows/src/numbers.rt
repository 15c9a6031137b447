// Arithmetic on numbers that are known to be small.
ghost use Rattle.std.specs.Prelude.{◌≡◌, ◌≤◌, ◌^◌, ℤ, pos, neg_ℤ, ◌*ℤ◌, unsigned_abs};

/// The square of a number of steps.
pub(crate) fn square(s: i64) -> i64
    requires { unsigned_abs s ≤ 2 ^ 17 }
    ensures value { result ≡ s *ℤ s }
    ensures small { unsigned_abs result ≤ 2 ^ 34 }
{
    s * s
}

/// Twice a number of steps.
pub(crate) fn double(s: i64) -> i64
    requires { unsigned_abs s ≤ 2 ^ 17 }
    ensures value { result ≡ pos 2 *ℤ s }
    ensures small { unsigned_abs result ≤ 2 ^ 34 }
{
    2 * s
}

/// The opposite number.
pub(crate) fn opposite(x: i64) -> i64
    requires { unsigned_abs x ≤ 2 ^ 60 }
    ensures value { result ≡ neg_ℤ x }
    ensures small { unsigned_abs result ≤ 2 ^ 60 }
{
    -x
}
