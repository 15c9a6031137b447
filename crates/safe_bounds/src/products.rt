// Products of a multiplier or a scale.
ghost use Rattle.std.specs.Prelude.{◌≡◌, ◌^◌, ◌≤◌, ◌*ℤ◌, unsigned_abs};
ghost use Rattle.safe_bounds.specs.Values.{IsMultiplier};

use algebra::times;

/// The product of a multiplier or a scale and a number of 64 bits.
pub(crate) fn times_word(mult: i128, word: i64) -> i128
    requires { IsMultiplier mult }
    ensures value { result ≡ mult *ℤ word }
    ensures small { unsigned_abs result ≤ 2 ^ 103 }
{
    times(mult, i128::from(word))
}
