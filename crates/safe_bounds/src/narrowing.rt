// Scale and multipliers made narrow.
ghost use Rattle.std.specs.Prelude.{◌≡◌, ◌↔◌, IsTrue, ℕ, ◌/◌, ◌^◌, ◌<◌, ◌≤◌, map, ℤ, pos, ◌≤ℤ◌, unsigned_abs};
ghost use Rattle.std.specs.List.{All};
ghost use Rattle.algebra.specs.Scale.{IsScale, greatest_scale};
ghost use Rattle.programs.specs.Programs.{Program};
ghost use Rattle.safe_bounds.specs.Values.{HasRightSigns, IsMultiplier};
ghost use Rattle.safe_bounds.specs.Narrowing.{AreNarrow, AreNearer, IsLeastShift, IsNarrowed, shifted};
ghost use Rattle.safe_bounds.specs.inside.Magnitudes.{greatest_magnitude};

use algebra::GREATEST_SCALE;

/// Shifts scale and multipliers right together by the least number of bits that brings all their magnitudes to at most
/// 2^40, and keeps the signs; a scale that falls to 0 gives scale 1 with all multipliers 0. False where nothing changes.
/// The scale is asked to be at least 1, and no multiplier to be the least `i128`. It takes no memory.
pub fn narrow(mults: &mut [i128], scale: &mut i128) -> bool
    requires scale { pos 1 ≤ℤ scale.old }
    requires mults { All (λ y. unsigned_abs y < 2 ^ 127) mults.old }
    ensures narrowed { IsNarrowed scale.old mults.old scale.new mults.new }
    ensures changed { IsTrue result ↔ (AreNarrow scale.old mults.old → ⊥) }
    ensures unchanged { AreNarrow scale.old mults.old → (scale.new ≡ scale.old) × (mults.new ≡ mults.old) }
    ensures scale { IsScale scale.new }
    ensures mults { All IsMultiplier mults.new }
    ensures nearer { AreNearer mults.old mults.new }
    ensures signs { (program : Program) → HasRightSigns program mults.old → HasRightSigns program mults.new }
{
    shift_to_limit(mults, scale)
}

/// Does what `narrow` says.
fn shift_to_limit(mults: &mut [i128], scale: &mut i128) -> bool
    requires scale { pos 1 ≤ℤ scale.old }
    requires mults { All (λ y. unsigned_abs y < 2 ^ 127) mults.old }
    ensures narrowed { IsNarrowed scale.old mults.old scale.new mults.new }
    ensures changed { IsTrue result ↔ (AreNarrow scale.old mults.old → ⊥) }
{
    let bits = least_shift(mults, *scale);
    if bits == 0 {
        return false;
    }
    let narrowed = shift(*scale, bits);
    if narrowed == 0 {
        *scale = 1;
        mults.fill(0);
    } else {
        *scale = narrowed;
        shift_all(mults, bits);
    }
    true
}

/// The least number of bits that brings scale and multipliers within the limit.
fn least_shift(mults: &[i128], scale: i128) -> u32
    ensures least { IsLeastShift result scale mults.now }
    ensures few { result ≤ 88 }
{
    bits_above(scale.unsigned_abs().max(greatest_of(mults)))
}

/// The greatest magnitude, and 0 where there is none.
fn greatest_of(mults: &[i128]) -> u128
    ensures { result ≡ greatest_magnitude mults.now }
{
    let mut greatest = 0;
    for mult in mults {
        greatest = mult.unsigned_abs().max(greatest);
    }
    greatest
}

/// The least number of bits by which a magnitude is shifted to at most 2^40.
fn bits_above(magnitude: u128) -> u32
    ensures enough { magnitude / 2 ^ result ≤ greatest_scale }
    ensures least { (fewer : ℕ) → fewer < result → greatest_scale < magnitude / 2 ^ fewer }
    ensures few { result ≤ 88 }
{
    for bits in 0..88 {
        if magnitude >> bits <= GREATEST_SCALE as u128 {
            return bits;
        }
    }
    88
}

/// Shifts every number.
fn shift_all(mults: &mut [i128], bits: u32)
    requires bits { bits ≤ 88 }
    requires mults { All (λ y. unsigned_abs y < 2 ^ 127) mults.old }
    ensures { mults.new ≡ map (shifted bits) mults.old }
{
    for place in 0..mults.len() {
        mults[place] = shift(mults[place], bits);
    }
}

/// The number with its magnitude shifted right, and its sign kept.
fn shift(number: i128, bits: u32) -> i128
    requires bits { bits ≤ 88 }
    requires number { unsigned_abs number < 2 ^ 127 }
    ensures { result ≡ shifted bits number }
{
    let magnitude = (number.unsigned_abs() >> bits) as i128;
    if number < 0 { -magnitude } else { magnitude }
}
