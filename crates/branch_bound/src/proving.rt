// What is proved of a box.
ghost use Rattle.std.specs.Prelude.{◌≡◌, ◌^◌, ◌<◌, ◌≤◌, length, pos, ◌≤ℤ◌, unsigned_abs, IfOk, IfSome, IfNone};
ghost use Rattle.std.specs.Int.{int_max};
ghost use Rattle.std.specs.List.{All};
ghost use Rattle.algebra.specs.Scale.{IsScale, greatest_scale};
ghost use Rattle.programs.specs.Programs.{Program, row_count};
ghost use Rattle.safe_bounds.specs.Values.{value_of, IsMultiplier, AreMultipliers, HasRightSigns};
ghost use Rattle.safe_bounds.specs.Narrowing.{AreNarrow, IsNarrowed};
ghost use Rattle.branch_bound.specs.inside.Proving.{IsProvedOn, IsNumberPastLimit, IsGreatestOf};

use crate::work::Proved;
use algebra::GREATEST_SCALE;
use cert_tree::written;
use programs::Milp;
use safe_bounds::{Scratch, leaf_value, narrow};
use std::alloc::{AllocError, Global};

/// A scale and multipliers within the limit.
#[derive(Drop)]
pub struct Narrow {
    pub scale: i128,
    pub mults: Vec<i128>,
}

/// What a scale and multipliers, one for each row, prove of a program once they are narrowed.
#[tactic(auto, using(crate::proofs::ProvingLemmas::proved_on, crate::proofs::ProvingLemmas::narrow_are_multipliers, crate::proofs::ProvingLemmas::few_narrow))]
pub(crate) fn prove(
    alloc: Global,
    milp: &Milp,
    scale: i128,
    mults: Vec<i128>,
) -> Result<Proved, AllocError>
    requires scale { pos 1 ≤ℤ scale }
    requires rows { length mults.items ≡ row_count milp.now }
    requires within { All (λ y. unsigned_abs y < 2 ^ 127) mults.items }
    requires signs { HasRightSigns milp.now mults.items }
    ensures { IfOk result (λ proved. IsProvedOn milp.now scale mults.items proved) }
{
    let narrow = narrowed(scale, mults);
    let value = value_on(alloc, milp, narrow.scale, narrow.mults.as_slice())?;
    let pairs = written(alloc, narrow.mults.as_slice())?;
    Ok(Proved {
        value,
        scale: narrow.scale,
        mults: pairs,
    })
}

/// Scale and multipliers, narrowed.
pub(crate) fn narrowed(scale: i128, mults: Vec<i128>) -> Narrow
    requires scale { pos 1 ≤ℤ scale }
    requires within { All (λ y. unsigned_abs y < 2 ^ 127) mults.items }
    ensures narrowed { IsNarrowed scale mults.items result.scale result.mults.items }
    ensures unchanged { AreNarrow scale mults.items → (result.scale ≡ scale) × (result.mults.items ≡ mults.items) }
    ensures scale { IsScale result.scale }
    ensures mults { All IsMultiplier result.mults.items }
    ensures count { length result.mults.items ≡ length mults.items }
    ensures signs { (program : Program) → HasRightSigns program mults.items → HasRightSigns program result.mults.items }
{
    let mut scale = scale;
    let mut mults = mults;
    narrow(mults.as_mut_slice(), &mut scale);
    Narrow { scale, mults }
}

/// The value of a scale and multipliers on a program.
pub(crate) fn value_on(
    alloc: Global,
    milp: &Milp,
    scale: i128,
    mults: &[i128],
) -> Result<i128, AllocError>
    requires scale_from { pos 0 ≤ℤ scale }
    requires scale_to { scale ≤ℤ pos greatest_scale }
    requires mults { AreMultipliers milp.now mults.now }
    ensures value { IfOk result (λ value. value ≡ value_of milp.now scale mults.now) }
    ensures width { IfOk result (λ value. unsigned_abs value ≤ 2 ^ 86) }
    ensures few { row_count milp.now ≤ 600 }
{
    let mut scratch = Scratch::new(alloc, milp.columns())?;
    Ok(leaf_value(milp, scale, mults, &mut scratch))
}

/// A number past the limit: the scale, or the magnitude of a multiplier. `None` where there is none.
#[tactic(auto, using(crate::proofs::WholeLemmas::none_past, crate::proofs::WholeLemmas::scale_past, crate::proofs::WholeLemmas::mult_past))]
pub(crate) fn past_limit(scale: i128, mults: &[i128]) -> Option<i128>
    requires scale { pos 1 ≤ℤ scale }
    requires within { All (λ y. unsigned_abs y < 2 ^ 127) mults.now }
    ensures narrow { IfNone result (AreNarrow scale mults.now) }
    ensures past { IfSome result (λ number. IsNumberPastLimit scale mults.now number) }
{
    if scale > GREATEST_SCALE {
        return Some(scale);
    }
    let greatest = greatest_magnitude(mults);
    if greatest > GREATEST_SCALE {
        return Some(greatest);
    }
    None
}

/// The greatest magnitude of the numbers, 0 of none.
pub(crate) fn greatest_magnitude(numbers: &[i128]) -> i128
    requires within { All (λ y. unsigned_abs y < 2 ^ 127) numbers.now }
    ensures { IsGreatestOf numbers.now (length numbers.now) result }
{
    let mut greatest = 0;
    for before in 0..numbers.len() {
        greatest = raised(greatest, numbers[before]);
    }
    greatest
}

/// A magnitude, or that of a number where it is greater.
fn raised(greatest: i128, y: i128) -> i128
    requires { unsigned_abs y < 2 ^ 127 }
    ensures { result ≡ int_max greatest (pos (unsigned_abs y)) }
{
    greater(greatest, magnitude(y))
}

fn greater(a: i128, b: i128) -> i128
    ensures { result ≡ int_max a b }
{
    if a < b { b } else { a }
}

/// The magnitude of a number.
fn magnitude(y: i128) -> i128
    requires { unsigned_abs y < 2 ^ 127 }
    ensures { result ≡ pos (unsigned_abs y) }
{
    if y < 0 { -y } else { y }
}
