// What is refused in a leaf.
ghost use Rattle.std.specs.Prelude.{◌≡◌, ◌≤◌, ◌^◌, ◌*ℤ◌, int_lt, Some, IfOk, unsigned_abs};
ghost use Rattle.algebra.specs.Scale.{IsScale};
ghost use Rattle.algebra.specs.Numbered.{IsNumber};
ghost use Rattle.programs.specs.Programs.{row_count};
ghost use Rattle.cert_tree.specs.Trees.{AreMultipliersBehind};
ghost use Rattle.cert_text.specs.CertText.{IsStated, IsStatedOrNone};
ghost use Rattle.cert_checker.specs.Refusals.{is_at_least, has_wrong_sign, sign_refusal, bound_refusal, value_refusal, low_refusal, dead_refusal};

use crate::refusal::{CertRule, Refusal};
use algebra::times;
use cert_tree::told_value;
use numbers::Frac;
use programs::Milp;
use std::alloc::{AllocError, Global};
use term_store::Side;

/// What is refused in a low leaf on this line, by the program of its box.
#[tactic(auto, unfolding(crate::specs::Refusals::low_refusal))]
pub(crate) fn low_refusal(
    alloc: Global,
    milp: &Milp,
    bound: &Option<Frac>,
    line: usize,
    scale: i128,
    mults: &[(u32, i128)],
) -> Result<Option<Refusal>, AllocError>
    requires bound { IsStatedOrNone bound.now }
    requires line { line ≤ 2 ^ 63 }
    requires scale { IsScale scale }
    requires mults { AreMultipliersBehind (row_count milp.now) 0 mults.now }
    ensures { IfOk result (λ found. found ≡ low_refusal milp.now bound.now line scale mults.now) }
{
    if let Some(refusal) = sign_refusal(milp, line, mults) {
        return Ok(Some(refusal));
    }
    let value = told_value(alloc, milp, scale, mults)?;
    Ok(bound_refusal(bound, line, value, scale))
}

/// What is refused in a dead leaf on this line, by the program of its box.
#[tactic(auto, unfolding(crate::specs::Refusals::dead_refusal))]
pub(crate) fn dead_refusal(
    alloc: Global,
    milp: &Milp,
    line: usize,
    mults: &[(u32, i128)],
) -> Result<Option<Refusal>, AllocError>
    requires line { line ≤ 2 ^ 63 }
    requires mults { AreMultipliersBehind (row_count milp.now) 0 mults.now }
    ensures { IfOk result (λ found. found ≡ dead_refusal milp.now line mults.now) }
{
    if let Some(refusal) = sign_refusal(milp, line, mults) {
        return Ok(Some(refusal));
    }
    let value = told_value(alloc, milp, 0, mults)?;
    Ok(value_refusal(line, value))
}

/// A dead value that isn't above 0.
fn value_refusal(line: usize, value: i128) -> Option<Refusal>
    ensures { result ≡ value_refusal line value }
{
    if is_below(0, value) {
        None
    } else {
        Some(Refusal {
            rule: CertRule::C8,
            line,
        })
    }
}

/// The first multiplier below 0 on a row that asks for at least its right side; these stand on the lines behind this one.
fn sign_refusal(milp: &Milp, line: usize, mults: &[(u32, i128)]) -> Option<Refusal>
    requires line { line ≤ 2 ^ 63 }
    requires mults { AreMultipliersBehind (row_count milp.now) 0 mults.now }
    ensures { result ≡ sign_refusal milp.now line mults.now }
{
    for place in 0..mults.len() {
        if has_wrong_sign(milp, mults[place]) {
            return Some(Refusal {
                rule: CertRule::C6,
                line: line + place + 1,
            });
        }
    }
    None
}

/// Whether the multiplier is below 0 on a row that asks for at least its right side.
#[tactic(auto, unfolding(crate::specs::Refusals::has_wrong_sign))]
fn has_wrong_sign(milp: &Milp, mult: (u32, i128)) -> bool
    requires { IsNumber mult.0 (row_count milp.now) }
    ensures { result ≡ has_wrong_sign milp.now mult }
{
    is_at_least(milp.row(mult.0 as usize).side()) && is_below(mult.1, 0)
}

fn is_at_least(side: Side) -> bool
    ensures { result ≡ is_at_least side }
{
    match side {
        Side::Equal => false,
        Side::AtLeast => true,
    }
}

fn is_below(a: i128, b: i128) -> bool
    ensures { result ≡ int_lt a b }
{
    a < b
}

/// A value whose quotient by the scale is below the stated bound.
fn bound_refusal(bound: &Option<Frac>, line: usize, value: i128, scale: i128) -> Option<Refusal>
    requires bound { IsStatedOrNone bound.now }
    requires scale { IsScale scale }
    requires value { unsigned_abs value ≤ 2 ^ 86 }
    ensures { result ≡ bound_refusal bound.now line value scale }
{
    match bound {
        Some(bound) => missed(bound, line, value, scale),
        None => None,
    }
}

fn missed(bound: &Frac, line: usize, value: i128, scale: i128) -> Option<Refusal>
    requires bound { IsStated bound.now }
    requires scale { IsScale scale }
    requires value { unsigned_abs value ≤ 2 ^ 86 }
    ensures { result ≡ bound_refusal (Some bound.now) line value scale }
{
    if is_missed(bound, scale, value) {
        Some(Refusal {
            rule: CertRule::C7,
            line,
        })
    } else {
        None
    }
}

/// Whether the value over the scale is below the bound.
fn is_missed(bound: &Frac, scale: i128, value: i128) -> bool
    requires bound { IsStated bound.now }
    requires scale { IsScale scale }
    requires value { unsigned_abs value ≤ 2 ^ 86 }
    ensures { result ≡ int_lt (value *ℤ bound.now.den) (bound.now.num *ℤ scale) }
{
    is_below(product(value, bound.den()), product(bound.num(), scale))
}

/// The product of a number of magnitude at most 2^86 and a denominator or a scale.
fn product(a: i128, b: i128) -> i128
    requires a { unsigned_abs a ≤ 2 ^ 86 }
    requires b { IsScale b }
    ensures { result ≡ a *ℤ b }
{
    times(a, b)
}
