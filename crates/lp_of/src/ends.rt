// How a program ends, told in words.
ghost use Rattle.std.specs.Prelude.{◌≤◌};

use numbers::Narrow;
use simplex::{Lp, LpEnd, Used, solve, solve_either};
use std::alloc::{AllocError, Global};

/// The end in one range of numbers.
pub(crate) fn end_in<W: Narrow>(
    alloc: Global,
    lp: &Lp,
    budget: u32,
    how: &str,
) -> Result<String, AllocError>
    requires { 1 ≤ budget }
{
    for _ in 0..times(how) {
        solve::<W>(alloc, lp, budget)?;
    }
    let end = solve::<W>(alloc, lp, budget)?;
    if how == "brief" {
        brief(alloc, &end)
    } else {
        full(alloc, &end)
    }
}

/// The end in the first of two ranges of numbers, or else in the second, and which of them it is.
pub(crate) fn end_in_either<N: Narrow, M: Narrow>(
    alloc: Global,
    lp: &Lp,
    budget: u32,
    how: &str,
) -> Result<String, AllocError>
    requires { 1 ≤ budget }
{
    for _ in 0..times(how) {
        solve_either::<N, M>(alloc, lp, budget)?;
    }
    let (end, used) = solve_either::<N, M>(alloc, lp, budget)?;
    if how == "brief" {
        let end = brief(alloc, &end)?;
        let used = brief_use(alloc, &used)?;
        format!(in alloc; "{used} {end}")
    } else {
        let end = full(alloc, &end)?;
        format!(in alloc; "{used:?} {end}")
    }
}

/// How many times a program is solved before its end is told.
fn times(how: &str) -> u32 {
    how.parse::<u32>().unwrap_or(0)
}

/// The kind of an end, with what doesn't depend on the exchanges that led there.
fn brief(alloc: Global, end: &LpEnd) -> Result<String, AllocError> {
    match end {
        LpEnd::Best { den, point, .. } => {
            let point = point.as_slice();
            format!(in alloc; "best {point:?} over {den}")
        }
        LpEnd::Empty { .. } => String::from_str(alloc, "empty"),
        LpEnd::Pivots { trail, .. } => {
            let exchanges = trail.len();
            format!(in alloc; "pivots after {exchanges}")
        }
        LpEnd::Wide { trail, op, .. } => {
            let exchanges = trail.len();
            format!(in alloc; "wide after {exchanges} {op:?}")
        }
    }
}

/// The end with all that is claimed of it: so without its rough numbers.
fn full(alloc: Global, end: &LpEnd) -> Result<String, AllocError> {
    match end {
        LpEnd::Pivots {
            trail,
            scale,
            mults,
            ..
        } => {
            let (trail, mults) = (trail.as_slice(), mults.as_slice());
            format!(in alloc; "Pivots {{ trail: {trail:?}, scale: {scale}, mults: {mults:?} }}")
        }
        LpEnd::Wide {
            trail,
            op,
            scale,
            mults,
            ..
        } => {
            let (trail, mults) = (trail.as_slice(), mults.as_slice());
            format!(in alloc;
                "Wide {{ trail: {trail:?}, op: {op:?}, scale: {scale}, mults: {mults:?} }}"
            )
        }
        _ => format!(in alloc; "{end:?}"),
    }
}

/// Which of two ranges was used.
fn brief_use(alloc: Global, used: &Used) -> Result<String, AllocError> {
    match used {
        Used::First => String::from_str(alloc, "first"),
        Used::Second { trail, op } => {
            let exchanges = trail.len();
            format!(in alloc; "second after {exchanges} {op:?}")
        }
    }
}
