// Fractions that are spelled in lowest terms.
ghost use Rattle.std.specs.Prelude.{◌≡◌, ◌↔◌, IsTrue, ◌^◌, ◌≤◌, pos, ◌≤ℤ◌, unsigned_abs};
ghost use Rattle.std.specs.Option.{option_map};
ghost use Rattle.text_parts.specs.Words.{parts_between};
ghost use Rattle.cert_text.specs.WordForms.{two_words};
ghost use Rattle.algebra.specs.Scale.{greatest_scale};
ghost use Rattle.cert_text.specs.Fractions.{lowest, fraction_form, fraction_of, slash};

use crate::words::whole_within;
use algebra::GREATEST_SCALE;
use numbers::Frac;
use text_parts::cut_at;

/// The greatest magnitude of the numerator of a stated cost or bound.
const GREATEST_NUMERATOR: i128 = 77_371_252_455_336_267_181_195_264;

/// The fraction that a word spells, if it is one that can be stated.
#[tactic(auto, unfolding(crate::specs::Fractions::fraction_form))]
pub(crate) fn fraction(word: &[u8]) -> Option<Frac>
    ensures { result ≡ fraction_form word.now }
{
    let (num, den) = two_parts(word)?;
    parts(num, den)
}

/// The only two parts between slashes.
fn two_parts(word: &[u8]) -> Option<(&[u8], &[u8])>
    ensures { option_map (λ found. (found.0.now, found.1.now)) result ≡ two_words (parts_between slash word.now) }
{
    let (num, behind) = cut_at(word, b'/');
    let (den, more) = cut_at(behind?, b'/');
    if more.is_some() {
        None
    } else {
        Some((num, den))
    }
}

fn parts(num: &[u8], den: &[u8]) -> Option<Frac>
    ensures { result ≡ fraction_of num.now den.now }
{
    let num = whole_within(num, -GREATEST_NUMERATOR, GREATEST_NUMERATOR)?;
    let den = whole_within(den, 1, GREATEST_SCALE)?;
    lowest(num, den)
}

/// The fraction, if these are its lowest terms.
fn lowest(num: i128, den: i128) -> Option<Frac>
    requires num { unsigned_abs num ≤ 2 ^ 86 }
    requires den_from { pos 1 ≤ℤ den }
    requires den_to { den ≤ℤ pos greatest_scale }
    ensures { result ≡ lowest num den }
{
    let fraction = Frac::new(num, den)?;
    if is_same(&fraction, num, den) {
        Some(fraction)
    } else {
        None
    }
}

/// Whether these are the fraction's lowest terms.
fn is_same(fraction: &Frac, num: i128, den: i128) -> bool
    ensures { IsTrue result ↔ ((fraction.now.num ≡ num) × (fraction.now.den ≡ den)) }
{
    if are_equal(fraction.num(), num) {
        are_equal(fraction.den(), den)
    } else {
        false
    }
}

fn are_equal(a: i128, b: i128) -> bool
    ensures { IsTrue result ↔ (a ≡ b) }
{
    a == b
}
