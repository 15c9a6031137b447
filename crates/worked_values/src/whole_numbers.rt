// Whole numbers of each type, fractions and common denominators.
ghost use Rattle.std.specs.Prelude.{◌≡◌, ◌≢◌, pos, IfSome};

use crate::shown;
use crate::small::Small;
use crate::writing::Answer;
use numbers::{Frac, Narrow, W64, W128, Whole, common_den};
use std::alloc::{AllocError, Global};
use std::cmp::Ordering;

/// The calls on numbers of the type that is named.
pub(crate) fn number(out: &mut Answer, name: &str, words: &str) {
    match name {
        "small" => calls::<Small>(out, words),
        "w64" => calls::<W64>(out, words),
        _ => calls::<W128>(out, words),
    }
}

/// The call that the first word names, on the numbers that follow.
fn calls<W: Narrow>(out: &mut Answer, words: &str) {
    match shown::word(words, 0) {
        "of" => option(out, of::<W>(shown::number(words, 1))),
        "of_wide" => option(out, W::of_wide(shown::number(words, 1))),
        "units" => units::<W>(out),
        "turned" => turned::<W>(out, words),
        "two" => two::<W>(out, words),
        "back" => option(out, back::<W>(words)),
        "apart" => option(out, apart::<W>(words)),
        _ => out.put("no such call"),
    }
}

fn option<W: Narrow>(out: &mut Answer, number: Option<W>) {
    match number {
        Some(number) => shown::option(out, Some(number.wide())),
        None => out.put("none"),
    }
}

/// The number at a place of the words.
fn at<W: Narrow>(words: &str, i: usize) -> Option<W> {
    W::of_wide(shown::number(words, i))
}

/// The number from 64 bits.
fn of<W: Narrow>(number: i128) -> Option<W> {
    let number = i64::try_from(number).ok()?;
    W::of(number)
}

/// The numbers 0 and 1.
fn units<W: Narrow>(out: &mut Answer) {
    let (zero, one) = (W::zero().wide(), W::one().wide());
    out.put(format_args!("{zero} {one}"));
}

/// The number of the other sign, and the sign.
fn turned<W: Narrow>(out: &mut Answer, words: &str) {
    let Some(number) = at::<W>(words, 1) else {
        return out.put("none");
    };
    let negated = number.negated().wide();
    let sign = order(number.sign());
    out.put(format_args!("{negated} {sign}"));
}

/// The sum, the difference, the product, the greatest common divisor and the order.
fn two<W: Narrow>(out: &mut Answer, words: &str) {
    let (Some(a), Some(b)) = (at::<W>(words, 1), at::<W>(words, 2)) else {
        return out.put("none");
    };
    option(out, a.plus(b));
    out.put(" ");
    option(out, a.minus(b));
    out.put(" ");
    option(out, a.times(b));
    let divisor = a.gcd(b).wide();
    let order = order(a.order(b));
    out.put(format_args!(" {divisor} {order}"));
}

fn order(order: Ordering) -> &'static str {
    match order {
        Ordering::Less => "less",
        Ordering::Equal => "equal",
        Ordering::Greater => "greater",
    }
}

/// What the product of two numbers divided by the second gives.
fn back<W: Narrow>(words: &str) -> Option<W> {
    let factor = at::<W>(words, 1)?;
    let other = at::<W>(words, 2)?;
    if other.wide() == 0 {
        return None;
    }
    divided_back(factor, other)
}

/// What `factor * other` divided by `other` gives, where the product is in range.
fn divided_back<W: Narrow>(factor: W, other: W) -> Option<W>
    requires { W.meaning other ≢ pos 0 }
    ensures { IfSome result (λ x. W.meaning x ≡ W.meaning factor) }
{
    Some(factor.times(other)?.exact_part(other))
}

/// The difference of the products of the first and the last two of four numbers.
fn apart<W: Narrow>(words: &str) -> Option<W> {
    let a = at::<W>(words, 1)?;
    let b = at::<W>(words, 2)?;
    let c = at::<W>(words, 3)?;
    let d = at::<W>(words, 4)?;
    a.product_difference(b, c, d)
}

/// The text of a numerator over a denominator.
pub(crate) fn fraction(alloc: Global, out: &mut Answer, words: &str) {
    match Frac::new(shown::number(words, 0), shown::number(words, 1)) {
        Some(fraction) => match fraction.text(alloc) {
            Ok(text) => out.put(text.as_str()),
            Err(_) => out.fail(),
        },
        None => out.put("none"),
    }
}

/// Whether two fractions are one.
pub(crate) fn same(out: &mut Answer, words: &str) {
    let left = Frac::new(shown::number(words, 0), shown::number(words, 1));
    let right = Frac::new(shown::number(words, 2), shown::number(words, 3));
    out.put(if left == right { "yes" } else { "no" })
}

/// The least common denominator of fractions such as `5/6`.
pub(crate) fn common(alloc: Global, out: &mut Answer, rest: &str) {
    match fractions(alloc, rest) {
        Ok(fractions) => shown::option(out, common_den(fractions.as_slice())),
        Err(_) => out.fail(),
    }
}

/// The words that are fractions such as `5/6`.
fn fractions(alloc: Global, rest: &str) -> Result<Vec<Frac>, AllocError> {
    let mut fractions = Vec::new(alloc);
    for word in rest.split_whitespace() {
        if let Some(fraction) = fraction_of(word) {
            fractions.push(fraction)?;
        }
    }
    Ok(fractions)
}

/// The fraction that a word such as `5/6` is.
fn fraction_of(word: &str) -> Option<Frac> {
    let (num, den) = word.split_once('/')?;
    Frac::new(shown::parsed(num), shown::parsed(den))
}
