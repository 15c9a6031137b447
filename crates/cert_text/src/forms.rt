// The forms of the lines of nodes, by their words.
ghost use Rattle.std.specs.Prelude.{◌≡◌, ◌≤◌, ℕ, IfSome};
ghost use Rattle.cert_text.specs.WordForms.{low_form, dead_form, split_form, split_of, removal_of, height_of, head_form, mult_form};
ghost use Rattle.cert_text.specs.inside.NodeReading.{HasCountWithin};

use crate::head::Head;
use crate::words::{cause, natural_within, one_word, scale, three_words, value, whole_within};
use milp_builder::Split;
use text_parts::Words;

/// The greatest number of 18 digits.
const GREATEST_SPLIT_NUMBER: usize = 999_999_999_999_999_999;

/// The first line of a node over so many rows.
#[tactic(auto, unfolding(crate::specs::WordForms::head_form))]
pub(crate) fn head(rows: usize, mut words: Words) -> Option<Head>
    ensures value { result ≡ head_form rows words.entry }
    ensures count { IfSome result (HasCountWithin rows) }
{
    let first = words.next()?;
    if first == b"low".as_slice() {
        low(rows, words)
    } else if first == b"dead".as_slice() {
        dead(rows, words)
    } else if first == b"split".as_slice() {
        parted(words)
    } else {
        None
    }
}

#[tactic(auto, unfolding(crate::specs::WordForms::low_form))]
fn low(rows: usize, words: Words) -> Option<Head>
    ensures value { result ≡ low_form rows words.entry }
    ensures count { IfSome result (HasCountWithin rows) }
{
    let (scale_word, cause_word, count_word) = three_words(words)?;
    let scale = scale(scale_word)?;
    let cause = cause(cause_word)?;
    let count = natural_within(count_word, 0, rows)?;
    Some(Head::Low {
        scale,
        cause,
        count,
    })
}

#[tactic(auto, unfolding(crate::specs::WordForms::dead_form))]
fn dead(rows: usize, words: Words) -> Option<Head>
    ensures value { result ≡ dead_form rows words.entry }
    ensures count { IfSome result (HasCountWithin rows) }
{
    let count = natural_within(one_word(words)?, 0, rows)?;
    Some(Head::Dead { count })
}

#[tactic(auto, unfolding(crate::specs::WordForms::split_form))]
fn parted(words: Words) -> Option<Head>
    ensures value { result ≡ split_form words.entry }
    ensures count { (rows : ℕ) → IfSome result (HasCountWithin rows) }
{
    let (kind, number, place) = three_words(words)?;
    let split = split(kind, number, place)?;
    Some(Head::Parted { split })
}

#[tactic(auto, unfolding(crate::specs::WordForms::split_of))]
fn split(kind: &[u8], number: &[u8], place: &[u8]) -> Option<Split>
    ensures { result ≡ split_of (kind.now, number.now, place.now) }
{
    if kind == b"removal".as_slice() {
        removal(number, place)
    } else if kind == b"height".as_slice() {
        height(number, place)
    } else {
        None
    }
}

fn removal(number: &[u8], place: &[u8]) -> Option<Split>
    ensures { result ≡ removal_of number.now place.now }
{
    let block = natural_within(number, 0, GREATEST_SPLIT_NUMBER)?;
    let stage = natural_within(place, 0, GREATEST_SPLIT_NUMBER)?;
    Some(Split::Removal { block, stage })
}

fn height(number: &[u8], place: &[u8]) -> Option<Split>
    ensures { result ≡ height_of number.now place.now }
{
    let section = natural_within(number, 0, GREATEST_SPLIT_NUMBER)?;
    let greatest = GREATEST_SPLIT_NUMBER as i128;
    let at = whole_within(place, -greatest, greatest)?;
    Some(Split::Height {
        section,
        at: at as i64,
    })
}

/// A multiplier of a row behind another.
#[tactic(auto, unfolding(crate::specs::WordForms::mult_form))]
pub(crate) fn mult(rows: usize, before: usize, words: Words) -> Option<(u32, i128)>
    requires rows { rows ≤ 600 }
    requires before { before ≤ rows }
    ensures value { result ≡ mult_form rows before words.entry }
    ensures within { IfSome result (λ mult. mult.0 ≤ rows) }
{
    let (keyword, row, value_word) = three_words(words)?;
    if keyword != b"m".as_slice() {
        return None;
    }
    let row = natural_within(row, before + 1, rows)?;
    let value = value(value_word)?;
    Some((row as u32, value))
}
