// So many words, and the values that a word spells.
ghost use Rattle.std.specs.Prelude.{◌≡◌, ◌≤◌, ◌≤ℤ◌, IfSome};
ghost use Rattle.std.specs.Option.{option_map};
ghost use Rattle.cert_text.specs.WordForms.{one_word, two_words, three_words, whole_within, natural_within, value_form, cause_form, scale_form};

use algebra::GREATEST_SCALE;
use cert_tree::Why;
use text_parts::{Words, whole};

/// The only word.
pub(crate) fn one_word<'a>(mut words: Words<'a>) -> Option<&'a [u8]>
    ensures { option_map (λ word. word.now) result ≡ one_word words.entry }
{
    let first = words.next()?;
    if words.next().is_some() {
        return None;
    }
    Some(first)
}

/// The only two words.
pub(crate) fn two_words<'a>(mut words: Words<'a>) -> Option<(&'a [u8], &'a [u8])>
    ensures { option_map (λ found. (found.0.now, found.1.now)) result ≡ two_words words.entry }
{
    let first = words.next()?;
    let second = words.next()?;
    if words.next().is_some() {
        return None;
    }
    Some((first, second))
}

/// The only three words.
pub(crate) fn three_words<'a>(mut words: Words<'a>) -> Option<(&'a [u8], &'a [u8], &'a [u8])>
    ensures { option_map (λ found. (found.0.now, found.1.now, found.2.now)) result ≡ three_words words.entry }
{
    let first = words.next()?;
    let second = words.next()?;
    let third = words.next()?;
    if words.next().is_some() {
        return None;
    }
    Some((first, second, third))
}

/// The whole number that the word spells, if it is one of these.
#[tactic(auto, unfolding(crate::specs::WordForms::whole_within))]
pub(crate) fn whole_within(word: &[u8], low: i128, high: i128) -> Option<i128>
    ensures value { result ≡ whole_within low high word.now }
    ensures from { IfSome result (λ n. low ≤ℤ n) }
    ensures to { IfSome result (λ n. n ≤ℤ high) }
{
    let n = whole(word)?;
    if low <= n && n <= high { Some(n) } else { None }
}

/// The natural number that the word spells, if it is one of these.
#[tactic(auto, unfolding(crate::specs::WordForms::natural_within))]
pub(crate) fn natural_within(word: &[u8], low: usize, high: usize) -> Option<usize>
    ensures value { result ≡ natural_within low high word.now }
    ensures from { IfSome result (λ n. low ≤ n) }
    ensures to { IfSome result (λ n. n ≤ high) }
{
    let n = whole_within(word, low as i128, high as i128)?;
    Some(n as usize)
}

/// The scale of a leaf.
pub(crate) fn scale(word: &[u8]) -> Option<i128>
    ensures { result ≡ scale_form word.now }
{
    whole_within(word, 1, GREATEST_SCALE)
}

/// The value of a multiplier, which isn't 0.
#[tactic(auto, unfolding(crate::specs::WordForms::value_form))]
pub(crate) fn value(word: &[u8]) -> Option<i128>
    ensures { result ≡ value_form word.now }
{
    let n = whole_within(word, -GREATEST_SCALE, GREATEST_SCALE)?;
    if n == 0 { None } else { Some(n) }
}

/// The cause for which a leaf was left open, if it was.
#[tactic(auto, unfolding(crate::specs::WordForms::cause_form))]
pub(crate) fn cause(word: &[u8]) -> Option<Option<Why>>
    ensures { result ≡ cause_form word.now }
{
    if word == b"closed".as_slice() {
        Some(None)
    } else if word == b"nodes".as_slice() {
        Some(Some(Why::Nodes))
    } else if word == b"pivots".as_slice() {
        Some(Some(Why::Pivots))
    } else if word == b"width".as_slice() {
        Some(Some(Why::Width))
    } else {
        None
    }
}
