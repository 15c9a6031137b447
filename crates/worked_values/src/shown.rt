// How values are written in an answer, and how words are read.
use crate::writing::Answer;
use std::alloc::{AllocError, Global};

/// Appends the number, or `none`.
pub(crate) fn option(out: &mut Answer, number: Option<i128>) {
    match number {
        Some(number) => out.put(format_args!("{number}")),
        None => out.put("none"),
    }
}

/// Appends the bytes that are given, or `none`.
pub(crate) fn bytes(out: &mut Answer, bytes: Option<&[u8]>) {
    match bytes {
        Some(bytes) => text(out, bytes),
        None => out.put("none"),
    }
}

/// Appends the bytes as a text between quotes, or `no text` where they are none.
fn text(out: &mut Answer, bytes: &[u8]) {
    match std::str::from_utf8(bytes) {
        Ok(text) => out.put(format_args!("{text:?}")),
        Err(_) => out.put("no text"),
    }
}

/// The text with a line feed in the place of each `\n`, and a carriage return in that of each `\r`.
pub(crate) fn unescaped(alloc: Global, text: &str) -> Result<String, AllocError> {
    let text = text.replace(alloc, "\\n", "\n")?;
    text.replace(alloc, "\\r", "\r")
}

/// The word at this place, counted from 0, or an empty one.
pub(crate) fn word(words: &str, i: usize) -> &str {
    words.split_whitespace().nth(i).unwrap_or("")
}

/// The number that a word is, or 0.
pub(crate) fn parsed(word: &str) -> i128 {
    word.parse::<i128>().unwrap_or(0)
}

/// The number that the word at this place is, or 0.
pub(crate) fn number(words: &str, i: usize) -> i128 {
    parsed(word(words, i))
}
