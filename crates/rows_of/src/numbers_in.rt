// Numbers in a line.
use std::alloc::{AllocError, Global};

/// The words of a text as numbers, 0 in the place of a word that is none.
pub(crate) fn numbers_in(alloc: Global, text: &str) -> Result<Vec<i128>, AllocError> {
    let mut numbers = Vec::new(alloc);
    for word in text.split_whitespace() {
        numbers.push(number_in(word))?;
    }
    Ok(numbers)
}

/// The number that a word is, or 0.
pub(crate) fn number_in(word: &str) -> i128 {
    word.parse::<i128>().unwrap_or(0)
}

/// The first word of a text as a number, and the words behind it as numbers.
pub(crate) fn first_and_rest(alloc: Global, text: &str) -> Result<(i128, Vec<i128>), AllocError> {
    let (first, rest) = text.split_once(' ').unwrap_or((text, ""));
    let rest = numbers_in(alloc, rest)?;
    Ok((number_in(first), rest))
}
