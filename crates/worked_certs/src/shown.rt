// How values are written in an answer, and texts in a line.
use std::alloc::{AllocError, Global};
use std::fmt::Display;

/// The value, or `none`.
pub(crate) fn option<T: Display + Drop>(
    alloc: Global,
    value: Option<T>,
) -> Result<String, AllocError> {
    match value {
        Some(value) => format!(in alloc; "{value}"),
        None => String::from_str(alloc, "none"),
    }
}

/// The text with a line feed in the place of each `\n`.
pub(crate) fn unescaped(alloc: Global, text: &str) -> Result<String, AllocError> {
    let mut all = String::new(alloc);
    let mut rest = text;
    for _ in 0..text.len() {
        let Some((before, after)) = rest.split_once("\\n") else {
            break;
        };
        all.push_str(before)?;
        all.push_str("\n")?;
        rest = after;
    }
    all.push_str(rest)?;
    Ok(all)
}

/// The number that the text is, or 0.
pub(crate) fn number(text: &str) -> usize {
    text.parse::<usize>().unwrap_or(0)
}
