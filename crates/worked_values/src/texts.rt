// Lines, words, cuts and whole numbers of texts. In a text `\n` stands for a line feed.
use crate::shown;
use crate::writing::Answer;
use std::alloc::Global;
use text_parts::{Line, Lines, cut_at, whole};

/// What the named call gives for a text.
pub(crate) fn text(alloc: Global, out: &mut Answer, name: &str, text: &str) {
    match shown::unescaped(alloc, text) {
        Ok(text) => call(out, name, text.as_bytes()),
        Err(_) => out.fail(),
    }
}

/// What the named call gives for these bytes.
fn call(out: &mut Answer, name: &str, text: &[u8]) {
    match name {
        "whole" => shown::option(out, whole(text)),
        "lines" => lines(out, text),
        "words" => words(out, text),
        _ => cut(out, text),
    }
}

/// The lines of the text, each with its number, its span and its end.
fn lines(out: &mut Answer, text: &[u8]) {
    let mut lines = Lines::over(text);
    for _ in 0..text.len() {
        let Some(line) = lines.next() else {
            break;
        };
        line_shown(out, &line, lines.number());
    }
    let rest = if lines.next().is_none() {
        "none"
    } else {
        "more"
    };
    let number = lines.number();
    out.put(format_args!("{rest} after {number}"));
}

fn line_shown(out: &mut Answer, line: &Line, number: usize) {
    out.put(format_args!("line {number} "));
    shown::bytes(out, Some(line.bytes()));
    let (first, end) = line.span();
    let ended = if line.ended() { "ended" } else { "open" };
    out.put(format_args!(" {first}..{end} {ended}, "));
}

/// The words of the first line of the text, then each by its number, and the one past the last.
fn words(out: &mut Answer, text: &[u8]) {
    match Lines::over(text).next() {
        Some(line) => line_words(out, &line),
        None => out.put("no line"),
    }
}

fn line_words(out: &mut Answer, line: &Line) {
    let mut count = 0usize;
    for word in line.words() {
        word_shown(out, word, count, line.word(count));
        count = count.saturating_add(1);
    }
    out.put(format_args!("{count} is "));
    shown::bytes(out, line.word(count))
}

fn word_shown(out: &mut Answer, word: &[u8], count: usize, numbered: Option<&[u8]>) {
    shown::bytes(out, Some(word));
    out.put(format_args!(" {count} is "));
    shown::bytes(out, numbered);
    out.put(", ")
}

/// What stands before and behind the first colon of the text.
fn cut(out: &mut Answer, text: &[u8]) {
    let (before, after) = cut_at(text, b':');
    shown::bytes(out, Some(before));
    out.put(" ");
    shown::bytes(out, after)
}
