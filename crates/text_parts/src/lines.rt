ghost use Rattle.std.specs.Prelude.{◌≡◌, ◌<◌, ◌+◌, ◌^◌, IfSome, All};
ghost use Rattle.text_parts.specs.Lines.{lines_of, GivesNext, IsOfSource, IsSpanOf, end_of};

use crate::cut::cut_at;
use crate::line::Line;
use std::marker::Model;

/// The lines of a source, given one after another and numbered from 1.
#[derive(Drop)]
pub struct Lines<'a> {
    source: &'a [u8],
    at: usize,
    given: usize,
}

impl<'a> Model for Lines<'a> {
    ghost use Rattle.std.specs.Prelude.{◌≤◌, length, drop};
    ghost use Rattle.text_parts.specs.Lines.{Reading, lines_of};

    ghost Value = { Reading };

    ghost view = { λ r. record { source = r.source.now; number = r.given; left = lines_of r.at (drop r.at r.source.now) } };

    ghost invariant = { λ r. (r.at ≤ length r.source.now) × (r.given ≤ r.at) };
}

impl<'a> Lines<'a> {
    /// The lines of these bytes: the parts before each line feed, and a last part without one where it is not empty.
    pub fn over(bytes: &'a [u8]) -> Lines<'a>
        ensures source { result.source ≡ bytes.now }
        ensures number { result.number ≡ 0 }
        ensures lines { result.left ≡ lines_of 0 bytes.now }
    {
        Lines {
            source: bytes,
            at: 0,
            given: 0,
        }
    }

    /// The next line; `None` exactly where none is left.
    pub fn next(&mut self) -> Option<Line<'a>>
        ensures given { GivesNext self.old result self.new }
        ensures span { IfSome result (IsSpanOf self.old.source) }
        ensures of_source { IsOfSource self.old }
        ensures in_order { IfSome result (λ line. All (λ later. end_of line < later.start) self.new.left) }
    {
        let rest = &self.source[self.at..];
        let (bytes, after) = cut_at(rest, b'\n');
        let ended = after.is_some();
        if !ended && bytes.is_empty() {
            return None;
        }
        let start = self.at;
        self.at += bytes.len() + usize::from(ended);
        self.given += 1;
        Some(Line {
            bytes,
            start,
            ended,
        })
    }

    /// How many lines were given so far, which is the number of the last one.
    pub fn number(&self) -> usize
        ensures value { result ≡ self.now.number }
        ensures small { result < 2 ^ 63 }
    {
        self.given
    }
}
