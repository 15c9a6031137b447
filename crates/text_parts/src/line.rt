ghost use Rattle.std.specs.Prelude.{◌≡◌, slice_get, length, ◌+◌, ◌==◌};
ghost use Rattle.std.specs.Option.{option_copied};
ghost use Rattle.std.specs.List.{count_by};
ghost use Rattle.text_parts.specs.Words.{words_of, space};
ghost use Rattle.text_parts.specs.Lines.{end_of};

use crate::words::Words;
use std::marker::Model;

/// A line of a source, borrowed from it.
#[derive(Drop)]
pub struct Line<'a> {
    pub(crate) bytes: &'a [u8],
    pub(crate) start: usize,
    pub(crate) ended: bool,
}

impl<'a> Model for Line<'a> {
    ghost use Rattle.std.specs.Prelude.{◌+◌, ◌<◌, ◌^◌, length};
    ghost use Rattle.text_parts.specs.Lines.{TextLine};

    ghost Value = { TextLine };

    ghost view = { λ l. record { start = l.start; bytes = l.bytes.now; ended = l.ended } };

    ghost invariant = { λ l. l.start + length l.bytes.now < 2 ^ 64 };
}

impl<'a> Line<'a> {
    /// Whether a line feed followed the line.
    pub fn ended(&self) -> bool
        ensures { result ≡ self.now.ended }
    {
        self.ended
    }

    /// The line without its line feed.
    pub fn bytes(&self) -> &'a [u8]
        ensures { result.now ≡ self.now.bytes }
    {
        self.bytes
    }

    /// The place of the line's first byte in the source, counted from 0, and the place just after its last byte.
    pub fn span(&self) -> (usize, usize)
        ensures first { result.0 ≡ self.now.start }
        ensures end { result.1 ≡ end_of self.now }
    {
        (self.start, self.start + self.bytes.len())
    }

    /// The words in their order: k spaces give k + 1 words, some of them empty.
    pub fn words(&self) -> Words<'a>
        ensures parts { result ≡ words_of self.now.bytes }
        ensures count { length result ≡ count_by (λ b. b == space) self.now.bytes + 1 }
    {
        Words::over(self.bytes)
    }

    /// The word with this number, counted from 0; `None` exactly past the last.
    pub fn word(&self, i: usize) -> Option<&'a [u8]>
        ensures { option_copied result ≡ slice_get (words_of self.now.bytes) i }
    {
        self.words().nth(i)
    }
}
