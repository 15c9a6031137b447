ghost use Rattle.std.specs.Prelude.{◌≡◌};
ghost use Rattle.text_parts.specs.Words.{words_of};

use crate::cut::cut_at;
use std::marker::Model;

/// The words of a line that are still to be given: the parts between its spaces.
#[derive(Drop)]
pub struct Words<'a> {
    rest: Option<&'a [u8]>,
}

impl<'a> Model for Words<'a> {
    ghost use Rattle.std.specs.Prelude.{ℕ, List};
    ghost use Rattle.text_parts.specs.inside.Left.{words_left};

    ghost Value = { List (List ℕ) };

    ghost view = { λ w. words_left w.rest };
}

impl<'a> Words<'a> {
    /// The words of a line without its line feed; k spaces give k + 1 words, some of them empty.
    pub fn over(line: &'a [u8]) -> Words<'a>
        ensures { result ≡ words_of line.now }
    {
        Words { rest: Some(line) }
    }
}

impl<'a> Iterator for Words<'a> {
    ghost use Rattle.std.specs.Iterator.{YieldsFirstRef, item_count};

    type Item = &'a [u8];

    ghost next_gives = { YieldsFirstRef (λ words. words) };

    ghost remaining = { item_count (λ words. words) };

    fn next(&mut self) -> Option<&'a [u8]> {
        let rest = self.rest?;
        let (word, after) = cut_at(rest, b' ');
        self.rest = after;
        Some(word)
    }
}
