ghost use Rattle.std.specs.Prelude.{◌≡◌, IfOk};
ghost use Rattle.text_parts.specs.Lines.{IsOfSource};
ghost use Rattle.plan_text.specs.LineForms.{AreOfForm, line_numbers, word_number, short_numbers};
ghost use Rattle.plan_text.specs.inside.LineReading.{Gives, numbers_due};
ghost use Rattle.plan_text.specs.LineForms.{den_form, opens_form};

use crate::error::TextErr;
use algebra::GREATEST_SCALE;
use road_types::Listed;
use std::alloc::{AllocError, Global};
use std::marker::Model;
use text_parts::{Line, Lines, whole};

/// The greatest number of thirty digits.
const SHORT_MOST: i128 = 999_999_999_999_999_999_999_999_999_999;

/// The form of a line: a keyword, and so many numbers within a range, each behind one space.
#[derive(Drop)]
pub(crate) struct Form<'a> {
    keyword: &'a [u8],
    count: usize,
    low: i128,
    high: i128,
}

impl<'a> Model for Form<'a> {
    ghost use Rattle.plan_text.specs.LineForms.{LineForm};

    ghost Value = { LineForm };

    ghost view = { λ f. record { keyword = f.keyword.now; count = f.count; low = f.low; high = f.high } };
}

impl<'a> Form<'a> {
    /// A keyword and so many numbers of at most thirty digits.
    pub(crate) fn short_numbers(keyword: &'a [u8], count: usize) -> Form<'a>
        ensures { result ≡ short_numbers keyword.now count }
    {
        Form {
            keyword,
            count,
            low: -SHORT_MOST,
            high: SHORT_MOST,
        }
    }

    /// The denominator.
    pub(crate) fn denominator() -> Form<'static>
        ensures { result ≡ den_form }
    {
        Form {
            keyword: b"plan",
            count: 1,
            low: 1,
            high: GREATEST_SCALE,
        }
    }

    /// The openings of so many blocks.
    pub(crate) fn openings(blocks: usize) -> Form<'static>
        ensures { result ≡ opens_form blocks }
    {
        Form {
            keyword: b"open",
            count: blocks,
            low: 0,
            high: 255,
        }
    }

    /// The number that a word spells, if it is within the range.
    #[tactic(auto, unfolding(crate::specs::LineForms::word_number))]
    fn number(&self, word: &[u8]) -> Option<i128>
        ensures { result ≡ word_number self.now word.now }
    {
        let number = whole(word)?;
        if self.low <= number && number <= self.high {
            Some(number)
        } else {
            None
        }
    }

    /// The numbers of a line, if it ends and is of this form.
    #[tactic(auto, unfolding(crate::specs::LineForms::line_numbers))]
    pub(crate) fn numbers(
        &self,
        alloc: Global,
        line: &Line,
    ) -> Result<Option<Listed<i128>>, AllocError>
        ensures { IfOk result (λ numbers. numbers ≡ line_numbers self.now line.now) }
    {
        if !line.ended() {
            return Ok(None);
        }
        let mut words = line.words();
        let Some(first) = words.next() else {
            return Ok(None);
        };
        if first != self.keyword {
            return Ok(None);
        }
        let mut numbers = Vec::new(alloc);
        for word in words {
            if numbers.len() == self.count {
                return Ok(None);
            }
            let Some(number) = self.number(word) else {
                return Ok(None);
            };
            numbers.push(number)?;
        }
        if numbers.len() == self.count {
            Ok(Some(Listed::new(numbers)))
        } else {
            Ok(None)
        }
    }

    /// Reads the numbers of the next line, which is to be of this form.
    #[tactic(auto, unfolding(crate::specs::inside::LineReading::numbers_due))]
    pub(crate) fn read(&self, alloc: Global, lines: &mut Lines) -> Result<Listed<i128>, TextErr>
        ensures due { Gives (numbers_due self.now lines.old) result lines.new }
        ensures of_source { IsOfSource lines.old }
        ensures numbers { IfOk result (λ numbers. AreOfForm self.now numbers) }
    {
        let Some(line) = lines.next() else {
            return Err(TextErr::Bad {
                line: lines.number() + 1,
            });
        };
        match self.numbers(alloc, &line)? {
            Some(numbers) => Ok(numbers),
            None => Err(TextErr::Bad {
                line: lines.number(),
            }),
        }
    }
}
