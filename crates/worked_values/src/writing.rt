// An answer that is being written.
use std::alloc::{AllocError, Global};
use std::fmt::Display;

/// What is given for a line, as far as it is written; once memory was wanting, it isn't whole any more.
#[derive(Drop)]
pub(crate) struct Answer {
    text: String,
    is_whole: bool,
}

impl Answer {
    /// An answer of which nothing is written.
    pub(crate) fn new(alloc: Global) -> Answer {
        Answer {
            text: String::new(alloc),
            is_whole: true,
        }
    }

    /// Appends a value.
    pub(crate) fn put<D: Display + Drop>(&mut self, value: D) {
        let end = self.text.write_fmt(value);
        self.note(end);
    }

    /// Notes how a step ended that takes memory.
    pub(crate) fn note(&mut self, end: Result<(), AllocError>) {
        if end.is_err() {
            self.fail();
        }
    }

    /// Notes that memory was wanting.
    pub(crate) fn fail(&mut self) {
        self.is_whole = false;
    }

    /// The text, where it is whole.
    pub(crate) fn text(&self) -> Result<&str, AllocError> {
        if self.is_whole {
            Ok(self.text.as_str())
        } else {
            Err(AllocError)
        }
    }
}
