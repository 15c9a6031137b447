use std::alloc::{AllocError, AllocFailed};
use std::fmt;

/// Why no value was read from a text.
#[derive(Clone, Copy)]
pub enum TextErr {
    /// The number, from 1, of the first line that isn't of the form due,
    /// or of the missing line where the text ends too early.
    Bad { line: usize },
    /// Memory ran out.
    NoMemory,
}

impl From<AllocError> for TextErr {
    ghost use Rattle.std.specs.Prelude.{◌≡◌};
    ghost use Rattle.plan_text.specs.declared.error.TextErr.TheVariants.{NoMemory};

    ghost from_gives = { λ _ e. e ≡ NoMemory };

    fn from(_error: AllocError) -> TextErr {
        TextErr::NoMemory
    }
}

impl<T: Drop> From<AllocFailed<T>> for TextErr {
    ghost use Rattle.std.specs.Prelude.{◌≡◌};
    ghost use Rattle.plan_text.specs.declared.error.TextErr.TheVariants.{NoMemory};

    ghost from_gives = { λ _ e. e ≡ NoMemory };

    fn from(_failed: AllocFailed<T>) -> TextErr {
        TextErr::NoMemory
    }
}
