// Why no sections were read.
ghost use Rattle.std.specs.Prelude.{◌≡◌};
ghost use Rattle.section_tables.specs.declared.error.TableErr.TheVariants.{NoMemory};

use std::alloc::{AllocError, AllocFailed};

/// Why no sections were read.
#[derive(Clone, Copy, Debug, PartialEq, Eq)]
pub enum TableErr {
    /// The bytes aren't a section table.
    Refused,
    /// Memory was wanting; nothing is said of the table.
    NoMemory,
}

impl From<AllocError> for TableErr {
    ghost from_gives = { λ _ e. e ≡ NoMemory };

    fn from(_error: AllocError) -> TableErr {
        TableErr::NoMemory
    }
}

impl<T: Drop> From<AllocFailed<T>> for TableErr {
    ghost from_gives = { λ _ e. e ≡ NoMemory };

    fn from(_error: AllocFailed<T>) -> TableErr {
        TableErr::NoMemory
    }
}
