// Why no road was read.
ghost use Rattle.std.specs.Prelude.{◌≡◌};
ghost use Rattle.road_file.specs.declared.error.RoadErr.TheVariants.{NoMemory};

use road_types::Fault;
use std::alloc::{AllocError, AllocFailed};

/// Why no road was read.
#[derive(Clone, Copy)]
pub enum RoadErr {
    /// The first fault of the road file.
    Refused(Fault),
    /// Memory was wanting; nothing is said of the file.
    NoMemory,
}

impl From<AllocError> for RoadErr {
    ghost from_gives = { λ _ e. e ≡ NoMemory };

    fn from(_error: AllocError) -> RoadErr {
        RoadErr::NoMemory
    }
}

impl<T: Drop> From<AllocFailed<T>> for RoadErr {
    ghost from_gives = { λ _ e. e ≡ NoMemory };

    fn from(_error: AllocFailed<T>) -> RoadErr {
        RoadErr::NoMemory
    }
}
