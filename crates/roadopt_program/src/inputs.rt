// The bytes of the files that a run reads.
ghost use Rattle.std.specs.Prelude.{◌≡◌, ◌+◌, ◌^◌, ◌≤◌, IfOk, IfSome, IsErrOf, None};
ghost use Rattle.std.specs.Option.{option_map};
ghost use Rattle.outside.specs.Faults.{HasRisen};
ghost use Rattle.roadopt_program.specs.Inputs.{road_limit, cert_limit, other_limit, IsGiven};
ghost use Rattle.roadopt_program.specs.inside.Called.{verb_called};
ghost use Rattle.roadopt_program.specs.declared.inputs.Lost.TheVariants.{NoMemory};

use crate::forms::Verb;
use cert_text::LONGEST_TEXT;
use outside::{Store, StoreErr};
use road_types::LONGEST_FILE;
use std::alloc::{AllocError, Global};

/// What a run needed and didn't get.
#[derive(Clone, Copy)]
pub(crate) enum Lost {
    /// A read failed.
    Failed,
    /// Memory ran out.
    NoMemory,
}

impl From<AllocError> for Lost {
    ghost from_gives = { λ _ e. e ≡ NoMemory };

    fn from(_: AllocError) -> Self {
        Lost::NoMemory
    }
}

/// How many bytes of a road's file are read at the most.
#[tactic(auto, unfolding(crate::specs::Inputs::road_limit))]
pub(crate) fn road_limit() -> usize
    ensures value { result ≡ road_limit }
    ensures within { result ≤ 2 ^ 26 + 1 }
{
    LONGEST_FILE + 1
}

/// How many bytes of a certificate's file are read at the most.
#[tactic(auto, unfolding(crate::specs::Inputs::cert_limit, cert_text::specs::Validity::longest_text))]
pub(crate) fn cert_limit() -> usize
    ensures value { result ≡ cert_limit }
    ensures within { result ≤ 2 ^ 26 + 1 }
{
    LONGEST_TEXT + 1
}

impl Verb<'_> {
    /// How many bytes of the command's further file are read at the most; `None` where none is read.
    pub(crate) fn other_limit(&self) -> Option<usize>
        ensures value { result ≡ other_limit (verb_called self.now) }
        ensures within { IfSome result (λ most. most ≤ 2 ^ 26 + 1) }
    {
        match self {
            Verb::Judge => Some(road_limit()),
            Verb::Check | Verb::Replay | Verb::Mass | Verb::Carry { .. } => Some(cert_limit()),
            Verb::Solve => None,
        }
    }
}

/// The first `most` bytes of the named file; none where there is no such file.
pub(crate) fn read_file<S: Store>(
    alloc: Global,
    name: &str,
    most: usize,
    store: &mut S,
) -> Result<Option<Vec<u8>>, Lost>
    requires { most ≤ 2 ^ 26 + 1 }
    ensures given { IfOk result (λ found. IsGiven (S.files store.old) name.now most (option_map (λ bytes. bytes.items) found)) }
    ensures missing { IfOk result (λ found. found ≡ None → S.read_faults store.new ≡ S.read_faults store.old) }
    ensures failed { IsErrOf result Lost.Failed → HasRisen (S.read_faults store.old) (S.read_faults store.new) }
    ensures files { S.files store.new ≡ S.files store.old }
    ensures writes { S.write_faults store.new ≡ S.write_faults store.old }
    ensures never_falls { S.read_faults store.old ≤ S.read_faults store.new }
{
    match store.read(alloc, name, most) {
        Ok(bytes) => Ok(Some(bytes)),
        Err(StoreErr::Missing) => Ok(None),
        Err(StoreErr::Failed) => Err(Lost::Failed),
        Err(StoreErr::NoMemory) => Err(Lost::NoMemory),
    }
}
