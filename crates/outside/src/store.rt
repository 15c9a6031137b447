// A store of named files, as the code above sees it.
ghost use Rattle.std.specs.Prelude.{◌≡◌, ℕ, ◌+◌, ◌^◌, ◌≤◌, Option, length, IfOk, IsOkUnless, IsErrOf, OnOk, OnErr};
ghost use Rattle.outside.specs.declared.store.StoreErr.TheVariants.{NoMemory};
ghost use Rattle.outside.specs.Faults.{HasRisen};
ghost use Rattle.outside.specs.Files.{Files, FirstBytes, LacksFile, KeepsOrCuts, with_file};

use std::alloc::{AllocError, Global};

/// Why a call of a store gave no answer.
#[derive(Clone, Copy)]
pub enum StoreErr {
    /// No file has the name.
    Missing,
    /// The store failed, and counted a fault.
    Failed,
    /// Memory for the answer ran out.
    NoMemory,
}

impl From<AllocError> for StoreErr {
    ghost from_gives = { λ _ e. e ≡ NoMemory };

    fn from(_: AllocError) -> Self {
        StoreErr::NoMemory
    }
}

/// Named files, and two numbers that count faults: of reads, and of writes.
pub trait Store {
    /// The files, where the store tells them.
    ghost files: { Self → Option Files };

    /// How many reads have failed. It never falls, and stops at its last value.
    ghost read_faults: { Self → ℕ };

    /// How many writes have failed. It never falls, and stops at its last value.
    ghost write_faults: { Self → ℕ };

    /// The first `most` bytes of the named file, or all where it is shorter. `Missing` where no file
    /// has the name, `Failed` where the read failed, and `NoMemory` where memory for the bytes ran out.
    fn read(&mut self, alloc: Global, name: &str, most: usize) -> Result<Vec<u8>, StoreErr>
        requires { most ≤ 2 ^ 26 + 1 }
        ensures bytes { IfOk result (λ bytes. FirstBytes (files self.old) name.now most bytes.items) }
        ensures most { IfOk result (λ bytes. length bytes.items ≤ most) }

        ensures missing { IsErrOf result StoreErr.Missing → LacksFile (files self.old) name.now }
        ensures missing_is_no_fault { IsErrOf result StoreErr.Missing →
            read_faults self.new ≡ read_faults self.old }
        ensures failed { IsErrOf result StoreErr.Failed →
            HasRisen (read_faults self.old) (read_faults self.new) }

        ensures files { files self.new ≡ files self.old }
        ensures never_falls { read_faults self.old ≤ read_faults self.new }
        ensures write_faults { write_faults self.new ≡ write_faults self.old };

    /// Makes the named file hold exactly the bytes. `Failed`, its only error, where the write failed:
    /// the file is then as before, or holds a prefix of the bytes.
    fn write(&mut self, name: &str, bytes: &[u8]) -> Result<(), StoreErr>
        ensures written { OnOk result (files self.new ≡ with_file (files self.old) name.now bytes.now) }
        ensures cut { OnErr result (KeepsOrCuts (files self.old) name.now bytes.now (files self.new)) }

        ensures only_failed { IsOkUnless result StoreErr.Failed }
        ensures failed { OnErr result (HasRisen (write_faults self.old) (write_faults self.new)) }

        ensures never_falls { write_faults self.old ≤ write_faults self.new }
        ensures read_faults { read_faults self.new ≡ read_faults self.old };
}
