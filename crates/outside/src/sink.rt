// What takes the bytes that are printed, as the code above sees it.
ghost use Rattle.std.specs.Prelude.{ℕ, ◌≤◌, Option, List, OnOk, OnErr};
ghost use Rattle.outside.specs.Faults.{HasRisen};
ghost use Rattle.outside.specs.Written.{GrewBy, GrewByPrefix};

/// A put failed, and the sink counted a fault.
#[derive(Clone, Copy)]
pub struct SinkFailed;

/// What takes bytes in order, and counts its faults.
pub trait Sink {
    /// All that was put, where the sink tells.
    ghost written: { Self → Option (List ℕ) };

    /// How many puts have failed. It never falls, and stops at its last value.
    ghost faults: { Self → ℕ };

    /// Puts the bytes behind what was put before. Where it fails, some of them may have been put,
    /// from their front.
    fn put(&mut self, bytes: &[u8]) -> Result<(), SinkFailed>
        ensures written { OnOk result (GrewBy (written self.old) bytes.now (written self.new)) }
        ensures cut { OnErr result (GrewByPrefix (written self.old) bytes.now (written self.new)) }
        ensures failed { OnErr result (HasRisen (faults self.old) (faults self.new)) }
        ensures never_falls { faults self.old ≤ faults self.new };
}
