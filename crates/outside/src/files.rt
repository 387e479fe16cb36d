// The files that a run reads and writes.

ghost use Rattle.std.specs.Prelude.{◌≡◌, ◌≢◌, ◌≤◌, ◌<◌, ◌-◌, ◌^◌, ℕ, Option, length, Err, IfOk, OnOk, IsErrOf, IsTrue};
ghost use Rattle.outside.specs.Contents.{IsLongerAt, IsNotLongerAt, Paths, SameElsewhere, StandsAt, TellsPresence};
ghost use Rattle.outside.specs.Counts.{Rose};

use std::alloc::Global;
use thiserror::Error;

/// Why a file was not read or written.
#[derive(Clone, Copy, Debug, PartialEq, Eq, Error)]
pub enum FileFault {
    /// No memory was found for the bytes.
    #[error("out of memory")]
    Memory,
    /// More bytes stand at the path than the reader takes.
    #[error("too long")]
    TooLong,
    /// The path could not be read or written.
    #[error("failed")]
    Failed,
}

/// A path, and the bytes that stand there.
#[derive(Drop)]
pub struct Entry {
    pub path: String,
    pub bytes: Vec<u8>,
}

/// The files that a run reads and writes, by their paths.
pub trait Files {
    // The bytes at each path, where they are told.
    ghost contents: { Self → Option Paths };

    // How many calls failed.
    ghost faults: { Self → ℕ };

    // How many writes failed.
    ghost write_faults: { Self → ℕ };

    // How often something was seen at a path.
    ghost seen: { Self → ℕ };

    /// The bytes at the path, at most `limit` of them. Want of memory may stand in place of every answer.
    fn read(&mut self, alloc: Global, path: &str, limit: u64) -> Result<Vec<u8>, FileFault>
        ensures same { contents self.new ≡ contents self.old }
        ensures bytes { IfOk result (λ v. StandsAt (contents self.old) path.now v.items) }
        ensures limited { IfOk result (λ v. length v.items ≤ limit) }

        // TooLong comes exactly where the bytes are more than the limit.
        ensures longer { IsErrOf result FileFault.TooLong → IsLongerAt (contents self.old) path.now limit }
        ensures ok_not_longer { OnOk result (IsNotLongerAt (contents self.old) path.now limit) }
        ensures failed_not_longer { IsErrOf result FileFault.Failed → IsNotLongerAt (contents self.old) path.now limit }
        ensures longer_limited { IsErrOf result FileFault.TooLong → limit < 2 ^ 64 - 1 }

        ensures failed { IsErrOf result FileFault.Failed → Rose (faults self.old) (faults self.new) }
        ensures faults { faults self.old ≤ faults self.new }
        ensures write_faults { write_faults self.new ≡ write_faults self.old }
        ensures seen { seen self.old ≤ seen self.new }
        ensures bounded { (faults self.new < 2 ^ 64) × (write_faults self.new < 2 ^ 64) × (seen self.new < 2 ^ 64) };

    /// Puts the bytes at the path, in place of what stood there. After `Failed` the path may hold any bytes; after
    /// want of memory each path is as before.
    fn write(&mut self, alloc: Global, path: &str, bytes: &[u8]) -> Result<(), FileFault>
        ensures bytes { OnOk result (StandsAt (contents self.new) path.now bytes.now) }
        ensures elsewhere { SameElsewhere (contents self.old) (contents self.new) path.now }
        ensures memory { IsErrOf result FileFault.Memory → contents self.new ≡ contents self.old }
        ensures never_longer { result ≢ Err FileFault.TooLong }

        ensures failed { IsErrOf result FileFault.Failed → Rose (faults self.old) (faults self.new) }
        ensures write_failed { IsErrOf result FileFault.Failed → Rose (write_faults self.old) (write_faults self.new) }
        ensures faults { faults self.old ≤ faults self.new }
        ensures write_faults { write_faults self.old ≤ write_faults self.new }
        ensures seen { seen self.old ≤ seen self.new }
        ensures bounded { (faults self.new < 2 ^ 64) × (write_faults self.new < 2 ^ 64) × (seen self.new < 2 ^ 64) };

    /// Whether something stands at the path.
    fn exists(&mut self, path: &str) -> bool
        ensures same { contents self.new ≡ contents self.old }
        ensures there { TellsPresence (contents self.old) path.now result }
        ensures saw { IsTrue result → Rose (seen self.old) (seen self.new) }

        ensures faults { faults self.old ≤ faults self.new }
        ensures write_faults { write_faults self.new ≡ write_faults self.old }
        ensures seen { seen self.old ≤ seen self.new }
        ensures bounded { (faults self.new < 2 ^ 64) × (write_faults self.new < 2 ^ 64) × (seen self.new < 2 ^ 64) };
}
