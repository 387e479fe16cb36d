// Where a run's output goes.

ghost use Rattle.std.specs.Prelude.{◌≡◌, ◌≤◌, ◌<◌, ◌^◌, ℕ, List, Option, IsErrOf, OnOk};
ghost use Rattle.std.specs.Io.KnownBytes.{append_known};
ghost use Rattle.outside.specs.Counts.{Rose};
ghost use Rattle.outside.specs.Written.{AppendsPart};

use thiserror::Error;

/// Why output was not written.
#[derive(Clone, Copy, Debug, PartialEq, Eq, Error)]
pub enum SinkFault {
    /// No memory was found for the bytes.
    #[error("out of memory")]
    Memory,
    /// The sink could not take all bytes.
    #[error("failed")]
    Failed,
}

/// Where a run's output goes.
pub trait Sink {
    // All that was written, where it is told.
    ghost written: { Self → Option (List ℕ) };

    // How many writes failed.
    ghost faults: { Self → ℕ };

    /// Appends the bytes. After `Failed` a part of them from the front was appended; after want of memory nothing was.
    fn write(&mut self, bytes: &[u8]) -> Result<(), SinkFault>
        ensures ok { OnOk result (written self.new ≡ append_known (written self.old) bytes.now) }
        ensures part { IsErrOf result SinkFault.Failed → AppendsPart (written self.old) (written self.new) bytes.now }
        ensures memory { IsErrOf result SinkFault.Memory → written self.new ≡ written self.old }

        ensures failed { IsErrOf result SinkFault.Failed → Rose (faults self.old) (faults self.new) }
        ensures faults { faults self.old ≤ faults self.new }
        ensures bounded { faults self.new < 2 ^ 64 };
}
