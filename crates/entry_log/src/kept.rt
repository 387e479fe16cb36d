//! One write that is kept before the call answers.

ghost use Rattle.std.specs.Prelude.{◌≡◌, ◌≤◌, ◌<◌, ◌^◌, ℕ, List, Some, length, OnOk, IsErrOf};
ghost use Rattle.disk_image.specs.Changes.{Torn, written};
ghost use Rattle.disk_image.specs.Crashes.{CrashCondition, IsDurable};
ghost use Rattle.outside.specs.Counts.{Rose};

use disk_image::{Disk, DiskFault};

/// Writes the bytes at this place, and keeps them.
pub fn write_kept<D: Disk>(disk: &mut D, at: u64, bytes: &[u8]) -> Result<(), DiskFault>
    ensures kept { OnOk result ((file : List ℕ) → D.content disk.old ≡ Some file → (D.content disk.new ≡ Some (written at bytes.now file)) × IsDurable (written at bytes.now file) (D.crash_image disk.new)) }

    // Where all of the file was kept, a crash at any moment of the call leaves what it may make of one write.
    ensures crash { (file : List ℕ) → D.content disk.old ≡ Some file → IsDurable file (D.crash_image disk.old) → CrashCondition D.clock D.image_since disk.old disk.new (Torn (length file) at (length bytes.now) file) }

    ensures failed { IsErrOf result DiskFault.Failed → Rose (D.faults disk.old) (D.faults disk.new) }
    ensures faults { D.faults disk.old ≤ D.faults disk.new }
    ensures bounded { D.faults disk.new < 2 ^ 64 }
{
    disk.write_at(at, bytes)?;
    disk.sync()
}
