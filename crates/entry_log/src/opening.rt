//! How a log is opened.

ghost use Rattle.std.specs.Prelude.{◌≡◌, ◌≤◌, ℕ, List, Some, IfOk, OnOk, IsErrOf, length, take, drop};
ghost use Rattle.disk_image.specs.Crashes.{CrashCondition, IsDurable};
ghost use Rattle.entry_log.specs.Kept.{IsEarlierOr, IsStill, Keeps};
ghost use Rattle.entry_log.specs.Logs.{HasEntries, IsLog, IsNoLog, bodies_of};
ghost use Rattle.entry_log.specs.Looks.{LeftAlone};
ghost use Rattle.outside.specs.Counts.{Rose};

use crate::fault::LogFault;
use crate::kept::write_kept;
use crate::log::Log;
use crate::read::read_log;
use disk_image::{Disk, DiskFault};
use std::alloc::Global;

// How many bytes are read at once.
const PIECE: u32 = 1_048_576;

// The length of the disk.
fn length_of<D: Disk>(disk: &mut D) -> Result<u64, DiskFault>
    ensures len { IfOk result (λ n. (file : List ℕ) → D.content disk.old ≡ Some file → n ≡ length file) }
    ensures looked { LeftAlone D.content D.crash_image D.clock D.image_since D.faults disk.old disk.new }
    ensures failed { IsErrOf result DiskFault.Failed → Rose (D.faults disk.old) (D.faults disk.new) }
{
    disk.len()
}

// The next piece behind what was read.
fn piece_at<D: Disk>(alloc: Global, disk: &mut D, at: u64) -> Result<Vec<u8>, DiskFault>
    ensures part { IfOk result (λ part. (file : List ℕ) → D.content disk.old ≡ Some file → part.items ≡ take PIECE (drop at file)) }
    ensures looked { LeftAlone D.content D.crash_image D.clock D.image_since D.faults disk.old disk.new }
    ensures failed { IsErrOf result DiskFault.Failed → Rose (D.faults disk.old) (D.faults disk.new) }
{
    disk.read(alloc, at, PIECE)
}

// All bytes of the disk.
fn read_all<D: Disk>(alloc: Global, disk: &mut D) -> Result<Vec<u8>, DiskFault>
    ensures bytes { IfOk result (λ v. (file : List ℕ) → D.content disk.old ≡ Some file → v.items ≡ file) }
    ensures looked { LeftAlone D.content D.crash_image D.clock D.image_since D.faults disk.old disk.new }
    ensures failed { IsErrOf result DiskFault.Failed → Rose (D.faults disk.old) (D.faults disk.new) }
{
    let len = length_of(disk)?;
    let mut all = Vec::new(alloc);
    while (all.len() as u64) < len {
        let part = piece_at(alloc, disk, all.len() as u64)?;
        if part.is_empty() {
            return Ok(all);
        }
        all.extend_from_slice(part.as_slice())?;
    }
    Ok(all)
}

// Keeps what was written.
fn keep_all<D: Disk>(disk: &mut D) -> Result<(), DiskFault>
    ensures durable { OnOk result ((file : List ℕ) → D.content disk.old ≡ Some file → IsDurable file (D.crash_image disk.new)) }
    ensures looked { LeftAlone D.content D.crash_image D.clock D.image_since D.faults disk.old disk.new }
    ensures failed { IsErrOf result DiskFault.Failed → Rose (D.faults disk.old) (D.faults disk.new) }
{
    disk.sync()
}

// All bytes of the disk, which are durable from then on.
fn read_durable<D: Disk>(alloc: Global, disk: &mut D) -> Result<Vec<u8>, DiskFault>
    ensures bytes { IfOk result (λ v. (file : List ℕ) → D.content disk.old ≡ Some file → v.items ≡ file) }
    ensures durable { OnOk result ((file : List ℕ) → D.content disk.old ≡ Some file → IsDurable file (D.crash_image disk.new)) }
    ensures looked { LeftAlone D.content D.crash_image D.clock D.image_since D.faults disk.old disk.new }
    ensures failed { IsErrOf result DiskFault.Failed → Rose (D.faults disk.old) (D.faults disk.new) }
{
    keep_all(disk)?;
    read_all(alloc, disk)
}

// Closes the gate of a log of one byte where it is open. So an entry that is staged behind it doesn't count.
fn close_gate<D: Disk>(disk: &mut D, bytes: &[u8]) -> Result<(), DiskFault>
    ensures crash { D.content disk.old ≡ Some bytes.now → IsDurable bytes.now (D.crash_image disk.old) → CrashCondition D.clock D.image_since disk.old disk.new (IsStill bytes.now) }
    ensures kept { OnOk result ((gate : ℕ) (bodies : List (List ℕ)) → D.content disk.old ≡ Some bytes.now → IsDurable bytes.now (D.crash_image disk.old) → IsLog bytes.now bodies gate → Keeps (D.content disk.new) (D.crash_image disk.new) gate bodies) }
    ensures failed { IsErrOf result DiskFault.Failed → Rose (D.faults disk.old) (D.faults disk.new) }
    ensures faults { D.faults disk.old ≤ D.faults disk.new }
{
    match bytes {
        [1] => write_kept(disk, 0, &[0]),
        _ => Ok(()),
    }
}

impl Log {
    /// The log on a disk, and the bodies of its entries in order, whatever happened to the disk before: what was written
    /// and isn't durable yet is kept first. `NotLog` exactly where the disk reads as no log. At `Err` the log may be
    /// opened again.
    pub fn open<D: Disk>(alloc: Global, disk: &mut D) -> Result<(Log, Vec<Vec<u8>>), LogFault>
        ensures entries { IfOk result (λ opened. (file : List ℕ) → D.content disk.old ≡ Some file → HasEntries file (bodies_of opened.1.items)) }
        ensures kept { IfOk result (λ opened. (file : List ℕ) → D.content disk.old ≡ Some file → Keeps (D.content disk.new) (D.crash_image disk.new) opened.0 (bodies_of opened.1.items)) }
        ensures not_log { IsErrOf result LogFault.NotLog → (file : List ℕ) → D.content disk.old ≡ Some file → IsNoLog file }

        // A crash in the call leaves what it might have left before, or the entries that the disk reads as.
        ensures crash { (file : List ℕ) → D.content disk.old ≡ Some file → CrashCondition D.clock D.image_since disk.old disk.new (IsEarlierOr (D.crash_image disk.old) file) }

        ensures failed { IsErrOf result LogFault.Disk → Rose (D.faults disk.old) (D.faults disk.new) }
        ensures faults { D.faults disk.old ≤ D.faults disk.new }
    {
        let bytes = read_durable(alloc, disk)?;
        let opened = read_log(alloc, bytes.as_slice())?;
        close_gate(disk, bytes.as_slice())?;
        Ok(opened)
    }
}
