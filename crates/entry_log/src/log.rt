//! A log of entries on a disk.

ghost use Rattle.std.specs.Prelude.{◌≡◌, ◌≢◌, ◌⊎◌, ◌++◌, ◌≤◌, ◌<◌, ◌^◌, [], ◌∷◌, ℕ, List, Some, Err, IfOk, OnOk, OnErr, IsErrOf, length};
ghost use Rattle.std.specs.Int.{w64};
ghost use Rattle.byte_frame.specs.Frames.{frame_text};
ghost use Rattle.byte_frame.specs.Spelling.{sized_text};
ghost use Rattle.disk_image.specs.Changes.{Torn, written};
ghost use Rattle.disk_image.specs.Crashes.{CrashCondition, IsDurable};
ghost use Rattle.entry_log.specs.Kept.{IsBeforeOrAfter, IsEmptyOr, Keeps};
ghost use Rattle.entry_log.specs.Logs.{FitsBody, HasEntries, entry_frame};
ghost use Rattle.outside.specs.Counts.{Rose};

use crate::fault::LogFault;
use crate::kept::write_kept;
use byte_frame::{FrameHead, put_bytes, put_frame, put_u8, put_u64};
use disk_image::{Disk, DiskFault};
use std::alloc::{AllocError, Global};
use std::marker::Model;

const HEAD: FrameHead = FrameHead {
    version: 2,
    task: [0; 32],
};

/// A log on a disk, seen as the place of its closed gate. It holds neither the disk nor the entries.
#[derive(Drop)]
pub struct Log {
    gate: u64,
}

impl Model for Log {
    ghost use Rattle.std.specs.Prelude.{ℕ};

    ghost Value = { ℕ };

    ghost view = { λ l. l.gate };
}

// What an entry is behind its gate, and a closed gate behind that.
fn staged(alloc: Global, body: &[u8]) -> Result<Vec<u8>, AllocError>
    ensures text { IfOk result (λ v. v.items ≡ sized_text w64 (frame_text (entry_frame body.now)) ++ 0 ∷ []) }
    ensures fits { OnOk result (FitsBody body.now) }
{
    let frame = put_frame(alloc, &HEAD, body)?;
    let mut staged = Vec::new(alloc);
    put_u64(&mut staged, frame.len() as u64)?;
    put_bytes(&mut staged, frame.as_slice())?;
    put_u8(&mut staged, 0)?;
    Ok(staged)
}

// Keeps a staged entry behind the closed gate, where it doesn't count yet.
fn stage<D: Disk>(disk: &mut D, behind: u64, entry: &[u8]) -> Result<(), DiskFault>
    ensures kept { OnOk result ((file : List ℕ) → D.content disk.old ≡ Some file → (D.content disk.new ≡ Some (written behind entry.now file)) × IsDurable (written behind entry.now file) (D.crash_image disk.new)) }
    ensures crash { (file : List ℕ) → D.content disk.old ≡ Some file → IsDurable file (D.crash_image disk.old) → CrashCondition D.clock D.image_since disk.old disk.new (Torn (length file) behind (length entry.now) file) }
    ensures failed { IsErrOf result DiskFault.Failed → Rose (D.faults disk.old) (D.faults disk.new) }
    ensures faults { D.faults disk.old ≤ D.faults disk.new }
{
    write_kept(disk, behind, entry)
}

// Opens the gate, so that the entry behind it counts, and keeps it open.
fn unlock<D: Disk>(disk: &mut D, gate: u64) -> Result<(), DiskFault>
    ensures kept { OnOk result ((file : List ℕ) → D.content disk.old ≡ Some file → (D.content disk.new ≡ Some (written gate (1 ∷ []) file)) × IsDurable (written gate (1 ∷ []) file) (D.crash_image disk.new)) }
    ensures crash { (file : List ℕ) → D.content disk.old ≡ Some file → IsDurable file (D.crash_image disk.old) → CrashCondition D.clock D.image_since disk.old disk.new (Torn (length file) gate 1 file) }
    ensures failed { IsErrOf result DiskFault.Failed → Rose (D.faults disk.old) (D.faults disk.new) }
    ensures faults { D.faults disk.old ≤ D.faults disk.new }
{
    write_kept(disk, gate, &[1])
}

impl Log {
    /// The log whose closed gate stands at this place.
    pub(crate) fn at(gate: u64) -> Log
        ensures { result ≡ gate }
    {
        Log { gate }
    }

    /// The log without entries, on a disk without bytes. Where all of the disk was kept, a crash at any moment of the
    /// call leaves no bytes or that log.
    pub fn create<D: Disk>(disk: &mut D) -> Result<Log, LogFault>
        ensures kept { IfOk result (λ log. D.content disk.old ≡ Some [] → Keeps (D.content disk.new) (D.crash_image disk.new) log []) }
        ensures crash { D.content disk.old ≡ Some [] → IsDurable [] (D.crash_image disk.old) → CrashCondition D.clock D.image_since disk.old disk.new IsEmptyOr }
        ensures always_log { result ≢ Err LogFault.NotLog }
        ensures failed { IsErrOf result LogFault.Disk → Rose (D.faults disk.old) (D.faults disk.new) }
        ensures faults { D.faults disk.old ≤ D.faults disk.new }
    {
        write_kept(disk, 0, &[0])?;
        Ok(Log { gate: 0 })
    }

    /// Adds an entry with this body behind the others. From `Ok` on the entry is there after every crash. At `Err` it
    /// may be there or not: then the log is opened again.
    pub fn append<D: Disk>(
        &mut self,
        alloc: Global,
        disk: &mut D,
        body: &[u8],
    ) -> Result<(), LogFault>
        ensures durable { OnOk result ((bodies : List (List ℕ)) → Keeps (D.content disk.old) (D.crash_image disk.old) self.old bodies → Keeps (D.content disk.new) (D.crash_image disk.new) self.new (bodies ++ body.now ∷ [])) }

        // A crash at any moment of the call leaves the log from before it, or that with the entry.
        ensures crash { (bodies : List (List ℕ)) → Keeps (D.content disk.old) (D.crash_image disk.old) self.old bodies → CrashCondition D.clock D.image_since disk.old disk.new (IsBeforeOrAfter bodies body.now) }

        // So does the disk as it reads then, whatever the answer.
        ensures reads { (bodies : List (List ℕ)) (bytes : List ℕ) → Keeps (D.content disk.old) (D.crash_image disk.old) self.old bodies → D.content disk.new ≡ Some bytes → IsBeforeOrAfter bodies body.now bytes }

        ensures always_log { result ≢ Err LogFault.NotLog }
        ensures failed { IsErrOf result LogFault.Disk → Rose (D.faults disk.old) (D.faults disk.new) }
        ensures faults { D.faults disk.old ≤ D.faults disk.new }
    {
        self.add(alloc, disk, body)
    }

    // Adds an entry, of which `append` says more.
    fn add<D: Disk>(&mut self, alloc: Global, disk: &mut D, body: &[u8]) -> Result<(), LogFault>
        ensures durable { OnOk result ((bodies : List (List ℕ)) → Keeps (D.content disk.old) (D.crash_image disk.old) self.old bodies → Keeps (D.content disk.new) (D.crash_image disk.new) self.new (bodies ++ body.now ∷ [])) }
        ensures crash { (bodies : List (List ℕ)) → Keeps (D.content disk.old) (D.crash_image disk.old) self.old bodies → CrashCondition D.clock D.image_since disk.old disk.new (IsBeforeOrAfter bodies body.now) }
        ensures always_log { result ≢ Err LogFault.NotLog }
        ensures failed { IsErrOf result LogFault.Disk → Rose (D.faults disk.old) (D.faults disk.new) }
        ensures faults { D.faults disk.old ≤ D.faults disk.new }
    {
        let entry = staged(alloc, body)?;
        let Some(next) = self.gate.checked_add(entry.len() as u64) else {
            return Err(LogFault::Memory);
        };
        stage(disk, self.gate + 1, entry.as_slice())?;
        unlock(disk, self.gate)?;
        self.gate = next;
        Ok(())
    }
}
