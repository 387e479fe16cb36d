//! A file as its owner sees it: what a read gives, and what a crash may leave.

ghost use Rattle.std.specs.Prelude.{◌≡◌, ◌≤◌, ◌<◌, ◌^◌, ℕ, List, Option, Some, length, take, drop, is_some, option_map, IfSome, IfOk, OnOk, IsErrOf};
ghost use Rattle.outside.specs.Counts.{Rose};
ghost use Rattle.disk_image.specs.Changes.{CutShort, Torn, written};
ghost use Rattle.disk_image.specs.Crashes.{PassesTime, ImagesBy, IsDurable, NoNewImage};

use crate::fault::DiskFault;
use std::alloc::Global;

/// A file on a disk whose power may go at any time. What was written is durable once a sync has answered.
/// Want of memory may stand in place of every answer.
pub trait Disk {
    // What a read gives, where the disk tells it.
    ghost content: { Self → Option (List ℕ) };

    // Its crash images: what a loss of power right now may leave.
    ghost crash_image: { Self → List ℕ → Type 0 };

    // A clock that doesn't go back.
    ghost clock: { Self → ℕ };

    // The crash images since that time: of now, of each call in between, and of all between calls.
    ghost image_since: { Self → ℕ → List ℕ → Type 0 };

    // How many calls failed.
    ghost faults: { Self → ℕ };

    /// How many bytes there are.
    fn len(&mut self) -> Result<u64, DiskFault>
        ensures len { IfOk result (λ n. IfSome (content self.old) (λ bytes. n ≡ length bytes)) }
        ensures same { content self.new ≡ content self.old }
        ensures images { NoNewImage (crash_image self.old) (crash_image self.new) }
        ensures time { PassesTime (clock self.old) (clock self.new) (image_since self.old) (image_since self.new) (crash_image self.new) }
        ensures failed { IsErrOf result DiskFault.Failed → Rose (faults self.old) (faults self.new) }
        ensures faults { faults self.old ≤ faults self.new }
        ensures bounded { faults self.new < 2 ^ 64 };

    /// The bytes from this place on, `n` of them, or fewer where the file ends.
    fn read(&mut self, alloc: Global, at: u64, n: u32) -> Result<Vec<u8>, DiskFault>
        ensures bytes { IfOk result (λ part. IfSome (content self.old) (λ bytes. part.items ≡ take n (drop at bytes))) }
        ensures limited { IfOk result (λ part. length part.items ≤ n) }
        ensures same { content self.new ≡ content self.old }
        ensures images { NoNewImage (crash_image self.old) (crash_image self.new) }
        ensures time { PassesTime (clock self.old) (clock self.new) (image_since self.old) (image_since self.new) (crash_image self.new) }
        ensures failed { IsErrOf result DiskFault.Failed → Rose (faults self.old) (faults self.new) }
        ensures faults { faults self.old ≤ faults self.new }
        ensures bounded { faults self.new < 2 ^ 64 };

    /// Writes the bytes at this place. Until a sync, a crash may leave any bytes there and past the file's old end, also
    /// where the write failed; after `Failed` the file may read as any of these.
    fn write_at(&mut self, at: u64, bytes: &[u8]) -> Result<(), DiskFault>
        ensures written { OnOk result (content self.new ≡ option_map (written at bytes.now) (content self.old)) }
        ensures told { is_some (content self.new) ≡ is_some (content self.old) }
        ensures torn { IfSome (content self.old) (λ file. ImagesBy (Torn (length file) at (length bytes.now)) (crash_image self.old) (crash_image self.new)) }
        ensures memory { IsErrOf result DiskFault.Memory → (content self.new ≡ content self.old) × NoNewImage (crash_image self.old) (crash_image self.new) }
        ensures time { PassesTime (clock self.old) (clock self.new) (image_since self.old) (image_since self.new) (crash_image self.new) }
        ensures failed { IsErrOf result DiskFault.Failed → Rose (faults self.old) (faults self.new) }
        ensures faults { faults self.old ≤ faults self.new }
        ensures bounded { faults self.new < 2 ^ 64 };

    /// Cuts the file to this length; a shorter file stays as it is. Until a sync, a crash may leave any length down to
    /// the new one, also where the cut failed; after `Failed` the file may read as any of these.
    fn cut(&mut self, len: u64) -> Result<(), DiskFault>
        ensures cut { OnOk result (content self.new ≡ option_map (take len) (content self.old)) }
        ensures told { is_some (content self.new) ≡ is_some (content self.old) }
        ensures torn { IfSome (content self.old) (λ file. ImagesBy (CutShort len) (crash_image self.old) (crash_image self.new)) }
        ensures memory { IsErrOf result DiskFault.Memory → (content self.new ≡ content self.old) × NoNewImage (crash_image self.old) (crash_image self.new) }
        ensures time { PassesTime (clock self.old) (clock self.new) (image_since self.old) (image_since self.new) (crash_image self.new) }
        ensures failed { IsErrOf result DiskFault.Failed → Rose (faults self.old) (faults self.new) }
        ensures faults { faults self.old ≤ faults self.new }
        ensures bounded { faults self.new < 2 ^ 64 };

    /// Keeps what was written: after it a crash leaves what a read gives.
    fn sync(&mut self) -> Result<(), DiskFault>
        ensures kept { OnOk result (IfSome (content self.old) (λ bytes. IsDurable bytes (crash_image self.new))) }
        ensures same { content self.new ≡ content self.old }
        ensures images { NoNewImage (crash_image self.old) (crash_image self.new) }
        ensures time { PassesTime (clock self.old) (clock self.new) (image_since self.old) (image_since self.new) (crash_image self.new) }
        ensures failed { IsErrOf result DiskFault.Failed → Rose (faults self.old) (faults self.new) }
        ensures faults { faults self.old ≤ faults self.new }
        ensures bounded { faults self.new < 2 ^ 64 };

    // What a read gives is a crash image.
    ghost content_is_image: { (disk : Self) (bytes : List ℕ) → content disk ≡ Some bytes → crash_image disk bytes };

    // The crash images of now are among those since any earlier time.
    ghost now_is_since: { (disk : Self) (t : ℕ) (image : List ℕ) → t ≤ clock disk → crash_image disk image → image_since disk t image };

    // Since now there are no others.
    ghost since_now_is_now: { (disk : Self) (image : List ℕ) → image_since disk (clock disk) image → crash_image disk image };
}
