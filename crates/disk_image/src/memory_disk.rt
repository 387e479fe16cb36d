//! A disk in memory.

ghost use Rattle.std.specs.Prelude.{◌≡◌, ◌≤◌, ◌<◌, ◌^◌, ◌↔◌, [], ◌∷◌, Some, Err, length, take, drop, IfOk, OnOk, OnErr, IsErrOf, IsTrue};
ghost use Rattle.outside.specs.Counts.{Rose, raised};
ghost use Rattle.outside.specs.Numbering.{NextFails, after_call};
ghost use Rattle.disk_image.specs.Changes.{CutShort, Torn, written};
ghost use Rattle.disk_image.specs.Crashes.{PassesTime, ImagesBy, IsDurable, NoNewImage};

use crate::disk::Disk;
use crate::fault::DiskFault;
use crate::record::{Call, Change, Fill};
use crate::replay::{part_of, replayed, stopped_file};
use std::alloc::{AllocError, Global};
use std::marker::Model;

/// A disk in memory, whose calls fail at will. It keeps a record of its calls, from which it tells what a stop behind
/// any of them leaves; what it reads as is made from the record at each call.
#[derive(Drop)]
pub struct MemoryDisk {
    alloc: Global,
    start: Vec<u8>,
    calls: Vec<Call>,
    failing: Vec<u32>,
    made: u64,
    faults: u64,
}

impl Model for MemoryDisk {
    ghost use Rattle.std.specs.Prelude.{◌<◌, ◌^◌};
    ghost use Rattle.disk_image.specs.MemoryDisk.{DiskState, latest_first};

    ghost Value = { DiskState };

    ghost view = { λ d. record { start = d.start.items; calls = latest_first d.calls.items; numbered = record { failing = d.failing.items; made = d.made }; faults = d.faults } };

    ghost invariant = { λ d. d.faults < 2 ^ 64 };
}

impl MemoryDisk {
    ghost use Rattle.disk_image.specs.MemoryDisk.{Changed, IsCalled, IsRefused, IsSettled, Looked, CrashImage, Refused, Synced, Writes, call_of, calls_until, change_of, content_of, reads_as, stopped};

    /// A disk with these bytes, all of them kept, whose calls with these numbers fail; the first has the number 1.
    pub fn new(alloc: Global, bytes: Vec<u8>, failing: Vec<u32>) -> MemoryDisk
        ensures { result ≡ record { start = bytes.items; calls = []; numbered = record { failing = failing.items; made = 0 }; faults = 0 } }
    {
        MemoryDisk {
            alloc,
            start: bytes,
            calls: Vec::new(alloc),
            failing,
            made: 0,
            faults: 0,
        }
    }

    /// How many calls the record has. A call for which no memory was found isn't in it.
    pub fn call_count(&self) -> usize
        ensures { result ≡ length self.now.calls }
    {
        self.calls.len()
    }

    /// What a read gives now.
    pub fn bytes(&self) -> Result<Vec<u8>, AllocError>
        ensures { IfOk result (λ bytes. bytes.items ≡ reads_as self.now.start self.now.calls) }
    {
        replayed(self.alloc, self.start.as_slice(), self.calls.as_slice())
    }

    // What a stop leaves behind the first calls of the record.
    fn stopped_behind(&self, call: u32, fill: Fill) -> Result<Vec<u8>, AllocError>
        ensures { IfOk result (λ image. image.items ≡ stopped fill self.now.start (calls_until call self.now.calls)) }
    {
        let (calls, _later) = self
            .calls
            .as_slice()
            .split_at(self.calls.len().min(call as usize));
        stopped_file(self.alloc, self.start.as_slice(), calls, fill)
    }

    /// What a stop leaves behind the first `call` calls of the record, all where there are fewer, with this in the place
    /// of what wasn't kept yet.
    pub fn after_stop(&self, call: u32, fill: Fill) -> Result<Vec<u8>, AllocError>
        ensures stopped { IfOk result (λ image. image.items ≡ stopped fill self.now.start (calls_until call self.now.calls)) }

        // It is one of the images that a crash there may leave.
        ensures left { IfOk result (λ image. CrashImage self.now.start (calls_until call self.now.calls) image.items) }
    {
        self.stopped_behind(call, fill)
    }

    // Counts a call, and says whether it is one that fails.
    fn next_fails(&mut self) -> bool
        ensures counted { self.new ≡ record self.old { numbered = after_call self.old.numbered } }
        ensures fails { IsTrue result ↔ NextFails self.old.numbered }
        ensures was_bounded { self.old.faults < 2 ^ 64 }
        ensures bounded { self.new.faults < 2 ^ 64 }
    {
        self.made = self.made.saturating_add(1);
        self.failing
            .iter()
            .any(|number| u64::from(*number) == self.made)
    }

    // Puts a call into the record.
    fn keep(&mut self, call: Call) -> Result<(), DiskFault>
        ensures kept { OnOk result (self.new ≡ record self.old { calls = call_of call ∷ self.old.calls }) }
        ensures unkept { OnErr result (self.new ≡ self.old) }
        ensures memory { OnErr result (result ≡ Err DiskFault.Memory) }
    {
        self.calls.push(call)?;
        Ok(())
    }

    // Counts a call that failed.
    fn fail(&mut self) -> DiskFault
        ensures fault { result ≡ DiskFault.Failed }
        ensures counted { self.new ≡ record self.old { faults = raised self.old.faults } }
    {
        self.faults = self.faults.saturating_add(1);
        DiskFault::Failed
    }

    // Puts a call that fails into the record.
    fn refuse(&mut self, call: Call) -> DiskFault
        ensures { IsRefused (call_of call) result self.old self.new }
    {
        match self.keep(call) {
            Ok(()) => self.fail(),
            Err(fault) => fault,
        }
    }

    // The length of the file, which the record keeps as a look.
    fn look_at_length(&mut self) -> Result<u64, DiskFault>
        ensures called { IsCalled Looked Looked result self.old self.new }
        ensures len { IfOk result (λ n. n ≡ length (content_of self.old)) }
        ensures was_bounded { self.old.faults < 2 ^ 64 }
        ensures bounded { self.new.faults < 2 ^ 64 }
    {
        if self.next_fails() {
            return Err(self.refuse(Call::Looked));
        }
        let n = self.bytes()?.len();
        self.keep(Call::Looked)?;
        Ok(n as u64)
    }

    // A part of the file, which the record keeps as a look.
    fn look_at_part(&mut self, alloc: Global, at: usize, n: usize) -> Result<Vec<u8>, DiskFault>
        ensures called { IsCalled Looked Looked result self.old self.new }
        ensures part { IfOk result (λ part. part.items ≡ take n (drop at (content_of self.old))) }
        ensures was_bounded { self.old.faults < 2 ^ 64 }
        ensures bounded { self.new.faults < 2 ^ 64 }
    {
        if self.next_fails() {
            return Err(self.refuse(Call::Looked));
        }
        let file = self.bytes()?;
        let part = part_of(alloc, file.as_slice(), at, n)?;
        self.keep(Call::Looked)?;
        Ok(part)
    }

    // A write, which the record keeps as made, or as refused where the call fails.
    fn write(&mut self, at: u64, bytes: &[u8]) -> Result<(), DiskFault>
        ensures called { IsCalled (Changed (Writes at bytes.now)) (Refused (Writes at bytes.now)) result self.old self.new }
        ensures was_bounded { self.old.faults < 2 ^ 64 }
        ensures bounded { self.new.faults < 2 ^ 64 }
    {
        let fails = self.next_fails();
        let bytes = Vec::from_slice(self.alloc, bytes)?;
        self.settle(Change::Write { at, bytes }, fails)
    }

    // Puts a change into the record, as made or as refused.
    fn settle(&mut self, change: Change, fails: bool) -> Result<(), DiskFault>
        ensures { IsSettled fails (change_of change) result self.old self.new }
    {
        if fails {
            return Err(self.refuse(Call::Refused(change)));
        }
        self.keep(Call::Changed(change))
    }

    // A change, which the record keeps as made, or as refused where the call fails.
    fn change(&mut self, change: Change) -> Result<(), DiskFault>
        ensures called { IsCalled (Changed (change_of change)) (Refused (change_of change)) result self.old self.new }
        ensures was_bounded { self.old.faults < 2 ^ 64 }
        ensures bounded { self.new.faults < 2 ^ 64 }
    {
        let fails = self.next_fails();
        self.settle(change, fails)
    }

    // A sync, which the record keeps as a look where the call fails.
    fn keep_all(&mut self) -> Result<(), DiskFault>
        ensures called { IsCalled Synced Looked result self.old self.new }
        ensures was_bounded { self.old.faults < 2 ^ 64 }
        ensures bounded { self.new.faults < 2 ^ 64 }
    {
        if self.next_fails() {
            return Err(self.refuse(Call::Looked));
        }
        self.keep(Call::Synced)
    }
}

impl Disk for MemoryDisk {
    ghost use Rattle.disk_image.specs.MemoryDisk.{Changed, Cuts, IsCalled, CrashImageSinceThen, Looked, CrashImageNow, Refused, Synced, Writes, content_of, clock_of};
    ghost use Rattle.disk_image.specs.MemoryLaws.{now_is_since, content_is_image, since_now_is_now};

    ghost content = { λ d. Some (content_of d) };

    ghost crash_image = { λ d. CrashImageNow d };

    ghost clock = { λ d. clock_of d };

    ghost image_since = { λ d. CrashImageSinceThen d };

    ghost faults = { λ d. d.faults };

    ghost content_is_image = { λ d bytes is. content_is_image d.start d.calls bytes is };

    ghost now_is_since = { λ d t image earlier left. now_is_since d.start d.calls t image earlier left };

    ghost since_now_is_now = { λ d image since. since_now_is_now d.start d.calls image since };

    fn len(&mut self) -> Result<u64, DiskFault>
        ensures len { IfOk result (λ n. n ≡ length (content_of self.old)) }

        // It fails exactly at the numbered calls, and is recorded unless no memory was found.
        ensures called { IsCalled Looked Looked result self.old self.new }

        ensures same { Some (content_of self.new) ≡ Some (content_of self.old) }
        ensures images { NoNewImage (CrashImageNow self.old) (CrashImageNow self.new) }
        ensures time { PassesTime (clock_of self.old) (clock_of self.new) (CrashImageSinceThen self.old) (CrashImageSinceThen self.new) (CrashImageNow self.new) }
        ensures failed { IsErrOf result DiskFault.Failed → Rose self.old.faults self.new.faults }
        ensures faults { self.old.faults ≤ self.new.faults }
        ensures bounded { self.new.faults < 2 ^ 64 }
    {
        self.look_at_length()
    }

    fn read(&mut self, alloc: Global, at: u64, n: u32) -> Result<Vec<u8>, DiskFault>
        ensures bytes { IfOk result (λ part. part.items ≡ take n (drop at (content_of self.old))) }
        ensures limited { IfOk result (λ part. length part.items ≤ n) }
        ensures called { IsCalled Looked Looked result self.old self.new }
        ensures same { Some (content_of self.new) ≡ Some (content_of self.old) }
        ensures images { NoNewImage (CrashImageNow self.old) (CrashImageNow self.new) }
        ensures time { PassesTime (clock_of self.old) (clock_of self.new) (CrashImageSinceThen self.old) (CrashImageSinceThen self.new) (CrashImageNow self.new) }
        ensures failed { IsErrOf result DiskFault.Failed → Rose self.old.faults self.new.faults }
        ensures faults { self.old.faults ≤ self.new.faults }
        ensures bounded { self.new.faults < 2 ^ 64 }
    {
        self.look_at_part(alloc, at as usize, n as usize)
    }

    fn write_at(&mut self, at: u64, bytes: &[u8]) -> Result<(), DiskFault>
        ensures written { OnOk result (Some (content_of self.new) ≡ Some (written at bytes.now (content_of self.old))) }
        ensures called { IsCalled (Changed (Writes at bytes.now)) (Refused (Writes at bytes.now)) result self.old self.new }
        ensures torn { ImagesBy (Torn (length (content_of self.old)) at (length bytes.now)) (CrashImageNow self.old) (CrashImageNow self.new) }
        ensures memory { IsErrOf result DiskFault.Memory → (Some (content_of self.new) ≡ Some (content_of self.old)) × NoNewImage (CrashImageNow self.old) (CrashImageNow self.new) }
        ensures time { PassesTime (clock_of self.old) (clock_of self.new) (CrashImageSinceThen self.old) (CrashImageSinceThen self.new) (CrashImageNow self.new) }
        ensures failed { IsErrOf result DiskFault.Failed → Rose self.old.faults self.new.faults }
        ensures faults { self.old.faults ≤ self.new.faults }
        ensures bounded { self.new.faults < 2 ^ 64 }
    {
        self.write(at, bytes)
    }

    fn cut(&mut self, len: u64) -> Result<(), DiskFault>
        ensures cut { OnOk result (Some (content_of self.new) ≡ Some (take len (content_of self.old))) }
        ensures called { IsCalled (Changed (Cuts len)) (Refused (Cuts len)) result self.old self.new }
        ensures torn { ImagesBy (CutShort len) (CrashImageNow self.old) (CrashImageNow self.new) }
        ensures memory { IsErrOf result DiskFault.Memory → (Some (content_of self.new) ≡ Some (content_of self.old)) × NoNewImage (CrashImageNow self.old) (CrashImageNow self.new) }
        ensures time { PassesTime (clock_of self.old) (clock_of self.new) (CrashImageSinceThen self.old) (CrashImageSinceThen self.new) (CrashImageNow self.new) }
        ensures failed { IsErrOf result DiskFault.Failed → Rose self.old.faults self.new.faults }
        ensures faults { self.old.faults ≤ self.new.faults }
        ensures bounded { self.new.faults < 2 ^ 64 }
    {
        self.change(Change::Cut(len))
    }

    fn sync(&mut self) -> Result<(), DiskFault>
        ensures kept { OnOk result (IsDurable (content_of self.old) (CrashImageNow self.new)) }
        ensures called { IsCalled Synced Looked result self.old self.new }
        ensures same { Some (content_of self.new) ≡ Some (content_of self.old) }
        ensures images { NoNewImage (CrashImageNow self.old) (CrashImageNow self.new) }
        ensures time { PassesTime (clock_of self.old) (clock_of self.new) (CrashImageSinceThen self.old) (CrashImageSinceThen self.new) (CrashImageNow self.new) }
        ensures failed { IsErrOf result DiskFault.Failed → Rose self.old.faults self.new.faults }
        ensures faults { self.old.faults ≤ self.new.faults }
        ensures bounded { self.new.faults < 2 ^ 64 }
    {
        self.keep_all()
    }
}
