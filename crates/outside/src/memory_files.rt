// Files in memory.

ghost use Rattle.std.specs.Prelude.{◌≡◌, ◌≤◌, ◌<◌, ◌-◌, ◌^◌, ◌↔◌, ◌⊎◌, length, Some, None, Err, IsErrOf, IsTrue, OnOk, OnErr, IfOk, ℕ, List, ◌≢◌, false, is_some, map, option_map};
ghost use Rattle.std.specs.List.{find};
ghost use Rattle.std.specs.Option.{option_copied};
ghost use Rattle.outside.specs.Contents.{IsLongerAt, IsNotLongerAt};
ghost use Rattle.outside.specs.Counts.{Rose, raised};
ghost use Rattle.outside.specs.MemoryFiles.{bytes_of, faults_after, file_of, has_path};
ghost use Rattle.outside.specs.Numbering.{NextFails, after_call};

use crate::files::{Entry, FileFault, Files};
use crate::numbered_calls::NumberedCalls;
use std::alloc::Global;
use std::marker::Model;

/// Files in memory, whose reads and writes fail at the numbered calls. A look takes no number and never fails.
#[derive(Drop)]
pub struct MemoryFiles {
    entries: Vec<Entry>,
    calls: NumberedCalls,
    faults: u64,
    write_faults: u64,
    seen: u64,
}

impl Model for MemoryFiles {
    ghost use Rattle.std.specs.Prelude.{◌<◌, ◌^◌, map};
    ghost use Rattle.outside.specs.MemoryFiles.{FilesState, file_of};

    ghost Value = { FilesState };

    ghost view = { λ s. record { files = map file_of s.entries.items; calls = s.calls; faults = s.faults; write_faults = s.write_faults; seen = s.seen } };

    ghost invariant = { λ s. (s.faults < 2 ^ 64) × (s.write_faults < 2 ^ 64) × (s.seen < 2 ^ 64) };
}

// The first entry with the path.
fn entry_at<'a>(entries: &'a [Entry], path: &str) -> Option<&'a Entry>
    ensures { option_copied result ≡ find (has_path path.now) entries.entry.now }
{
    entries.iter().find(|entry| entry.path.as_str() == path)
}

// The bytes of the first entry with the path.
fn find_bytes<'a>(entries: &'a [Entry], path: &str) -> Option<&'a [u8]>
    ensures { option_map (λ bytes. bytes.now) result ≡ bytes_of (map file_of entries.entry.now) path.now }
{
    match entry_at(entries, path) {
        Some(entry) => Some(entry.bytes.as_slice()),
        None => None,
    }
}

impl MemoryFiles {
    /// The files of these entries, of several with one path the first alone. The reads and writes with these numbers
    /// fail; the first has the number 1.
    pub fn new(entries: Vec<Entry>, failing: Vec<u32>) -> MemoryFiles
        ensures { result ≡ record { files = map file_of entries.items; calls = record { failing = failing.items; made = 0 }; faults = 0; write_faults = 0; seen = 0 } }
    {
        MemoryFiles {
            entries,
            calls: NumberedCalls::new(failing),
            faults: 0,
            write_faults: 0,
            seen: 0,
        }
    }

    /// The bytes at the path, or None where nothing stands there.
    pub fn bytes_at(&self, path: &str) -> Option<&[u8]>
        ensures { option_map (λ bytes. bytes.now) result ≡ bytes_of self.now.files path.now }
    {
        find_bytes(self.entries.as_slice(), path)
    }

    // Counts a call that fails.
    fn fail(&mut self) -> FileFault
        ensures fault { result ≡ FileFault.Failed }
        ensures counted { self.new ≡ record self.old { faults = raised self.old.faults } }
    {
        self.faults = self.faults.saturating_add(1);
        FileFault::Failed
    }
}

impl Files for MemoryFiles {
    ghost contents = { λ s. Some (bytes_of s.files) };

    ghost faults = { λ s. s.faults };

    ghost write_faults = { λ s. s.write_faults };

    ghost seen = { λ s. s.seen };

    fn read(&mut self, alloc: Global, path: &str, limit: u64) -> Result<Vec<u8>, FileFault>
        ensures same { self.new.files ≡ self.old.files }
        ensures bytes { IfOk result (λ v. bytes_of self.old.files path.now ≡ Some v.items) }
        ensures limited { IfOk result (λ v. length v.items ≤ limit) }
        ensures longer { IsErrOf result FileFault.TooLong ↔ IsLongerAt (Some (bytes_of self.old.files)) path.now limit }
        ensures ok_not_longer { OnOk result (IsNotLongerAt (Some (bytes_of self.old.files)) path.now limit) }
        ensures failed_not_longer { IsErrOf result FileFault.Failed → IsNotLongerAt (Some (bytes_of self.old.files)) path.now limit }
        ensures longer_limited { IsErrOf result FileFault.TooLong → limit < 2 ^ 64 - 1 }

        // It fails where nothing stands at the path, and at the numbered calls, where what stands there isn't too long.
        ensures absent { bytes_of self.old.files path.now ≡ None → IsErrOf result FileFault.Failed }
        ensures numbered { NextFails self.old.calls → IsErrOf result FileFault.Failed ⊎ IsErrOf result FileFault.TooLong }
        ensures only_then { IsErrOf result FileFault.Failed → (bytes_of self.old.files path.now ≡ None) ⊎ NextFails self.old.calls }
        ensures calls { self.new.calls ≡ after_call self.old.calls }

        ensures failed { IsErrOf result FileFault.Failed → Rose self.old.faults self.new.faults }
        ensures steady { self.new.faults ≡ faults_after result self.old.faults }
        ensures faults { self.old.faults ≤ self.new.faults }
        ensures write_faults { self.new.write_faults ≡ self.old.write_faults }
        ensures seen { self.new.seen ≡ self.old.seen }
        ensures bounded { (self.new.faults < 2 ^ 64) × (self.new.write_faults < 2 ^ 64) × (self.new.seen < 2 ^ 64) }
    {
        let fails = self.calls.next_fails();
        let Some(bytes) = self.bytes_at(path) else {
            return Err(self.fail());
        };
        if bytes.len() as u64 > limit {
            return Err(FileFault::TooLong);
        }
        if fails {
            return Err(self.fail());
        }
        match Vec::from_slice(alloc, bytes) {
            Ok(copy) => Ok(copy),
            Err(_) => Err(FileFault::Memory),
        }
    }

    fn write(&mut self, alloc: Global, path: &str, bytes: &[u8]) -> Result<(), FileFault>
        ensures bytes { OnOk result (bytes_of self.new.files path.now ≡ Some bytes.now) }
        ensures elsewhere { (other : List ℕ) → other ≢ path.now → bytes_of self.new.files other ≡ bytes_of self.old.files other }
        ensures err { OnErr result (self.new.files ≡ self.old.files) }
        ensures memory { IsErrOf result FileFault.Memory → self.new.files ≡ self.old.files }
        ensures never_longer { result ≢ Err FileFault.TooLong }

        // It fails at the numbered calls alone.
        ensures numbered { IsErrOf result FileFault.Failed ↔ NextFails self.old.calls }
        ensures calls { self.new.calls ≡ after_call self.old.calls }

        ensures failed { IsErrOf result FileFault.Failed → Rose self.old.faults self.new.faults }
        ensures write_failed { IsErrOf result FileFault.Failed → Rose self.old.write_faults self.new.write_faults }
        ensures steady { self.new.faults ≡ faults_after result self.old.faults }
        ensures write_steady { self.new.write_faults ≡ faults_after result self.old.write_faults }
        ensures faults { self.old.faults ≤ self.new.faults }
        ensures write_faults { self.old.write_faults ≤ self.new.write_faults }
        ensures seen { self.new.seen ≡ self.old.seen }
        ensures bounded { (self.new.faults < 2 ^ 64) × (self.new.write_faults < 2 ^ 64) × (self.new.seen < 2 ^ 64) }
    {
        if self.calls.next_fails() {
            self.write_faults = self.write_faults.saturating_add(1);
            return Err(self.fail());
        }
        let Ok(copy) = Vec::from_slice(alloc, bytes) else {
            return Err(FileFault::Memory);
        };
        let Ok(name) = String::from_str(alloc, path) else {
            return Err(FileFault::Memory);
        };
        let entry = Entry {
            path: name,
            bytes: copy,
        };
        // Of several entries with one path the first counts.
        match self.entries.insert(0, entry) {
            Ok(()) => Ok(()),
            Err(_) => Err(FileFault::Memory),
        }
    }

    fn exists(&mut self, path: &str) -> bool
        ensures same { self.new.files ≡ self.old.files }
        ensures there { result ≡ is_some (bytes_of self.old.files path.now) }
        ensures saw { IsTrue result → Rose self.old.seen self.new.seen }
        ensures saw_nothing { result ≡ false → self.new.seen ≡ self.old.seen }

        // It takes no number.
        ensures calls { self.new.calls ≡ self.old.calls }

        ensures faults { self.new.faults ≡ self.old.faults }
        ensures write_faults { self.new.write_faults ≡ self.old.write_faults }
        ensures seen { self.old.seen ≤ self.new.seen }
        ensures bounded { (self.new.faults < 2 ^ 64) × (self.new.write_faults < 2 ^ 64) × (self.new.seen < 2 ^ 64) }
    {
        let there = self.bytes_at(path).is_some();
        if there {
            self.seen = self.seen.saturating_add(1);
        }
        there
    }
}
