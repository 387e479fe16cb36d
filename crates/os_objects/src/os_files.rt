// The files of the system.

ghost use Rattle.std.specs.Prelude.{◌≡◌, ◌≤◌, ◌<◌, ◌^◌, ◌-◌, ℕ, None, IfOk, IsErrOf, length};
ghost use Rattle.os_objects.specs.Streams.{IsAllOf};

use outside::{FileFault, Files};
use std::alloc::Global;
use std::fs;
use std::io::Read;

/// The files of the system. They tell nothing of what they hold.
#[derive(Drop)]
pub struct OsFiles<'a, R> {
    rt: &'a R,
    faults: u64,
    write_faults: u64,
    seen: u64,
    ghost faults_fit: { faults < 2 ^ 64 },
    ghost write_faults_fit: { write_faults < 2 ^ 64 },
    ghost seen_fit: { seen < 2 ^ 64 },
}

impl<'a, R: std::rt::Files> OsFiles<'a, R> {
    pub fn new(rt: &'a R) -> OsFiles<'a, R> {
        OsFiles {
            rt,
            faults: 0,
            write_faults: 0,
            seen: 0,
        }
    }
}

/// How many bytes one read asks for.
const PIECE: usize = 65_536;

// The bytes that the reader has left, at most `limit` of them. Each turn takes at least one byte, so where the turns
// run out more bytes were taken than a file can have, which is a fault.
fn read_all<I: Read>(alloc: Global, input: &mut I, limit: u64) -> Result<Vec<u8>, FileFault>
    ensures all { IfOk result (λ v. IsAllOf (I.remaining input.old) v.items) }
    ensures limited { IfOk result (λ v. length v.items ≤ limit) }
    ensures longer_limited { IsErrOf result FileFault.TooLong → limit < 2 ^ 64 - 1 }
{
    let mut bytes = Vec::new(alloc);
    let mut piece = [0u8; PIECE];
    for _turn in 0..u64::MAX {
        let Ok(count) = input.read(&mut piece) else {
            return Err(FileFault::Failed);
        };
        if count == 0 {
            return Ok(bytes);
        }
        if (count as u64) > limit.saturating_sub(bytes.len() as u64) {
            return Err(FileFault::TooLong);
        }
        if bytes.extend_from_slice(&piece[..count]).is_err() {
            return Err(FileFault::Memory);
        }
    }
    Err(FileFault::Failed)
}

// The bytes of the file at the path, at most `limit` of them.
fn read_at<R: std::rt::Files>(
    rt: &R,
    alloc: Global,
    path: &str,
    limit: u64,
) -> Result<Vec<u8>, FileFault>
    ensures limited { IfOk result (λ v. length v.items ≤ limit) }
    ensures longer_limited { IsErrOf result FileFault.TooLong → limit < 2 ^ 64 - 1 }
{
    match fs::open(rt, path) {
        Ok(mut file) => read_all(alloc, &mut file, limit),
        Err(_) => Err(FileFault::Failed),
    }
}

impl<'a, R: std::rt::Files> Files for OsFiles<'a, R> {
    ghost contents = { λ _. None };

    ghost faults = { λ s. s.faults };

    ghost write_faults = { λ s. s.write_faults };

    ghost seen = { λ s. s.seen };

    fn read(&mut self, alloc: Global, path: &str, limit: u64) -> Result<Vec<u8>, FileFault> {
        match read_at(self.rt, alloc, path, limit) {
            Ok(bytes) => Ok(bytes),
            Err(FileFault::Memory) => Err(FileFault::Memory),
            Err(FileFault::TooLong) => Err(FileFault::TooLong),
            Err(FileFault::Failed) => {
                self.faults = self.faults.saturating_add(1);
                Err(FileFault::Failed)
            }
        }
    }

    fn write(&mut self, _alloc: Global, path: &str, bytes: &[u8]) -> Result<(), FileFault> {
        match fs::write(self.rt, path, bytes) {
            Ok(()) => Ok(()),
            Err(_) => {
                self.faults = self.faults.saturating_add(1);
                self.write_faults = self.write_faults.saturating_add(1);
                Err(FileFault::Failed)
            }
        }
    }

    fn exists(&mut self, path: &str) -> bool {
        let there = fs::exists(self.rt, path).unwrap_or(false);
        if there {
            self.seen = self.seen.saturating_add(1);
        }
        there
    }
}
