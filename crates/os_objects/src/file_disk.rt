// A file of the system as a disk.

ghost use Rattle.std.specs.Prelude.{◌≡◌, ◌≤◌, ◌<◌, ◌^◌, ⊤, None, IfOk, length};
ghost use Rattle.outside.specs.Counts.{Rose};

use disk_image::{Disk, DiskFault};
use std::alloc::Global;
use std::fs::{File, OpenOptions};
use std::io::ErrorKind;
use std::os::unix::fs::FileExt;
use std::{fs, io};

/// A file of the system as a disk. A sync asks the system to keep the file (`fsync`). It tells nothing of what it holds,
/// so what a loss of power leaves is as the system and its disk have it.
#[derive(Drop)]
pub struct FileDisk {
    file: File,
    faults: u64,
    ghost faults_fit: { faults < 2 ^ 64 },
}

// The folder in which the file at the path stands.
fn folder_of(path: &str) -> &str {
    match path.rsplit_once('/') {
        Some(("", _)) => "/",
        Some((folder, _)) => folder,
        None => ".",
    }
}

impl FileDisk {
    /// Opens the file at the path, or makes an empty one there, and asks the system to keep its folder. So a file that
    /// was made stays there when power is lost, also one of a process that ended before it could ask. An error where the
    /// file can't be read and written, or its folder can't be kept.
    pub fn open<R: std::rt::Files<File = File>>(rt: &R, path: &str) -> io::Result<FileDisk> {
        let file = OpenOptions::new()
            .read(true)
            .write(true)
            .create(true)
            .open(rt, path)?;
        fs::open(rt, folder_of(path))?.sync_all()?;
        Ok(FileDisk { file, faults: 0 })
    }

    // Counts a call that failed.
    fn fail(&mut self) -> DiskFault
        ensures fault { result ≡ DiskFault.Failed }
        ensures counted { Rose self.old.faults self.new.faults }
        ensures no_fewer { self.old.faults ≤ self.new.faults }
    {
        self.faults = self.faults.saturating_add(1);
        DiskFault::Failed
    }
}

// Reads bytes from this place on, and says how many there were: as many as there is room for, or fewer where the file ends.
fn fill(file: &File, room: &mut [u8], at: u64) -> io::Result<usize>
    ensures { IfOk result (λ n. n ≤ length room.new) }
{
    let mut filled = 0;
    for _ in 0..u64::MAX {
        if filled >= room.len() {
            break;
        }
        match file.read_at(&mut room[filled..], at.saturating_add(filled as u64)) {
            Ok(0) => break,
            Ok(count) => filled += count,
            Err(e) if e.kind() == ErrorKind::Interrupted => {}
            Err(e) => return Err(e),
        }
    }
    Ok(filled)
}

// Cuts a file that is longer.
fn shorten(file: &File, len: u64) -> io::Result<()> {
    if file.metadata()?.len() > len {
        file.set_len(len)?;
    }
    Ok(())
}

impl Disk for FileDisk {
    ghost content = { λ _. None };

    ghost crash_image = { λ _ _. ⊤ };

    ghost clock = { λ _. 0 };

    ghost image_since = { λ _ _ _. ⊤ };

    ghost faults = { λ d. d.faults };

    ghost content_is_image = { λ _ _ _. tt };

    ghost now_is_since = { λ _ _ _ _ _. tt };

    ghost since_now_is_now = { λ _ _ _. tt };

    fn len(&mut self) -> Result<u64, DiskFault> {
        match self.file.metadata() {
            Ok(about) => Ok(about.len()),
            Err(_) => Err(self.fail()),
        }
    }

    fn read(&mut self, alloc: Global, at: u64, n: u32) -> Result<Vec<u8>, DiskFault> {
        let mut bytes = Vec::new(alloc);
        bytes.resize(n as usize, 0)?;
        match fill(&self.file, bytes.as_mut_slice(), at) {
            Ok(count) => {
                bytes.truncate(count);
                Ok(bytes)
            }
            Err(_) => Err(self.fail()),
        }
    }

    fn write_at(&mut self, at: u64, bytes: &[u8]) -> Result<(), DiskFault> {
        match self.file.write_all_at(bytes, at) {
            Ok(()) => Ok(()),
            Err(_) => Err(self.fail()),
        }
    }

    fn cut(&mut self, len: u64) -> Result<(), DiskFault> {
        match shorten(&self.file, len) {
            Ok(()) => Ok(()),
            Err(_) => Err(self.fail()),
        }
    }

    fn sync(&mut self) -> Result<(), DiskFault> {
        match self.file.sync_all() {
            Ok(()) => Ok(()),
            Err(_) => Err(self.fail()),
        }
    }
}
