// A watch that looks for a file.

ghost use base.Fml.{GName};
ghost use Rattle.std.specs.Prelude.{◌≡◌, ◌≤◌, ◌<◌, ◌^◌, IsTrue, Some};
ghost use Rattle.outside.specs.Contents.{TellsPresence};
ghost use Rattle.outside.specs.Counts.{Rose};
ghost use Rattle.outside.specs.Watches.{HoldsIfTold, KeepsHeld, held_of, there_at};

use crate::files::Files;
use crate::watch::Watch;

/// A watch over files: a stop is asked for where something stands at a path of theirs. While it is there it has the
/// files; they are what it leaves of them once it is gone.
#[derive(Drop)]
pub struct FileWatch<'a, F> {
    files: &'a mut F,
    path: &'a str,
}

impl<'a, F> FileWatch<'a, F> {
    /// A watch over the files, which has looked for nothing yet, so its counts are those of the files.
    pub fn new(files: &'a mut F, path: &'a str) -> FileWatch<'a, F>
        ensures same_reference { result.files.ghost_name ≡ files.entry.ghost_name }
        ensures files { result.files.now ≡ files.old }
        ensures path { result.path.now ≡ path.now }
    {
        FileWatch { files, path }
    }
}

impl<'a, F: Files> Watch for FileWatch<'a, F> {
    ghost seen = { λ w. F.seen w.files.now };

    ghost there = { λ w. there_at (F.contents w.files.now) w.path.now };

    ghost held = { λ w. Some (held_of (F.contents w.files.now) (F.faults w.files.now) (F.write_faults w.files.now)) };

    ghost place = { λ w. Some w.files.ghost_name };

    fn asked(&mut self) -> bool
        // Where it is told whether the file is there, the answer is that.
        ensures told { TellsPresence (F.contents self.old.files.now) self.old.path.now result }
        ensures same_path { self.new.path.now ≡ self.old.path.now }

        ensures saw { IsTrue result → Rose (F.seen self.old.files.now) (F.seen self.new.files.now) }
        ensures saw_there { IsTrue result → HoldsIfTold (there_at (F.contents self.old.files.now) self.old.path.now) }

        ensures seen { F.seen self.old.files.now ≤ F.seen self.new.files.now }
        ensures bounded { F.seen self.new.files.now < 2 ^ 64 }
        ensures there { there_at (F.contents self.new.files.now) self.new.path.now ≡ there_at (F.contents self.old.files.now) self.old.path.now }
        ensures held { KeepsHeld (Some (held_of (F.contents self.old.files.now) (F.faults self.old.files.now) (F.write_faults self.old.files.now))) (Some (held_of (F.contents self.new.files.now) (F.faults self.new.files.now) (F.write_faults self.new.files.now))) }
        ensures place { Some self.new.files.ghost_name ≡ Some self.old.files.ghost_name }
    {
        self.files.exists(self.path)
    }
}
