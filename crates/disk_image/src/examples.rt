//! The definitions, computed on small cases.

ghost use Rattle.std.specs.Prelude.{◌≡◌, ◌<◌, ◌^◌, [], ◌∷◌, ℕ, List};
ghost use Rattle.disk_image.specs.Changes.{written};
ghost use Rattle.disk_image.specs.Examples.{behind_the_end, cut_short, kept, over_the_end, written_twice};
ghost use Rattle.disk_image.specs.MemoryDisk.{CrashImage, calls_until, reads_as, stopped};
ghost use Rattle.disk_image.specs.declared.record.Fill.TheVariants.{New, Old, Ones};

/// What a read gives, and what a stop leaves.
pub fn worked_examples()
    // A write goes over what is there, and fills up with zeros to where it begins.
    ensures over { written 1 (9 ∷ []) (1 ∷ 2 ∷ 3 ∷ []) ≡ 1 ∷ 9 ∷ 3 ∷ [] }
    ensures gap { written 4 (9 ∷ []) (1 ∷ 2 ∷ []) ≡ 1 ∷ 2 ∷ 0 ∷ 0 ∷ 9 ∷ [] }

    // A write that was refused isn't read, and may be left.
    ensures read { reads_as (7 ∷ []) written_twice ≡ 7 ∷ 2 ∷ 3 ∷ [] }
    ensures old { stopped Old (7 ∷ []) written_twice ≡ 7 ∷ [] }
    ensures new { stopped New (7 ∷ []) written_twice ≡ 5 ∷ 2 ∷ 3 ∷ [] }
    ensures ones { stopped Ones (7 ∷ []) written_twice ≡ 1 ∷ 1 ∷ 1 ∷ [] }
    ensures first { stopped New (7 ∷ []) (calls_until 1 written_twice) ≡ 7 ∷ 2 ∷ 3 ∷ [] }

    // What was kept by a sync is left.
    ensures kept { stopped Ones (7 ∷ []) kept ≡ 7 ∷ 2 ∷ [] }
    ensures cut { stopped New (7 ∷ []) cut_short ≡ 7 ∷ 2 ∷ [] }
{}

/// What a crash may leave.
pub fn worked_crashes()
    // Behind the end, and past it where the write begins later, any bytes may be left; what was there stays.
    ensures any { (byte : ℕ) → CrashImage (7 ∷ []) over_the_end (7 ∷ byte ∷ []) }
    ensures none { CrashImage (7 ∷ []) over_the_end (7 ∷ []) }
    ensures gap { (first second : ℕ) → CrashImage (7 ∷ []) behind_the_end (7 ∷ first ∷ second ∷ []) }
    ensures stays { (byte : ℕ) (more : List ℕ) → CrashImage (7 ∷ []) over_the_end (byte ∷ more) → byte ≡ 7 }
    ensures kept { (image : List ℕ) → CrashImage (7 ∷ []) kept image → image ≡ 7 ∷ 2 ∷ [] }
{}
