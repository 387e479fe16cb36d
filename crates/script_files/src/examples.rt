// The definitions, computed on small cases.

ghost use Rattle.std.specs.Prelude.{◌≡◌, true, [], ◌∷◌, codes};
ghost use Rattle.script_text.specs.declared.verb.Verb.TheVariants.{AwaitJobs, Query};
ghost use Rattle.script_files.specs.Scripts.{counts_of, script_of, sessions_of};

/// Lines that are counted, sessions in the order of their first queries, and commands with the numbers of their lines.
pub fn worked_scripts()
    ensures counts { counts_of (codes "load F x" ∷ codes "# load" ∷ codes "build a b" ∷ codes "drop a b" ∷ []) ≡ record { lines = 4; started = true; loads = 1; jobs = 2 } }
    ensures sessions { sessions_of (codes "query b x" ∷ codes "query a x" ∷ codes "query b x" ∷ []) ≡ codes "B" ∷ codes "A" ∷ [] }
    ensures commands { script_of (codes "" ∷ codes "query b x" ∷ codes "await jobs" ∷ codes "query a y" ∷ codes "query b z" ∷ [])
        ≡ record { number = 2; verb = Query 0 (codes "x") } ∷ record { number = 3; verb = AwaitJobs } ∷ record { number = 4; verb = Query 1 (codes "y") }
        ∷ record { number = 5; verb = Query 0 (codes "z") } ∷ [] }
{}
