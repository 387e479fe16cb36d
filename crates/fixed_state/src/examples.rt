// The definitions, computed on small cases.

ghost use Rattle.std.specs.Prelude.{◌≡◌, ℕ, List, [], ◌∷◌, Vec, Ok, Err};
ghost use Rattle.std.specs.declared.alloc.Global.{Global};
ghost use Rattle.fixed_cube.specs.Cube.{job_task};
ghost use Rattle.job_machine.specs.declared.state.Ended.TheVariants as ended;
ghost use Rattle.outside.specs.declared.hand.HandFault.TheVariants as fault;
ghost use Rattle.run_history.specs.Cubes.{Snapshot};
ghost use Rattle.run_history.specs.declared.event.Outcome.TheVariants.{Done, Killed, Memory};
ghost use Rattle.fixed_state.specs.Ends.{Answer, IsOutcomeOf, kept_of, products_after, stale_outcome};
ghost use Rattle.fixed_state.specs.Tasks.{task_kept};

/// The tasks of three steps, what is recorded of ends, and the products that are kept after them.
pub fn worked_examples()
    ensures first { (snapshot : Snapshot) → task_kept snapshot [] ≡ job_task snapshot 0 }
    ensures second { (snapshot : Snapshot) → task_kept snapshot ((8 ∷ 9 ∷ []) ∷ []) ≡ 2 ∷ 8 ∷ 9 ∷ [] }
    ensures last { (snapshot : Snapshot) → task_kept snapshot ((8 ∷ []) ∷ (9 ∷ []) ∷ []) ≡ 3 ∷ 9 ∷ [] }
    ensures stale { (product : Vec ℕ Global) → stale_outcome (Ok product) ≡ Done }
    ensures stale_fault { stale_outcome (Err fault.Killed) ≡ Killed }
    ensures killed { (task : List ℕ) → IsOutcomeOf task (Err fault.Killed) Killed }
    ensures killed_done { (task : List ℕ) → IsOutcomeOf task (Err fault.Killed) Done → ⊥ }
    ensures wanting { (task : List ℕ) (product : Vec ℕ Global) → IsOutcomeOf task (Ok product) Memory }
    ensures product_killed { (task : List ℕ) (product : Vec ℕ Global) → IsOutcomeOf task (Ok product) Killed → ⊥ }
    ensures advanced { (product : Vec ℕ Global) → products_after ended.Advanced 2 (Ok product) ([] ∷ ((8 ∷ []) ∷ []) ∷ []) ≡ [] ∷ ((8 ∷ []) ∷ product.items ∷ []) ∷ [] }
    ensures finished { (answer : Answer) → products_after ended.Finished 1 answer (((8 ∷ []) ∷ []) ∷ ((9 ∷ []) ∷ []) ∷ []) ≡ [] ∷ ((9 ∷ []) ∷ []) ∷ [] }
    ensures failed { (answer : Answer) → products_after ended.Failed 1 answer (((8 ∷ []) ∷ []) ∷ []) ≡ ((8 ∷ []) ∷ []) ∷ [] }
    ensures kept { kept_of (((8 ∷ []) ∷ []) ∷ ((9 ∷ []) ∷ []) ∷ []) 2 ≡ (9 ∷ []) ∷ [] }
{}
