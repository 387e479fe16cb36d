// Hands that end a step only when they are let through.

ghost use denote.Param.Send.{IsSync};
ghost use Rattle.std.specs.Prelude.{None};

use fixed_cube::SmallWork;
use outside::{Hand, HandFault, Honest, NoWatch, StepWork};
use std::alloc::{AllocError, Global};
use std::sync::{Arc, Mutex, Wait};
use std::thread;
use std::thread::Threads;

// How often one looks before giving up.
const LOOKS: u32 = 1_000_000_000;

// An attempt of a job.
#[derive(Clone, Copy, PartialEq, Eq)]
struct Attempt {
    job: u32,
    attempt: u32,
}

// The attempts that have begun, and those that are let through.
#[derive(Drop)]
struct Passes {
    begun: Vec<Attempt>,
    passed: Vec<Attempt>,
    all: bool,
}

impl Passes {
    fn has_begun(&self, attempt: Attempt) -> bool {
        self.begun.contains(&attempt)
    }

    fn may_pass(&self, attempt: Attempt) -> bool {
        self.all || self.passed.contains(&attempt)
    }
}

/// What hands show, and what they are let through by. Its handles are shared.
#[derive(Drop)]
pub struct Turnstile {
    passes: Arc<Mutex<Passes>>,
}

impl Turnstile {
    /// One at which no attempt has begun, and none is let through.
    pub fn new(alloc: Global) -> Result<Turnstile, AllocError> {
        let passes = Passes {
            begun: Vec::new(alloc),
            passed: Vec::new(alloc),
            all: false,
        };
        match Arc::new(alloc, Mutex::new(passes)) {
            Ok(passes) => Ok(Turnstile { passes }),
            Err(_) => Err(AllocError),
        }
    }

    /// A hand at it.
    pub fn hand(&self) -> Result<GateHand, AllocError> {
        Ok(GateHand {
            passes: self.passes.clone()?,
            runs: 0,
            faults: 0,
        })
    }

    /// Lets an attempt through.
    pub fn pass<R: Wait>(&self, rt: &R, job: u32, attempt: u32) -> Result<(), AllocError> {
        self.passes.lock(rt).passed.push(Attempt { job, attempt })?;
        Ok(())
    }

    /// Lets every attempt through.
    pub fn pass_all<R: Wait>(&self, rt: &R) {
        self.passes.lock(rt).all = true;
    }

    /// Waits until an attempt has begun; false where it doesn't begin.
    pub fn waits_for<R: Wait>(&self, rt: &R, job: u32, attempt: u32) -> bool {
        let attempt = Attempt { job, attempt };
        for _ in 0..LOOKS {
            if self.passes.lock(rt).has_begun(attempt) {
                return true;
            }
            thread::yield_now();
        }
        false
    }
}

/// A hand of which nothing is known. It shows that an attempt began, and does its work when it is let through; an attempt that isn't, in the
/// end, is one that wasn't started.
#[derive(Drop)]
pub struct GateHand {
    passes: Arc<Mutex<Passes>>,
    runs: u64,
    faults: u64,
}

impl GateHand {
    /// How many runs there were.
    pub fn run_count(&self) -> u64 {
        self.runs
    }

    // Shows that an attempt began.
    fn begin<R: Wait>(&self, rt: &R, attempt: Attempt) -> Result<(), AllocError> {
        self.passes.lock(rt).begun.push(attempt)?;
        Ok(())
    }

    // Waits until an attempt is let through; false where it isn't.
    fn is_let_through<R: Wait>(&self, rt: &R, attempt: Attempt) -> bool {
        for _ in 0..LOOKS {
            if self.passes.lock(rt).may_pass(attempt) {
                return true;
            }
            thread::yield_now();
        }
        false
    }
}

impl Honest for GateHand {
    ghost honest = { ⊥ };
}

impl Hand<SmallWork> for GateHand {
    ghost runs = { λ h. h.runs };

    ghost faults = { λ h. h.faults };

    ghost fails = { λ _. None };

    ghost calls = { λ _. None };

    fn run<R: Threads + Wait + Sync>(
        &mut self,
        rt: &R,
        alloc: Global,
        job: u32,
        attempt: u32,
        task: &[u8],
    ) -> Result<Vec<u8>, HandFault> {
        let faults = self.faults;
        self.runs = self.runs.saturating_add(1);
        let attempt = Attempt { job, attempt };
        if self.begin(rt, attempt).is_err() {
            return Err(HandFault::Memory);
        }
        if !self.is_let_through(rt, attempt) {
            self.faults = faults.saturating_add(1);
            return Err(HandFault::NotStarted);
        }
        match SmallWork::work(rt, alloc, task, &mut NoWatch) {
            Ok(product) => Ok(product),
            Err(_) => Err(HandFault::Memory),
        }
    }
}
