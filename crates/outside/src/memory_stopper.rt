// A stopper in memory.

ghost use Rattle.std.specs.Prelude.{◌≡◌, ◌≢◌, ◌≤◌, ◌<◌, ◌^◌, ◌⊎◌, ◌++◌, [], ◌∷◌, Some, Err, IsErrOf};
ghost use Rattle.outside.specs.Counts.{Rose, raised};
ghost use Rattle.outside.specs.MemoryStopper.{faults_after};
ghost use Rattle.outside.specs.Numbering.{NextFails, after_call};
ghost use Rattle.outside.specs.Stoppers.{request_of};

use crate::numbered_calls::NumberedCalls;
use crate::stopper::{Request, StopFault, Stopper};
use std::alloc::Global;
use std::marker::Model;

/// A stopper in memory, which fails at the numbered calls and keeps its requests.
#[derive(Drop)]
pub struct MemoryStopper {
    requests: Vec<Request>,
    calls: NumberedCalls,
    asks: u64,
    faults: u64,
}

impl Model for MemoryStopper {
    ghost use Rattle.std.specs.Prelude.{◌<◌, ◌^◌};
    ghost use Rattle.outside.specs.MemoryStopper.{StopperState};

    ghost Value = { StopperState };

    ghost view = { λ s. record { requests = s.requests.items; calls = s.calls; asks = s.asks; faults = s.faults } };

    ghost invariant = { λ s. (s.asks < 2 ^ 64) × (s.faults < 2 ^ 64) };
}

impl MemoryStopper {
    /// A stopper without a request, which fails at the numbered calls, the first of which is 1.
    pub fn new(alloc: Global, failing: Vec<u32>) -> MemoryStopper
        ensures { result ≡ record { requests = []; calls = record { failing = failing.items; made = 0 }; asks = 0; faults = 0 } }
    {
        MemoryStopper {
            requests: Vec::new(alloc),
            calls: NumberedCalls::new(failing),
            asks: 0,
            faults: 0,
        }
    }

    /// The requests so far, in their order.
    pub fn requests(&self) -> &[Request]
        ensures { result.now ≡ self.now.requests }
    {
        self.requests.as_slice()
    }
}

impl Stopper for MemoryStopper {
    ghost asks = { λ s. s.asks };

    ghost faults = { λ s. s.faults };

    ghost requests = { λ s. Some s.requests };

    fn stop(&mut self, _alloc: Global, job: u32, attempt: u32) -> Result<(), StopFault>
        ensures requested { result ≢ Err StopFault.Memory → self.new.requests ≡ self.old.requests ++ request_of job attempt ∷ [] }
        ensures requested_memory { IsErrOf result StopFault.Memory → (self.new.requests ≡ self.old.requests ++ request_of job attempt ∷ []) ⊎ (self.new.requests ≡ self.old.requests) }

        // It fails at the numbered calls alone, unless no memory is found there for the request.
        ensures failed_numbered { IsErrOf result StopFault.Failed → NextFails self.old.calls }
        ensures numbered { NextFails self.old.calls → IsErrOf result StopFault.Failed ⊎ IsErrOf result StopFault.Memory }
        ensures calls { self.new.calls ≡ after_call self.old.calls }

        ensures counted { self.new.asks ≡ raised self.old.asks }
        ensures asked { Rose self.old.asks self.new.asks }
        ensures failed { IsErrOf result StopFault.Failed → Rose self.old.faults self.new.faults }
        ensures steady { self.new.faults ≡ faults_after result self.old.faults }
        ensures faults { self.old.faults ≤ self.new.faults }
        ensures bounded { (self.new.asks < 2 ^ 64) × (self.new.faults < 2 ^ 64) }
    {
        self.asks = self.asks.saturating_add(1);
        let fails = self.calls.next_fails();
        if self.requests.push(Request { job, attempt }).is_err() {
            return Err(StopFault::Memory);
        }
        if fails {
            self.faults = self.faults.saturating_add(1);
            return Err(StopFault::Failed);
        }
        Ok(())
    }
}
