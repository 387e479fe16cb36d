// Who asks children to stop.

ghost use Rattle.std.specs.Prelude.{◌≡◌, ◌≤◌, ◌<◌, ◌^◌, IsErrOf, None, OnErr, OnOk};
ghost use Rattle.outside.specs.Counts.{Rose, raised};

use crate::paths::stop_path;
use outside::{StopFault, Stopper};
use std::alloc::Global;
use std::fs;
use std::marker::Model;

/// Asks the child of an attempt to stop, by an empty file where it looks. It tells nothing of its requests.
#[derive(Drop)]
pub struct OsStopper<'a, R> {
    rt: &'a R,
    asks: u64,
    faults: u64,
}

impl<'a, R> Model for OsStopper<'a, R> {
    ghost use Rattle.std.specs.Prelude.{◌<◌, ◌^◌};
    ghost use Rattle.os_objects.specs.Hands.{StopperState};

    ghost Value = { StopperState };

    ghost view = { λ s. record { asks = s.asks; faults = s.faults } };

    ghost invariant = { λ s. (s.asks < 2 ^ 64) × (s.faults < 2 ^ 64) };
}

impl<'a, R: std::rt::Files> OsStopper<'a, R> {
    /// A stopper without a request.
    pub fn new(rt: &'a R) -> OsStopper<'a, R>
        ensures { result ≡ record { asks = 0; faults = 0 } }
    {
        OsStopper {
            rt,
            asks: 0,
            faults: 0,
        }
    }
}

impl<'a, R: std::rt::Files> Stopper for OsStopper<'a, R> {
    ghost asks = { λ s. s.asks };

    ghost faults = { λ s. s.faults };

    ghost requests = { λ _. None };

    fn stop(&mut self, alloc: Global, job: u32, attempt: u32) -> Result<(), StopFault>
        ensures counted { self.new.asks ≡ raised self.old.asks }
        ensures asked { Rose self.old.asks self.new.asks }

        // Each Err counts, want of memory too.
        ensures failed_counted { OnErr result (self.new.faults ≡ raised self.old.faults) }
        ensures ok_not_counted { OnOk result (self.new.faults ≡ self.old.faults) }
        ensures failed { IsErrOf result StopFault.Failed → Rose self.old.faults self.new.faults }
        ensures faults { self.old.faults ≤ self.new.faults }
        ensures bounded { (self.new.asks < 2 ^ 64) × (self.new.faults < 2 ^ 64) }
    {
        self.asks = self.asks.saturating_add(1);
        let answer = match stop_path(alloc, job, attempt) {
            Ok(path) => fs::write(self.rt, path.as_str(), b"").map_err(|_| StopFault::Failed),
            Err(_) => Err(StopFault::Memory),
        };
        if answer.is_err() {
            self.faults = self.faults.saturating_add(1);
        }
        answer
    }
}
