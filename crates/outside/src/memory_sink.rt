// A sink in memory.

ghost use Rattle.std.specs.Prelude.{◌≡◌, ◌++◌, ◌≤◌, ◌<◌, ◌^◌, [], Some, IsErrOf, OnOk, OnErr, ◌↔◌};
ghost use Rattle.outside.specs.Counts.{Rose};
ghost use Rattle.outside.specs.MemorySink.{faults_after};
ghost use Rattle.outside.specs.Numbering.{NextFails, after_call};

use crate::numbered_calls::NumberedCalls;
use crate::sink::{Sink, SinkFault};
use std::alloc::Global;
use std::marker::Model;

/// A sink in memory, whose writes fail at the numbered calls.
#[derive(Drop)]
pub struct MemorySink {
    bytes: Vec<u8>,
    calls: NumberedCalls,
    faults: u64,
}

impl Model for MemorySink {
    ghost use Rattle.std.specs.Prelude.{◌<◌, ◌^◌};
    ghost use Rattle.outside.specs.MemorySink.{SinkState};

    ghost Value = { SinkState };

    ghost view = { λ s. record { bytes = s.bytes.items; calls = s.calls; faults = s.faults } };

    ghost invariant = { λ s. s.faults < 2 ^ 64 };
}

impl MemorySink {
    /// A sink that holds nothing and fails at the numbered calls, the first of which is 1.
    pub fn new(alloc: Global, failing: Vec<u32>) -> MemorySink
        ensures { result ≡ record { bytes = []; calls = record { failing = failing.items; made = 0 }; faults = 0 } }
    {
        MemorySink {
            bytes: Vec::new(alloc),
            calls: NumberedCalls::new(failing),
            faults: 0,
        }
    }

    /// What was written.
    pub fn bytes(&self) -> &[u8]
        ensures { result.now ≡ self.now.bytes }
    {
        self.bytes.as_slice()
    }
}

impl Sink for MemorySink {
    ghost written = { λ s. Some s.bytes };

    ghost faults = { λ s. s.faults };

    fn write(&mut self, bytes: &[u8]) -> Result<(), SinkFault>
        ensures ok { OnOk result (self.new.bytes ≡ self.old.bytes ++ bytes.now) }
        ensures err { OnErr result (self.new.bytes ≡ self.old.bytes) }

        // It fails at the numbered calls alone.
        ensures numbered { IsErrOf result SinkFault.Failed ↔ NextFails self.old.calls }
        ensures calls { self.new.calls ≡ after_call self.old.calls }

        ensures failed { IsErrOf result SinkFault.Failed → Rose self.old.faults self.new.faults }
        ensures steady { self.new.faults ≡ faults_after result self.old.faults }
        ensures faults { self.old.faults ≤ self.new.faults }
        ensures bounded { self.new.faults < 2 ^ 64 }
    {
        if self.calls.next_fails() {
            self.faults = self.faults.saturating_add(1);
            return Err(SinkFault::Failed);
        }
        match self.bytes.extend_from_slice(bytes) {
            Ok(()) => Ok(()),
            Err(_) => Err(SinkFault::Memory),
        }
    }
}
