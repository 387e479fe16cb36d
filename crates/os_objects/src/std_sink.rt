// Standard output.

ghost use Rattle.std.specs.Prelude.{◌<◌, ◌^◌, None};

use outside::{Sink, SinkFault};
use std::io::Write;

/// Standard output. It tells nothing of what was written.
#[derive(Drop)]
pub struct StdSink<W> {
    output: W,
    faults: u64,
    ghost faults_fit: { faults < 2 ^ 64 },
}

impl<W: Write> StdSink<W> {
    pub fn new(output: W) -> StdSink<W> {
        StdSink { output, faults: 0 }
    }
}

impl<W: Write> Sink for StdSink<W> {
    ghost written = { λ _. None };

    ghost faults = { λ s. s.faults };

    fn write(&mut self, bytes: &[u8]) -> Result<(), SinkFault> {
        if write_whole(&mut self.output, bytes) && self.output.flush().is_ok() {
            return Ok(());
        }
        self.faults = self.faults.saturating_add(1);
        Err(SinkFault::Failed)
    }
}

// Writes piece by piece until all is written. A write that takes nothing, or fails, ends it.
fn write_whole<W: Write>(output: &mut W, bytes: &[u8]) -> bool {
    let mut left = bytes;
    while !left.is_empty() {
        match output.write(left) {
            Ok(0) | Err(_) => return false,
            Ok(count) => left = &left[count..],
        }
    }
    true
}
