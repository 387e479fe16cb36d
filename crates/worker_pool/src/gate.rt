// Where threads say that they are done.

ghost use Rattle.std.specs.Prelude.{◌≡◌, ◌≤◌, ◌<◌, false, true, None, Some, IfOk, IfSome, length, replicate, slice_get, slice_set};

use std::alloc::{AllocError, Global};
use std::sync::{Condvar, Mutex, Wait};

// A flag for each seat, up or down.
#[derive(Drop)]
struct Flags {
    up: Vec<bool>,
}

impl Flags {
    fn new(alloc: Global, seats: usize) -> Result<Flags, AllocError> {
        let mut up = Vec::new(alloc);
        up.resize(seats, false)?;
        Ok(Flags { up })
    }

    fn are_down(&self) -> bool {
        !self.up.contains(&true)
    }

    // Puts a flag up or down. A seat that there isn't has none.
    fn set(&mut self, seat: usize, up: bool) {
        if let Some(flag) = self.up.get_mut(seat) {
            *flag = up;
        }
    }

    // Takes down the first flag that is up, and answers its seat.
    fn take_first(&mut self) -> Option<usize> {
        let seat = self.up.iter().position(|up| *up)?;
        self.set(seat, false);
        Some(seat)
    }
}

/// The flags of a pool. Its threads put them up, and whoever waits for a thread takes them down; none of this takes memory.
#[derive(Drop)]
pub(crate) struct Gate {
    flags: Mutex<Flags>,
    change: Condvar,
}

impl Gate {
    /// A flag for each of so many seats, all down.
    pub(crate) fn new(alloc: Global, seats: usize) -> Result<Gate, AllocError> {
        let flags = Flags::new(alloc, seats)?;
        Ok(Gate {
            flags: Mutex::new(flags),
            change: Condvar::new(),
        })
    }

    /// Puts the flag of a seat up.
    pub(crate) fn raise<R: Wait>(&self, rt: &R, seat: usize) {
        self.flags.lock(rt).set(seat, true);
        self.change.notify_all();
    }

    /// Takes the flag of a seat down.
    pub(crate) fn lower<R: Wait>(&self, rt: &R, seat: usize) {
        self.flags.lock(rt).set(seat, false);
    }

    /// Waits until a flag is up, takes the first such one down, and answers its seat.
    pub(crate) fn wait_any<R: Wait>(&self, rt: &R) -> usize {
        let mut flags = self
            .change
            .wait_while(rt, self.flags.lock(rt), |flags| flags.are_down());
        flags.take_first().unwrap_or(0)
    }
}
