ghost use Rattle.std.specs.Prelude.{◌≡◌, ◌<◌, ◌≤◌, ℕ, true, false, [], ◌∷◌, ◌++◌, All, length, drop, slice_get, ◌==◌, OnOk, OnErr};

use crate::link::{Link, end_without, is_listed, set_next, set_previous};
use std::alloc::{AllocError, Global};
use std::marker::Model;

/// A list of numbers without repeats, linked by index inside its slots.
#[derive(Debug, Drop)]
pub struct JobList {
    slots: Vec<Option<Link>>,
    head: Option<u32>,
    tail: Option<u32>,
    len: u32,
}

impl Model for JobList {
    ghost use Rattle.std.specs.Prelude.{length};
    ghost use Rattle.job_list.specs.JobList.{NumberList};
    ghost use Rattle.job_list.specs.Links.{walked, IsLinked};

    ghost Value = { NumberList };

    ghost view = { λ l. record { items = walked l.len l.head l.slots.items; capacity = length l.slots.items } };

    ghost invariant = { λ l. IsLinked (walked l.len l.head l.slots.items) l.slots.items l.head l.tail l.len };
}

impl JobList {
    ghost use Rattle.job_list.specs.JobList.{has, without, NoRepeats};

    /// The empty list, of capacity 0.
    pub fn new(alloc: Global) -> JobList
        ensures items { result.items ≡ [] }
        ensures capacity { result.capacity ≡ 0 }
    {
        JobList {
            slots: Vec::new(alloc),
            head: None,
            tail: None,
            len: 0,
        }
    }

    /// Makes the capacity at least this, and leaves the list. No other call takes memory or more than constant time.
    pub fn reserve(&mut self, capacity: u32) -> Result<(), AllocError>
        ensures items { self.new.items ≡ self.old.items }
        ensures reserved { OnOk result (capacity ≤ self.new.capacity) }
        ensures kept { self.old.capacity ≤ self.new.capacity }
        ensures err { OnErr result (self.new ≡ self.old) }
    {
        if capacity as usize > self.slots.len() {
            self.slots.resize(capacity as usize, None)?;
        }
        Ok(())
    }

    /// Puts a number last.
    pub fn push_back(&mut self, id: u32)
        requires below { id < self.old.capacity }
        requires absent { has self.old.items id ≡ false }
        ensures items { self.new.items ≡ self.old.items ++ id ∷ [] }
        ensures capacity { self.new.capacity ≡ self.old.capacity }
    {
        let tail = self.tail;
        self.slots[id as usize] = Some(Link {
            previous: tail,
            next: None,
        });
        set_next(&mut self.slots, tail, Some(id));
        self.head = self.head.or(Some(id));
        self.tail = Some(id);
        self.len += 1;
    }

    /// Takes a number out, wherever it stands.
    pub fn unlink(&mut self, id: u32)
        requires { has self.old.items id ≡ true }
        ensures items { self.new.items ≡ without id self.old.items }
        ensures capacity { self.new.capacity ≡ self.old.capacity }
    {
        let Some(link) = self.slots[id as usize] else {
            unreachable!();
        };
        set_next(&mut self.slots, link.previous, link.next);
        set_previous(&mut self.slots, link.next, link.previous);
        self.head = end_without(link.previous, link.next, self.head);
        self.tail = end_without(link.next, link.previous, self.tail);
        self.slots[id as usize] = None;
        self.len -= 1;
    }

    /// Takes out the first number. None exactly where the list is empty.
    pub fn pop_front(&mut self) -> Option<u32>
        ensures first { result ≡ slice_get self.old.items 0 }
        ensures items { self.new.items ≡ drop 1 self.old.items }
        ensures capacity { self.new.capacity ≡ self.old.capacity }
    {
        let first = self.head;
        if let Some(id) = first {
            self.unlink(id);
        }
        first
    }

    /// The first number. None exactly where the list is empty.
    pub fn front(&self) -> Option<u32>
        ensures { result ≡ slice_get self.now.items 0 }
    {
        self.head
    }

    /// Whether the number is in the list. No number from the capacity on is.
    pub fn contains(&self, id: u32) -> bool
        ensures { result ≡ has self.now.items id }
    {
        is_listed(&self.slots, id)
    }

    /// How many numbers are in the list: each once, and each below the capacity.
    pub fn len(&self) -> u32
        ensures len { result ≡ length self.now.items }
        ensures distinct { NoRepeats self.now.items }
        ensures below { All (λ id. id < self.now.capacity) self.now.items }
    {
        self.len
    }

    /// Whether no number is in the list.
    pub fn is_empty(&self) -> bool
        ensures { result ≡ (length self.now.items == 0) }
    {
        self.len == 0
    }
}
