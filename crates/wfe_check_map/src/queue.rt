// The queue: the values that wait in it, and since when.
ghost use Rattle.std.specs.Prelude.{◌≡◌, ◌==◌, ◌<◌, [], ◌||◌, ◌+◌, nat_lt, OnOk, true};
ghost use Rattle.wfe_check_map.specs.Told.{is_first, queue_after, queue_fits, queued_more, taken_more};

use std::alloc::Global;
use std::collections::VecDeque;
use std::marker::Model;
use wfe_check_rows::raised;
use wfe_defs::{Event, NoMemory};

/// The values that wait, how many were queued and taken, and the stamp at which it ceased last that none
/// waited.
#[derive(Drop)]
pub struct Queue {
    waiting: VecDeque<u64>,
    queued: u64,
    taken: u64,
    ceased: u64,
}

impl Model for Queue {
    ghost use Rattle.wfe_check_map.specs.Told.{Waiting};

    ghost Value = { Waiting };

    ghost view = { λ q. record { waiting = q.waiting.items; queued = q.queued; taken = q.taken; ceased = q.ceased } };
}

impl Queue {
    /// A queue into which nothing was put.
    pub fn new(alloc: Global) -> Queue
        ensures { result ≡ record { waiting = []; queued = 0; taken = 0; ceased = 0 } }
    {
        Queue {
            waiting: VecDeque::new(alloc),
            queued: 0,
            taken: 0,
            ceased: 0,
        }
    }

    /// Whether the event queues the next number, or takes the value of the next number, if it does either.
    pub fn fits(&self, event: &Event) -> bool
        ensures { result ≡ queue_fits event.now self.now }
    {
        match *event {
            Event::Queued { number, .. } => follows(number, self.queued),
            Event::Taken { number, value } => {
                follows(number, self.taken) && is_first_of(value, &self.waiting)
            }
            _ => true,
        }
    }

    /// Whether none waited at a position since a stamp.
    pub fn was_empty(&self, since: u64) -> bool
        ensures { result ≡ ((self.now.taken == self.now.queued) || nat_lt since self.now.ceased) }
    {
        self.taken == self.queued || since < self.ceased
    }

    /// Notes an event, up to which with itself there are so many entries.
    #[inline(always)]
    pub fn note(&mut self, event: &Event, stamp: u64) -> Result<(), NoMemory>
        ensures { OnOk result (self.new ≡ queue_after event.now stamp self.old) }
    {
        match *event {
            Event::Queued { value, .. } => self.queue(value, stamp),
            Event::Taken { .. } => self.take(),
            _ => Ok(()),
        }
    }

    fn queue(&mut self, value: u64, stamp: u64) -> Result<(), NoMemory>
        ensures { OnOk result (self.new ≡ queued_more self.old value stamp) }
    {
        let queued = raised(self.queued)?;
        if self.waiting.push_back(value).is_err() {
            return Err(NoMemory);
        }
        if self.taken == self.queued {
            self.ceased = stamp;
        }
        self.queued = queued;
        Ok(())
    }

    fn take(&mut self) -> Result<(), NoMemory>
        ensures { OnOk result (self.new ≡ taken_more self.old) }
    {
        let taken = raised(self.taken)?;
        self.waiting.pop_front();
        self.taken = taken;
        Ok(())
    }
}

// Whether a number is the one after so many.
fn follows(number: u64, many: u64) -> bool
    ensures { result ≡ (number == many + 1) }
{
    number > 0 && number - 1 == many
}

// Whether it is the first value that waits.
fn is_first_of(value: u64, waiting: &VecDeque<u64>) -> bool
    ensures { result ≡ is_first value waiting.now.items }
{
    match waiting.front() {
        Some(first) => value == *first,
        None => false,
    }
}
