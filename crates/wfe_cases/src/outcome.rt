// Plays the command over memory, with what the program `wfe` gives it: one watcher, which counts the changes of each key.
ghost use Rattle.std.specs.Prelude.{Some, false};

use std::alloc::AllocError;
use std::thread::Threads;
use wfe_cli::{exit_number, main_call};
use wfe_outside::{CleanSource, Failed, MemSink, Source, Watcher};
use wfe_watch::KeyCounter;

/// What a command came to: the number with which the program ends, and what was written.
#[derive(Drop)]
pub struct Outcome {
    pub status: u8,
    pub sink: MemSink,
}

/// A source that gives what there is room for, or one byte at a call, as a slow pipe may.
#[derive(Drop)]
pub struct Paced {
    pub inner: CleanSource,
    /// Whether it gives one byte at a call.
    pub drips: bool,
}

impl Source for Paced {
    ghost left = { λ s. Some s.inner };

    ghost faults = { λ _. 0 };

    ghost may_stand = { false };

    fn read(&mut self, buf: &mut [u8]) -> Result<usize, Failed> {
        if self.drips && !buf.is_empty() {
            return self.inner.read(&mut buf[..1]);
        }
        self.inner.read(buf)
    }
}

/// Plays the command that the words name. So many bytes may be written.
pub fn play<R: Threads + Sync + AllocGlobal>(
    rt: &R,
    words: &[String],
    mut source: Paced,
    room: usize,
) -> Result<Outcome, AllocError> {
    let alloc = rt.alloc();
    let mut watchers: Vec<Box<dyn Watcher>> = Vec::new(alloc);
    watchers.push(Box::new(alloc, KeyCounter::new(alloc))?)?;
    let Ok(mut sink) = MemSink::new(alloc, room, &[]) else {
        return Err(AllocError);
    };
    let status = main_call(rt, alloc, words, &mut source, &mut sink, &mut watchers);
    Ok(Outcome {
        status: exit_number(status),
        sink,
    })
}
