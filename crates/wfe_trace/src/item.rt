// What the lines of a trace say.
use wfe_defs::Command;
use wfe_words::{Config, Field};

/// How the calls of a trace are made.
#[derive(Clone, Copy)]
pub enum Mode {
    /// One atomic step after the other, as the lines say.
    Replay,
    /// By workers, one for each seat.
    Run,
}

/// What one line of a trace says.
#[derive(Clone, Copy, Debug, PartialEq, Eq)]
pub enum Item {
    /// A part of the setting.
    Setting,
    /// The setting is whole, and the body begins.
    Ready { version: u32, config: Config },
    /// A line of the body.
    Command { command: Command },
}

// The line that is read next.
#[derive(Clone, Copy)]
pub enum Stage {
    First,
    Scheme,
    Number { field: Field },
    Begin,
    Body,
}
