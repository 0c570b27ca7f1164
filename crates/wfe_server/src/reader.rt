// The scripts that a trace's lines give, as its bytes come.
ghost use Rattle.std.specs.Prelude.{◌≡◌, OnOk, IfOk, None, Ok, Some, true};
ghost use Rattle.wfe_server_replay.specs.Trace.{after_byte, after_bytes, after_last, after_line, command_taken, finished, item_taken, line_item, line_read, progress_start};
ghost use Rattle.wfe_server.specs.Collecting.{IsForWorkers, IsItemForWorkers, MayAdd, MayCollect, Takes, scripter};
ghost use Rattle.wfe_server_lines.specs.Scripted.{no_calls};
ghost use Rattle.wfe_trace.specs.Good.{is_body};
ghost use Rattle.wfe_trace.specs.declared.item.Mode.TheVariants.{Run};
ghost use Rattle.wfe_trace.specs.words.Config.{bad_field};

use std::alloc::Global;
use std::marker::Model;
use wfe_outside::{Command, NoMemory};
use wfe_server_lines::Scripts;
use wfe_server_replay::TraceBytes;
use wfe_trace::{BadLine, Config, Item, Mode};

/// Why no more of a trace is taken.
#[derive(Clone, Copy)]
pub enum Stop {
    Bad { bad: BadLine },
    NoMemory,
}

/// A trace of which some bytes came.
#[derive(Drop)]
pub(crate) struct Reader {
    bytes: TraceBytes,
    scripts: Option<Scripts>,
}

impl Model for Reader {
    ghost use Rattle.std.specs.Prelude.{◌≡◌};
    ghost use Rattle.wfe_trace.specs.declared.item.Mode.TheVariants.{Run};
    ghost use Rattle.wfe_server_replay.specs.Trace.{Progress, taken_by};
    ghost use Rattle.wfe_server.specs.Collecting.{CollectsIn};
    ghost use Rattle.wfe_server_lines.specs.Scripted.{Scripted};

    ghost Value = { Progress Scripted };

    ghost view = { λ r. taken_by r.bytes r.scripts };

    ghost invariant = { λ r. (r.bytes.reading.mode ≡ Run) × CollectsIn r.bytes.reading r.scripts };
}

impl Reader {
    /// No byte came.
    pub(crate) fn new() -> Reader
        ensures { result ≡ progress_start Mode.Run }
    {
        Reader {
            bytes: TraceBytes::new(Mode::Run),
            scripts: None,
        }
    }

    // The setting is whole: the body begins.
    fn open(&mut self, alloc: Global, version: u32, config: Config) -> Result<(), NoMemory>
        requires config { bad_field config ≡ None }
        requires body { is_body self.old.reading.stage ≡ true }
        requires setting { config ≡ self.old.reading.config }
        ensures { OnOk result (self.new ≡ record self.old { engine = Some (no_calls version config) }) }
    {
        self.scripts = Some(Scripts::open(alloc, version, config)?);
        Ok(())
    }

    // Takes a line of the body: only its call, if it gives one.
    fn take_command(&mut self, command: Command) -> Result<(), NoMemory>
        requires may { MayAdd command self.old.engine }
        requires workers { IsForWorkers command }
        ensures { OnOk result (self.new ≡ command_taken scripter self.old command self.old.engine) }
    {
        self.bytes.note(&command);
        if let Some(scripts) = &mut self.scripts {
            if let Command::Call { seat, call } = command {
                scripts.add(seat, call)?;
            }
        }
        Ok(())
    }

    // Takes what a line says, which was read.
    fn take_item(&mut self, alloc: Global, item: Item) -> Result<(), NoMemory>
        requires may { MayCollect self.old item }
        requires workers { IsItemForWorkers item }
        ensures { OnOk result (self.new ≡ item_taken scripter self.old item) }
    {
        match item {
            Item::Setting => Ok(()),
            Item::Ready { version, config } => self.open(alloc, version, config),
            Item::Command { command } => self.take_command(command),
        }
    }

    // Reads the line under way, which is whole.
    fn read(&mut self) -> Result<Item, BadLine>
        ensures item { result ≡ line_item scripter self.old }
        ensures after { OnOk result (self.new ≡ line_read self.old) }
        ensures may { IfOk result (MayCollect self.new) }
        ensures workers { IfOk result IsItemForWorkers }
    {
        let item = self.bytes.read()?;
        Ok(item)
    }

    // Takes the line under way, which is whole.
    fn take_line(&mut self, alloc: Global) -> Result<(), Stop>
        ensures { Takes result (after_line scripter self.old) self.new }
    {
        let item = match self.read() {
            Ok(item) => item,
            Err(bad) => return Err(Stop::Bad { bad }),
        };
        match self.take_item(alloc, item) {
            Ok(()) => Ok(()),
            Err(_) => Err(Stop::NoMemory),
        }
    }

    // Takes one byte of the trace.
    fn take_byte(&mut self, alloc: Global, byte: u8) -> Result<(), Stop>
        ensures { Takes result (after_byte scripter self.old byte) self.new }
    {
        match self.bytes.push(byte) {
            Ok(true) => self.take_line(alloc),
            Ok(false) => Ok(()),
            Err(bad) => Err(Stop::Bad { bad }),
        }
    }

    /// Takes the next bytes of the trace, up to the first that is bad.
    pub(crate) fn take_bytes(&mut self, alloc: Global, bytes: &[u8]) -> Result<(), Stop>
        ensures { Takes result (after_bytes scripter (Ok self.old) bytes.now) self.new }
    {
        for byte in bytes {
            match self.take_byte(alloc, *byte) {
                Ok(()) => {}
                Err(stop) => return Err(stop),
            }
        }
        Ok(())
    }

    // Takes the bytes after the last line feed, which are a line too.
    fn take_last(&mut self, alloc: Global) -> Result<(), Stop>
        ensures { Takes result (after_last scripter self.old) self.new }
    {
        if self.bytes.between_lines() {
            return Ok(());
        }
        self.take_line(alloc)
    }

    /// Takes the end of the input.
    pub(crate) fn finish(&mut self, alloc: Global) -> Result<(), Stop>
        ensures { Takes result (finished scripter self.old) self.new }
    {
        match self.take_last(alloc) {
            Ok(()) => {}
            Err(stop) => return Err(stop),
        }
        match self.bytes.check_end() {
            Ok(()) => Ok(()),
            Err(bad) => Err(Stop::Bad { bad }),
        }
    }

    /// The scripts, where the body has begun.
    pub(crate) fn scripts(self) -> Option<Scripts>
        ensures { result ≡ self.engine }
    {
        self.scripts
    }
}
