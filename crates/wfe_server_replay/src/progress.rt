// The table that takes a trace's lines as its bytes come.
ghost use Rattle.wfe_server_out.specs.Emits.{Emits};
ghost use Rattle.wfe_server_out.specs.Heard.{boxed};
ghost use Rattle.std.specs.Prelude.{◌≡◌, ◌<◌, ◌≤◌, OnOk, IfOk, None, Some, Ok, Err, [], ◌∷◌, length, take, true};
ghost use Rattle.wfe_server_replay.specs.Opening.{FitsTable, ItemFits, MayPlay, MayTake};
ghost use Rattle.wfe_server_replay.specs.Playing.{player};
ghost use Rattle.wfe_server_replay.specs.Sunk.{Takes, some_of};
ghost use Rattle.wfe_server_replay.specs.Trace.{progress_start, refused_in, command_taken, out_in, item_taken, out_by, refused_by, line_item, line_read, after_line, line_output, after_byte, byte_output, after_bytes, bytes_output, after_last, last_output, finished};
ghost use Rattle.wfe_server_out.specs.Pieces.{Text};
ghost use Rattle.wfe_trace.specs.Good.{is_body};
ghost use Rattle.wfe_trace.specs.Record.{header_line};
ghost use Rattle.wfe_trace.specs.declared.item.Mode.TheVariants.{Replay};
ghost use Rattle.wfe_trace.specs.words.Config.{bad_field};

use crate::play::Play;
use crate::stop::Stop;
use crate::trace_bytes::TraceBytes;
use std::alloc::Global;
use std::marker::Model;
use wfe_drive::Engine;
use wfe_outside::{Command, Sink, Watcher};
use wfe_server_out::{Fault, put_line};
use wfe_trace::{BadLine, Config, Item, Line, Mode, Reason, print_header};

/// A trace of which some bytes came.
#[derive(Drop)]
pub struct Work<E: Engine> {
    bytes: TraceBytes,
    play: Option<Play<E>>,
}

impl<E: Engine> Model for Work<E> {
    ghost use Rattle.wfe_server_replay.specs.Opening.{PlaysIn};
    ghost use Rattle.wfe_server_replay.specs.Playing.{Played};
    ghost use Rattle.wfe_server_replay.specs.Trace.{Progress, taken_by};

    ghost Value = { Progress Played };

    ghost view = { λ w. taken_by w.bytes w.play };

    ghost invariant = { λ w. PlaysIn w.bytes.reading w.play };
}

impl<E: Engine> Work<E> {
    /// No byte came.
    pub fn new() -> Work<E>
        ensures { result ≡ progress_start Mode.Replay }
    {
        Work {
            bytes: TraceBytes::new(Mode::Replay),
            play: None,
        }
    }

    // The setting is whole: makes the table, and writes the header.
    fn open<K: Sink>(
        &mut self,
        alloc: Global,
        version: u32,
        config: Config,
        sink: &mut K,
        watchers: &mut [Box<dyn Watcher>],
    ) -> Result<(), Fault>
        requires config { bad_field config ≡ None }
        requires body { is_body self.old.reading.stage ≡ true }
        requires setting { config ≡ self.old.reading.config }
        ensures after { OnOk result (self.new ≡ record self.old { engine = Some ((player E.taken).opened version config) }) }
        ensures emits { Emits (boxed stands) K.written K.faults K.may_stand result sink.old sink.new watchers.old watchers.new
            (Text (header_line version config) ∷ []) }
    {
        let _ = watchers;
        self.play = Some(Play::open(alloc, config)?);
        let mut line = Line::new();
        print_header(version, &config, &mut line);
        put_line(sink, &line)?;
        Ok(())
    }

    // Why the table does not take the line, if it does not.
    fn why_not(&self, command: &Command) -> Option<Reason>
        requires { FitsTable command.now self.now.engine }
        ensures { result ≡ refused_in (player E.taken) command.now self.now.engine }
    {
        match (command, &self.play) {
            (Command::Call { seat, call }, Some(play)) => play.refuses(*seat, call),
            _ => None,
        }
    }

    // Takes a line of the body, which was read.
    fn take_command<K: Sink>(
        &mut self,
        command: Command,
        sink: &mut K,
        watchers: &mut [Box<dyn Watcher>],
    ) -> Result<(), Fault>
        requires { MayPlay E.taken command self.old.engine }
        ensures after { OnOk result (self.new ≡ command_taken (player E.taken) self.old command self.old.engine) }
        ensures emits { Emits (boxed stands) K.written K.faults K.may_stand result sink.old sink.new watchers.old watchers.new
            (out_in (player E.taken) command self.old.engine) }
    {
        self.bytes.note(&command);
        if let Some(play) = &mut self.play {
            play.perform(command, sink, watchers)?;
        }
        Ok(())
    }

    // Takes what a line says, which was read.
    fn take_item<K: Sink>(
        &mut self,
        alloc: Global,
        item: Item,
        sink: &mut K,
        watchers: &mut [Box<dyn Watcher>],
    ) -> Result<(), Fault>
        requires { MayTake E.taken self.old item }
        ensures after { OnOk result (self.new ≡ item_taken (player E.taken) self.old item) }
        ensures emits { Emits (boxed stands) K.written K.faults K.may_stand result sink.old sink.new watchers.old watchers.new (out_by (player E.taken) self.old item) }
    {
        match item {
            Item::Setting => Ok(()),
            Item::Ready { version, config } => self.open(alloc, version, config, sink, watchers),
            Item::Command { command } => self.take_command(command, sink, watchers),
        }
    }

    // Why the table does not take what a line says, if it does not.
    fn refuses(&self, item: &Item) -> Option<Reason>
        requires { ItemFits item.now self.now.engine }
        ensures { result ≡ refused_by (player E.taken) self.now item.now }
    {
        match item {
            Item::Command { command } => self.why_not(command),
            _ => None,
        }
    }

    // Reads the line under way, which is whole.
    fn read(&mut self) -> Result<Item, BadLine>
        ensures item { result ≡ line_item (player E.taken) self.old }
        ensures after { OnOk result (self.new ≡ line_read self.old) }
        ensures may { IfOk result (MayTake E.taken self.new) }
    {
        let line = self.bytes.number();
        let item = self.bytes.read()?;
        match self.refuses(&item) {
            Some(reason) => Err(BadLine { line, reason }),
            None => Ok(item),
        }
    }

    // Takes the line under way, which is whole.
    fn take_line<K: Sink>(
        &mut self,
        alloc: Global,
        sink: &mut K,
        watchers: &mut [Box<dyn Watcher>],
    ) -> Result<(), Stop>
        ensures { Takes (boxed stands) K.written K.faults K.may_stand result sink.old sink.new watchers.old watchers.new
            (after_line (player E.taken) self.old) self.new (line_output (player E.taken) self.old) }
    {
        let item = match self.read() {
            Ok(item) => item,
            Err(bad) => return Err(Stop::Bad { bad }),
        };
        match self.take_item(alloc, item, sink, watchers) {
            Ok(()) => Ok(()),
            Err(fault) => Err(Stop::Fault { fault }),
        }
    }

    // Takes one byte of the trace.
    fn take_byte<K: Sink>(
        &mut self,
        alloc: Global,
        byte: u8,
        sink: &mut K,
        watchers: &mut [Box<dyn Watcher>],
    ) -> Result<(), Stop>
        ensures { Takes (boxed stands) K.written K.faults K.may_stand result sink.old sink.new watchers.old watchers.new
            (after_byte (player E.taken) self.old byte) self.new (byte_output (player E.taken) self.old byte) }
    {
        match self.bytes.push(byte) {
            Ok(true) => self.take_line(alloc, sink, watchers),
            Ok(false) => Ok(()),
            Err(bad) => Err(Stop::Bad { bad }),
        }
    }

    // Takes the bytes before the first line feed at once, where none of those is bad, and answers how many
    // it took. They put nothing out.
    fn take_plain(&mut self, bytes: &[u8]) -> usize
        ensures within { result ≤ length bytes.now }
        ensures after { after_bytes (player E.taken) (Ok self.old) (take result bytes.now) ≡ Ok self.new }
        ensures output { bytes_output (player E.taken) (Ok self.old) (take result bytes.now) ≡ [] }
    {
        self.bytes.push_plain(bytes)
    }

    // Takes the first of these bytes: up to the first line feed, or one of them. Answers how many it took.
    fn take_some<K: Sink>(
        &mut self,
        alloc: Global,
        bytes: &[u8],
        sink: &mut K,
        watchers: &mut [Box<dyn Watcher>],
    ) -> Result<usize, Stop>
        requires { 0 < length bytes.now }
        ensures within { IfOk result (λ count. (0 < count) × (count ≤ length bytes.now)) }
        ensures takes { Takes (boxed stands) K.written K.faults K.may_stand result sink.old sink.new watchers.old watchers.new
            (after_bytes (player E.taken) (Ok self.old) (some_of result bytes.now)) self.new (bytes_output (player E.taken) (Ok self.old) (some_of result bytes.now)) }
    {
        let count = self.take_plain(bytes);
        if count >= bytes.len() {
            return Ok(count);
        }
        match self.take_byte(alloc, bytes[count], sink, watchers) {
            Ok(()) => Ok(count + 1),
            Err(stop) => Err(stop),
        }
    }

    /// Takes the next bytes of the trace, up to the first that is bad.
    pub fn take_bytes<K: Sink>(
        &mut self,
        alloc: Global,
        bytes: &[u8],
        sink: &mut K,
        watchers: &mut [Box<dyn Watcher>],
    ) -> Result<(), Stop>
        ensures { Takes (boxed stands) K.written K.faults K.may_stand result sink.old sink.new watchers.old watchers.new
            (after_bytes (player E.taken) (Ok self.old) bytes.now) self.new (bytes_output (player E.taken) (Ok self.old) bytes.now) }
    {
        let mut at = 0;
        while at < bytes.len() {
            match self.take_some(alloc, &bytes[at..], sink, watchers) {
                Ok(count) => at += count,
                Err(stop) => return Err(stop),
            }
        }
        Ok(())
    }

    // Takes the bytes after the last line feed, which are a line too.
    fn take_last<K: Sink>(
        &mut self,
        alloc: Global,
        sink: &mut K,
        watchers: &mut [Box<dyn Watcher>],
    ) -> Result<(), Stop>
        ensures { Takes (boxed stands) K.written K.faults K.may_stand result sink.old sink.new watchers.old watchers.new
            (after_last (player E.taken) self.old) self.new (last_output (player E.taken) self.old) }
    {
        if self.bytes.between_lines() {
            return Ok(());
        }
        self.take_line(alloc, sink, watchers)
    }

    /// Takes the end of the input.
    pub fn finish<K: Sink>(
        &mut self,
        alloc: Global,
        sink: &mut K,
        watchers: &mut [Box<dyn Watcher>],
    ) -> Result<(), Stop>
        ensures { Takes (boxed stands) K.written K.faults K.may_stand result sink.old sink.new watchers.old watchers.new
            (finished (player E.taken) self.old) self.new (last_output (player E.taken) self.old) }
    {
        match self.take_last(alloc, sink, watchers) {
            Ok(()) => {}
            Err(stop) => return Err(stop),
        }
        match self.bytes.check_end() {
            Ok(()) => Ok(()),
            Err(bad) => Err(Stop::Bad { bad }),
        }
    }
}
