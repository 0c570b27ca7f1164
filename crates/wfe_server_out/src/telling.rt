// Each watcher is told an event, and then its line is written.
ghost use Rattle.std.specs.Prelude.{◌≡◌, ◌<◌, [], ◌∷◌, length, OnOk, OnErr, IfErr};
ghost use Rattle.std.specs.Io.KnownBytes.{Keeps};
ghost use Rattle.wfe_outside.specs.defs.Entry.{entry};
ghost use Rattle.wfe_outside.specs.Watched.{Grows};
ghost use Rattle.wfe_server_out.specs.Emits.{Emits, Writes};
ghost use Rattle.wfe_server_out.specs.Heard.{Hears, HearsSome, boxed};
ghost use Rattle.wfe_server_out.specs.Pieces.{Told as told_piece, text_of, told_pieces};
ghost use Rattle.wfe_server_out.specs.PutOut.{FailsToWrite, FailsToTell};

use crate::Fault;
use crate::size::size;
use crate::write::put_line;
use wfe_core::Told;
use wfe_outside::{Event, Failed, NoMemory, Sink, Watcher};
use wfe_trace::{Line, print_event};

// Tells one watcher.
fn tell_one(watcher: &mut Box<dyn Watcher>, seat: u32, event: &Event) -> Result<(), NoMemory>
    ensures ok { OnOk result (Grows stands watcher.old watcher.new (entry seat event.now)) }
    ensures err { OnErr result (watcher.new ≡ watcher.old) }
    ensures place { watcher.new.ptr ≡ watcher.old.ptr }
{
    watcher.note(seat, event)
}

// Tells each watcher, in order.
fn tell_watchers(
    watchers: &mut [Box<dyn Watcher>],
    seat: u32,
    event: &Event,
) -> Result<(), NoMemory>
    ensures ok { OnOk result (Hears (boxed stands) watchers.old watchers.new (entry seat event.now ∷ [])) }
    ensures some { HearsSome (boxed stands) watchers.old watchers.new (entry seat event.now ∷ []) }
    ensures needs_a_watcher { OnErr result (0 < length watchers.old) }
{
    for watcher in watchers.iter_mut() {
        tell_one(watcher, seat, event)?;
    }
    Ok(())
}

// Writes the line of an event.
#[inline(always)]
fn put_event<K: Sink>(sink: &mut K, line: &mut Line, seat: u32, event: &Event) -> Result<(), Failed>
    ensures { Writes K.written K.faults K.may_stand result sink.old sink.new (text_of (told_piece (entry seat event.now) ∷ [])) }
{
    print_event(seat, event, line);
    put_line(sink, line)
}

/// Tells each watcher the event, in order, and then writes its line, which is made in the line that is
/// given. Where writing fails, each watcher has heard the event; where a watcher has no memory, nothing
/// of the line is written.
#[inline(always)]
pub fn tell<K: Sink>(
    sink: &mut K,
    line: &mut Line,
    watchers: &mut [Box<dyn Watcher>],
    seat: u32,
    event: &Event,
) -> Result<(), Fault>
    ensures emits { Emits (boxed stands) K.written K.faults K.may_stand result sink.old sink.new watchers.old watchers.new (told_piece (entry seat event.now) ∷ []) }
    ensures heard_before { IfErr result (λ fault. fault ≡ Fault.Write → Hears (boxed stands) watchers.old watchers.new (entry seat event.now ∷ [])) }
    ensures unwritten { IfErr result (λ fault. fault ≡ Fault.Memory → Keeps (K.written sink.old) (K.written sink.new)) }
    ensures needs_a_watcher { IfErr result (λ fault. fault ≡ Fault.Memory → 0 < length watchers.old) }
{
    size(*event);
    tell_watchers(watchers, seat, event)?;
    put_event(sink, line, seat, event)?;
    Ok(())
}

/// Tells the events of one step of a seat, each before the next.
#[inline(always)]
pub fn tell_all<K: Sink>(
    sink: &mut K,
    line: &mut Line,
    watchers: &mut [Box<dyn Watcher>],
    seat: u32,
    told: &Told,
) -> Result<(), Fault>
    ensures emits { Emits (boxed stands) K.written K.faults K.may_stand result sink.old sink.new watchers.old watchers.new (told_pieces seat told.now) }
    ensures heard_before { IfErr result (λ fault. fault ≡ Fault.Write → FailsToWrite (boxed stands) (K.written sink.old) (K.written sink.new) watchers.old watchers.new (told_pieces seat told.now)) }
    ensures unwritten { IfErr result (λ fault. fault ≡ Fault.Memory → FailsToTell (boxed stands) (K.written sink.old) (K.written sink.new) watchers.old watchers.new (told_pieces seat told.now)) }
    ensures needs_a_watcher { IfErr result (λ fault. fault ≡ Fault.Memory → 0 < length watchers.old) }
{
    for place in 0..told.len() {
        tell(sink, line, watchers, seat, told.get(place))?;
    }
    Ok(())
}
