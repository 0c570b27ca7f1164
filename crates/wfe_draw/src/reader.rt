// A record's text as its bytes come: its lines, whose entries are noted.
ghost use Rattle.std.specs.Prelude.{◌≡◌, ◌<◌, ◌≤◌, ◌+◌, ◌^◌, ◌++◌, ◌∷◌, [], ℕ, List, IfErr, Ok, OnOk};
ghost use Rattle.model_record.specs.Record.{Past};
ghost use Rattle.model_record.specs.Record.Past.{Start, Then};
ghost use Rattle.wfe_draw_lives.specs.Lives.{count_in};
ghost use Rattle.wfe_draw_lives.specs.Scenes.{Shows};
ghost use Rattle.wfe_draw_lives.specs.declared.scene.Scene.{Scene as AnyScene};
ghost use Rattle.wfe_check_lines.specs.Reading.{Reading, Told, told_after};
ghost use Rattle.wfe_draw.specs.Readers.{Finishes, Holds, NamesNone, Stands, TakesByte, TakesBytes, TakesLast, TakesLine, noted};
ghost use Rattle.wfe_draw.specs.declared.stop.Stop.TheVariants as stops;

use crate::line::{Meaning, Place, read_line};
use crate::part::Part;
use crate::stop::Stop;
use arrayvec::ArrayVec;
use wfe_defs::Event;
use wfe_draw_lives::{Moment, Scene};
use wfe_trace::RecordReason;

// Bytes that a record has at most.
const MOST_BYTES: u32 = 1_073_741_824;

/// A record of which some bytes came.
#[derive(Drop)]
pub struct Reader {
    line: ArrayVec<u8, 200>,
    bytes: u32,
    lines: u64,
    entries: u64,
    place: Place,
    part: Part,
}

// Whether there is room for an entry: it is drawn where its line is in the part.
fn enter(scene: &mut Scene, part: Part, at: Moment) -> bool
    ensures { (p : Past) → Shows scene.old p → Shows scene.new p }
{
    if at.line < part.first {
        return true;
    }
    scene.enter(at.number)
}

// Notes an entry, if its line is not after the part.
fn note_entry(
    scene: &mut Scene,
    part: Part,
    at: Moment,
    seat: u32,
    event: &Event,
) -> Result<(), Stop>
    ensures noted { (p : Past) → Shows scene.old p → (at.line ≤ part.last → at.number ≡ count_in p + 1) → OnOk result (Shows scene.new (noted part.last at.line p seat event.now)) }
    ensures why { IfErr result (λ stop. NamesNone stop) }
{
    if at.line > part.last {
        return Ok(());
    }
    if !enter(scene, part, at) {
        return Err(Stop::TooLarge);
    }
    scene.note(at, seat, event)?;
    Ok(())
}

impl Reader {
    /// No byte came.
    pub fn new(part: Part) -> Reader
        ensures { (scene : AnyScene) → Shows scene Start → Holds part.last [] result scene }
    {
        Reader {
            line: ArrayVec::new(),
            bytes: 0,
            lines: 0,
            entries: 0,
            place: Place::First,
            part,
        }
    }

    // The next entry, on the line under way.
    fn next(&self) -> Moment
        ensures number { self.now.entries < 2 ^ 32 → result.number ≡ self.now.entries + 1 }
        ensures line { self.now.lines < 2 ^ 32 → result.line ≡ self.now.lines + 1 }
    {
        Moment {
            number: self.entries.saturating_add(1),
            line: self.lines.saturating_add(1),
        }
    }

    // The line under way is bad.
    fn bad(&self, reason: RecordReason) -> Stop
        ensures { self.now.lines < 2 ^ 32 → result ≡ stops.BadRecord (self.now.lines + 1) reason }
    {
        Stop::BadRecord {
            line: self.next().line,
            reason,
        }
    }

    // One more byte came.
    fn count_byte(&mut self)
        ensures line { self.new.line ≡ self.old.line }
        ensures bytes { self.old.bytes < 2 ^ 31 → self.new.bytes ≡ self.old.bytes + 1 }
        ensures lines { self.new.lines ≡ self.old.lines }
        ensures entries { self.new.entries ≡ self.old.entries }
        ensures place { self.new.place ≡ self.old.place }
        ensures part { self.new.part ≡ self.old.part }
    {
        self.bytes = self.bytes.saturating_add(1);
    }

    // The line under way is done with.
    fn end_line(&mut self, place: Place, entries: u64)
        ensures line { self.new.line.items ≡ [] }
        ensures bytes { self.new.bytes ≡ self.old.bytes }
        ensures lines { self.old.lines < 2 ^ 32 → self.new.lines ≡ self.old.lines + 1 }
        ensures entries { self.new.entries ≡ entries }
        ensures place { self.new.place ≡ place }
        ensures part { self.new.part ≡ self.old.part }
    {
        self.line.clear();
        self.lines = self.lines.saturating_add(1);
        self.entries = entries;
        self.place = place;
    }

    // Takes the line under way, which tells an entry.
    fn take_entry(&mut self, scene: &mut Scene, seat: u32, event: &Event) -> Result<(), Stop>
        ensures { (last : ℕ) (r : Reading) (p : Past) (after : Told) → r.lines < r.count → Stands last self.old scene.old r p → told_after r.told self.old.line.items ≡ Ok after → after.stage ≡ r.told.stage
            → after.entries ≡ Then r.told.entries seat event.now → TakesLine last result r p self.new scene.new }
    {
        let at = self.next();
        match note_entry(scene, self.part, at, seat, event) {
            Ok(()) => {
                self.end_line(self.place, at.number);
                Ok(())
            }
            Err(stop) => Err(stop),
        }
    }

    // Takes the line under way, which is whole.
    fn take_line(&mut self, scene: &mut Scene) -> Result<(), Stop>
        ensures { (last : ℕ) (r : Reading) (p : Past) → r.lines < r.count → Stands last self.old scene.old r p → TakesLine last result r p self.new scene.new }
    {
        match read_line(self.place, self.line.as_slice()) {
            Err(reason) => Err(self.bad(reason)),
            Ok(Meaning::Goes { place }) => {
                self.end_line(place, self.entries);
                Ok(())
            }
            Ok(Meaning::Entry { seat, event }) => self.take_entry(scene, seat, &event),
        }
    }

    // Takes one byte.
    fn take_byte(&mut self, scene: &mut Scene, byte: u8) -> Result<(), Stop>
        ensures { (last : ℕ) (taken : List ℕ) → Holds last taken self.old scene.old → TakesByte last result taken byte self.new scene.new }
    {
        let is_full = self.bytes >= MOST_BYTES;
        if is_full {
            return Err(self.bad(RecordReason::LongRecord));
        }
        self.count_byte();
        if byte == b'\n' {
            return self.take_line(scene);
        }
        match self.line.try_push(byte) {
            Ok(()) => Ok(()),
            Err(_) => Err(self.bad(RecordReason::LongLine)),
        }
    }

    /// Takes the next bytes, up to a bad one.
    pub fn take_bytes(&mut self, scene: &mut Scene, bytes: &[u8]) -> Result<(), Stop>
        ensures { (last : ℕ) (taken : List ℕ) → Holds last taken self.old scene.old → TakesBytes last result taken bytes.now self.new scene.new }
    {
        for byte in bytes {
            match self.take_byte(scene, *byte) {
                Ok(()) => {}
                Err(stop) => return Err(stop),
            }
        }
        Ok(())
    }

    // Takes the bytes after the last line feed, which are a line too.
    fn take_last(&mut self, scene: &mut Scene) -> Result<(), Stop>
        ensures { (last : ℕ) (taken : List ℕ) → Holds last taken self.old scene.old → TakesLast last result taken self.new scene.new }
    {
        if self.line.as_slice().is_empty() {
            return Ok(());
        }
        self.take_line(scene)
    }

    /// Takes the end of the input.
    pub fn finish(&mut self, scene: &mut Scene) -> Result<(), Stop>
        ensures { (last : ℕ) (taken : List ℕ) → Holds last taken self.old scene.old → Finishes last result taken self.new scene.new }
    {
        match self.take_last(scene) {
            Err(stop) => Err(stop),
            Ok(()) => match self.place {
                Place::First => Err(self.bad(RecordReason::Header)),
                _ => Ok(()),
            },
        }
    }
}
