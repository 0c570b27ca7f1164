// What a seat keeps beside its post. All of it is reserved when it is made, so that no step takes
// memory.
ghost use Rattle.std.specs.Prelude.{◌≡◌, ◌<◌, ◌≤◌, ◌+◌, ◌-◌, ◌*◌, [], ◌∷◌, ◌++◌, ◌^◌, length, take, slice_get, Some, true, IfOk};
ghost use Rattle.std.specs.List.{remove};
ghost use Rattle.wfe_core.specs.CallReady.{NotListed};
ghost use Rattle.wfe_core.specs.Desks.{noted, noted_all, noting, no_report, no_notes, new_desk};
ghost use Rattle.wfe_core.specs.DeskHeld.{HasRoom, desk_of, told_answer};
ghost use Rattle.wfe_core.specs.Held.{report_of, notes_of};
ghost use Rattle.wfe_core.specs.Scan.{read_before};

use crate::{Post, Told};
use std::alloc::Global;
use std::marker::Model;
use wfe_defs::{Answer, Event, Guard, Lifetime, NoMemory, Shown};
use wfe_words::Layout;

/// The rows on a seat's retire list, those that it has retired or taken over and not given back, in the
/// order in which they came to it.
#[derive(Drop)]
pub struct RetireList {
    entries: Vec<Lifetime>,
    slots: u32,
}

impl Model for RetireList {
    ghost use Rattle.wfe_core.specs.Held.{ListHeld, ListFits};
    ghost use Rattle.std.specs.Vec.{vec_capacity};

    ghost Value = { ListHeld };

    ghost view = { λ l. record { lives = l.entries.items; slots = l.slots } };

    ghost invariant = { λ l. ListFits l.entries.items l.slots (vec_capacity l.entries) };
}

#[tactic(auto, using(crate::proofs::Lists::fits_push, crate::proofs::Lists::fits_remove, crate::proofs::Lists::fits_empty))]
impl RetireList {
    /// An empty list with room for every row of the table.
    pub fn new(alloc: Global, layout: Layout) -> Result<RetireList, NoMemory>
        ensures { IfOk result (λ list. list ≡ record { lives = []; slots = layout.config.slots }) }
    {
        let slots = layout.config().slots;
        match Vec::with_capacity(alloc, slots as usize + 1) {
            Ok(entries) => Ok(RetireList { entries, slots }),
            Err(_) => Err(NoMemory),
        }
    }

    /// How many rows are in the list, at most the rows of the table.
    pub fn len(&self) -> usize
        ensures count { result ≡ length self.now.lives }
        ensures most { result ≤ self.now.slots + 1 }
    {
        self.entries.len()
    }

    /// The life at a place, from 0.
    pub fn get(&self, place: usize) -> Lifetime
        requires { place < length self.now.lives }
        ensures { slice_get self.now.lives place ≡ Some result }
    {
        self.entries[place]
    }

    /// Adds a life at the end. It takes no memory.
    pub fn add(&mut self, life: Lifetime)
        requires row { life.slot ≤ self.old.slots }
        requires apart { NotListed life.slot self.old.lives }
        ensures lives { self.new.lives ≡ self.old.lives ++ life ∷ [] }
        ensures slots { self.new.slots ≡ self.old.slots }
    {
        let added = self.entries.push(life).is_ok();
        prove!(added);
    }

    /// Takes the life at a place out; the others keep their order.
    pub fn remove(&mut self, place: usize) -> Lifetime
        requires { place < length self.old.lives }
        ensures life { slice_get self.old.lives place ≡ Some result }
        ensures lives { self.new.lives ≡ remove self.old.lives place }
        ensures slots { self.new.slots ≡ self.old.slots }
    {
        let life = self.entries[place];
        close_gap(&mut self.entries, place);
        let _ = self.entries.pop();
        life
    }
}

// Moves each life after a place one place down, so that the last stands twice. A loop, as lists are
// short: a call that moves memory costs more than what it moves.
fn close_gap(lives: &mut [Lifetime], place: usize)
    requires { place < length lives.old }
    ensures long { length lives.new ≡ length lives.old }
    ensures moved { take (length lives.old - 1) lives.new ≡ remove lives.old place }
{
    let mut at = place;
    while at + 1 < lives.len() {
        lives[at] = lives[at + 1];
        at += 1;
    }
}

/// What a seat's last scan read and did. Before the first scan it is empty.
#[derive(Debug, Drop)]
pub struct ScanReport {
    /// Each guard with what it published, in the order of the reads.
    pub read: Vec<(Guard, Shown)>,
    /// How many rows stay in the list.
    pub kept: u32,
    /// How many rows went back.
    pub back: u32,
}

impl Model for ScanReport {
    ghost use Rattle.wfe_core.specs.Held.{ReportHeld};
    ghost use Rattle.std.specs.Vec.{vec_capacity};

    ghost Value = { ReportHeld };

    ghost view = { λ r. record { read = r.read.items; kept = r.kept; back = r.back; room = vec_capacity r.read } };
}

impl ScanReport {
    /// An empty report with room for so many guards.
    pub fn new(alloc: Global, guards: usize) -> Result<ScanReport, NoMemory>
        ensures empty { IfOk result (λ report. report_of report ≡ no_report) }
        ensures room { IfOk result (λ report. guards ≤ report.room) }
    {
        match Vec::with_capacity(alloc, guards) {
            Ok(read) => Ok(ScanReport {
                read,
                kept: 0,
                back: 0,
            }),
            Err(_) => Err(NoMemory),
        }
    }

    /// Notes a guard that was read; the first read of a scan leaves nothing of the scan before it. It
    /// takes no memory.
    pub fn note(&mut self, number: u32, guard: Guard, shown: Shown)
        requires { length (read_before (report_of self.old) number) < self.old.room }
        ensures report { report_of self.new ≡ record { read = read_before (report_of self.old) number ++ (guard, shown) ∷ []; kept = 0; back = 0 } }
        ensures room { self.old.room ≤ self.new.room }
    {
        if number == 0 {
            self.read.clear();
        }
        self.kept = 0;
        self.back = 0;
        let noted = self.read.push((guard, shown)).is_ok();
        prove!(noted);
    }
}

/// What a seat's last call did. Before the first call all is empty, false or 0.
#[derive(Drop)]
pub struct Notes {
    /// Atomic steps.
    pub steps: u64,
    /// The row given, with its birth era.
    pub given: Option<(u32, u32)>,
    /// Whether that row was given up.
    pub unused: bool,
    /// The row retired, with its birth era and its retire era.
    pub retired: Option<Lifetime>,
    /// The slots that went back, in order.
    pub back: Vec<u32>,
    /// How many of them went back before a row was given.
    pub early: u32,
}

impl Model for Notes {
    ghost use Rattle.wfe_core.specs.Held.{NotesHeld};
    ghost use Rattle.std.specs.Vec.{vec_capacity};

    ghost Value = { NotesHeld };

    ghost view = { λ n. record { steps = n.steps; given = n.given; unused = n.unused; retired = n.retired; back = n.back.items; early = n.early; room = vec_capacity n.back } };
}

impl Notes {
    /// Empty notes with room for so many slots.
    pub fn new(alloc: Global, slots: usize) -> Result<Notes, NoMemory>
        ensures empty { IfOk result (λ notes. notes_of notes ≡ no_notes) }
        ensures room { IfOk result (λ notes. slots ≤ notes.room) }
    {
        match Vec::with_capacity(alloc, slots) {
            Ok(back) => Ok(Notes {
                steps: 0,
                given: None,
                unused: false,
                retired: None,
                back,
                early: 0,
            }),
            Err(_) => Err(NoMemory),
        }
    }

    /// Leaves the notes empty, as a call begins.
    pub fn clear(&mut self)
        ensures empty { notes_of self.new ≡ no_notes }
        ensures room { self.old.room ≤ self.new.room }
    {
        self.steps = 0;
        self.given = None;
        self.unused = false;
        self.retired = None;
        self.back.clear();
        self.early = 0;
    }

    /// Notes the events of a step, in order. It takes no memory.
    #[inline(always)]
    pub fn note_all(&mut self, told: &Told)
        requires room { length self.old.back + length told.now ≤ self.old.room }
        requires few { length self.old.back + length told.now < 2 ^ 32 }
        ensures notes { notes_of self.new ≡ noted_all (notes_of self.old) told.now }
        ensures room { self.old.room ≤ self.new.room }
    {
        for place in 0..told.len() {
            self.note(told.get(place));
        }
    }

    /// Notes an event of the call. It takes no memory.
    #[inline(always)]
    pub fn note(&mut self, event: &Event)
        requires room { length self.old.back < self.old.room }
        requires few { length self.old.back < 2 ^ 32 }
        ensures notes { notes_of self.new ≡ noted (notes_of self.old) event.now }
        ensures room { self.old.room ≤ self.new.room }
        ensures back { length self.new.back ≤ length self.old.back + 1 }
    {
        match *event {
            Event::Give { slot, birth } => {
                self.given = Some((slot, birth));
                self.early = self.back.len() as u32;
            }
            Event::Unused { .. } => self.unused = true,
            Event::Retire {
                slot,
                birth,
                retire,
            } => {
                self.retired = Some(Lifetime {
                    slot,
                    birth,
                    retire,
                });
            }
            Event::Back { slot } => {
                let noted = self.back.push(slot).is_ok();
                prove!(noted);
            }
            Event::End { steps, .. } => self.steps = steps,
            _ => {}
        }
    }
}

/// What a seat keeps beside its post. Its lists have all their room from the start.
#[derive(Drop)]
pub struct Desk {
    pub list: RetireList,
    pub report: ScanReport,
    pub notes: Notes,
}

impl Desk {
    /// The desk of a seat that has made no call.
    pub fn new(alloc: Global, layout: Layout) -> Result<Desk, NoMemory>
        ensures empty { IfOk result (λ desk. desk_of desk ≡ new_desk) }
        ensures room { IfOk result (λ desk. HasRoom desk layout) }
    {
        let config = layout.config();
        let seats = config.seats as usize;
        let guards = seats + seats * config.indexes as usize;
        let rows = config.slots as usize + 1;
        Ok(Desk {
            list: RetireList::new(alloc, layout)?,
            report: ScanReport::new(alloc, guards)?,
            notes: Notes::new(alloc, 2 * rows + 8)?,
        })
    }

    /// Tells the answer, where a call has ended, and notes what the step has told. It takes no
    /// memory.
    #[inline(always)]
    pub fn settle(&mut self, post: &Post, told: &mut Told, answer: Option<Answer>)
        requires few { length told.old < 8 }
        requires room { length self.old.notes.back + 8 ≤ self.old.notes.room }
        requires low { length self.old.notes.back + 8 < 2 ^ 32 }
        ensures told { told.new ≡ told.old ++ told_answer post.now answer }
        ensures desk { desk_of self.new ≡ noting (desk_of self.old) told.new }
        ensures list { self.new.list ≡ self.old.list }
        ensures report { self.new.report ≡ self.old.report }
        ensures room { self.old.notes.room ≤ self.new.notes.room }
    {
        if let Some(answer) = answer {
            told.push(Event::End {
                steps: post.steps,
                answer,
            });
        }
        self.notes.note_all(told);
    }
}
