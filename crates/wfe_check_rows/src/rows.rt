// Rows and roots, as a record leaves them.
ghost use Rattle.std.specs.Prelude.{◌≡◌, ℕ, ◌≤◌, ◌<◌, ◌&&◌, IfOk, OnErr, replicate, slice_set, get_or};
ghost use Rattle.laws.specs.words.declared.config.Config.{Config as Setting};
ghost use Rattle.laws.specs.records.Record.{Past};
ghost use Rattle.laws.specs.records.Record.Past.{Start, Then};
ghost use Rattle.laws.specs.EraLaw.{era_ok};
ghost use Rattle.laws.specs.Once.{free_ok, nexts_ok, order_ok};
ghost use Rattle.laws.specs.StateAt.{birth_of, bucket_at, clock_of, head_at, head_by, life_at, next_at, retire_of, tail_at, tail_by, taken_at, ticked_by};
ghost use Rattle.laws.specs.Ranges.{EntryIn};
ghost use Rattle.wfe_check_rows.specs.Due.{due_of, link_after};
ghost use Rattle.wfe_check_rows.specs.Row.{free_row, row_after, rows_after, rows_at_start};
ghost use Rattle.wfe_check_rows.specs.Rows.{IsRows};
ghost use Rattle.wfe_check_rows.specs.Shown.{due_after, frees, goes_on, life_of, root as root_of, right, roots_after, row as row_of, ticks};

use crate::due::{Due, LastLink};
use crate::row::{Row, changed_row};
use std::alloc::Global;
use wfe_defs::{Event, Lifetime, NoMemory, Root};
use wfe_words::Config;

/// What a record says of rows and roots, up to an entry. All its memory is taken when it is made. A
/// slot of a row is 0 to the setting's number of slots, which names the queue's first row; answers
/// for other slots and buckets say nothing.
#[derive(Drop)]
pub struct Rows {
    config: Config,
    clock: u64,
    rows: Vec<Row>,
    roots: Vec<Option<u32>>,
    head: u32,
    tail: u32,
    due: Due,
    last: LastLink,
}

impl Rows {
    /// Those of a record without entries.
    pub fn new(alloc: Global, config: Config) -> Result<Rows, NoMemory>
        ensures { IfOk result (λ rows. IsRows config rows Start) }
    {
        let rows = first_rows(alloc, config.slots)?;
        let roots = first_roots(alloc, config.buckets)?;
        Ok(Rows {
            config,
            clock: 1,
            rows,
            roots,
            head: config.slots,
            tail: config.slots,
            due: Due::Nothing,
            last: LastLink::None,
        })
    }

    fn row(&self, slot: u32) -> Row
        ensures { result ≡ row_of self.now slot }
    {
        self.rows.get(slot as usize).copied().unwrap_or(Row::FREE)
    }

    /// The clock.
    pub fn clock(&self) -> u64
        ensures { (config : Setting) (p : Past) → IsRows config self.now p → result ≡ clock_of p }
    {
        self.clock
    }

    /// Whether the row is taken.
    pub fn is_taken(&self, slot: u32) -> bool
        ensures shown { result ≡ (row_of self.now slot).taken }
        ensures told { (config : Setting) (p : Past) → IsRows config self.now p → slot ≤ config.slots → result ≡ taken_at config.slots slot p }
    {
        self.row(slot).taken
    }

    /// The birth era of the row's last Give, and 1 before it.
    pub fn birth(&self, slot: u32) -> u32
        ensures shown { result ≡ (row_of self.now slot).birth }
        ensures told { (config : Setting) (p : Past) → IsRows config self.now p → slot ≤ config.slots → result ≡ birth_of slot p }
    {
        self.row(slot).birth
    }

    /// The retire era of the row's Retire since its last Give, and 0 before it.
    pub fn retire(&self, slot: u32) -> u32
        ensures { (config : Setting) (p : Past) → IsRows config self.now p → slot ≤ config.slots → result ≡ retire_of slot p }
    {
        self.row(slot).retire
    }

    /// The row's life, of both eras.
    pub fn life(&self, slot: u32) -> Lifetime
        ensures shown { result ≡ life_of self.now slot }
        ensures told { (config : Setting) (p : Past) → IsRows config self.now p → slot ≤ config.slots → result ≡ life_at slot p }
    {
        let row = self.row(slot);
        Lifetime {
            slot,
            birth: row.birth,
            retire: row.retire,
        }
    }

    /// The row of the row's next link.
    pub fn next(&self, slot: u32) -> Option<u32>
        ensures shown { result ≡ (row_of self.now slot).next }
        ensures told { (config : Setting) (p : Past) → IsRows config self.now p → slot ≤ config.slots → result ≡ next_at slot p }
    {
        self.row(slot).next
    }

    /// The row of a bucket's root.
    pub fn root(&self, bucket: u32) -> Option<u32>
        ensures shown { result ≡ root_of self.now bucket }
        ensures told { (config : Setting) (p : Past) → IsRows config self.now p → bucket < config.buckets → result ≡ bucket_at bucket p }
    {
        self.roots.get(bucket as usize).copied().unwrap_or(None)
    }

    /// The row of the queue's head.
    pub fn head(&self) -> u32
        ensures shown { result ≡ self.now.head }
        ensures told { (config : Setting) (p : Past) → IsRows config self.now p → result ≡ head_at config.slots p }
    {
        self.head
    }

    /// The row of the queue's tail.
    pub fn tail(&self) -> u32
        ensures shown { result ≡ self.now.tail }
        ensures told { (config : Setting) (p : Past) → IsRows config self.now p → result ≡ tail_at config.slots p }
    {
        self.tail
    }

    #[inline(always)]
    fn frees_right(&self, event: &Event) -> bool
        ensures { result ≡ frees self.now event.now }
    {
        match *event {
            Event::Give { slot, .. } => !self.row(slot).taken,
            Event::Unused { slot } | Event::Back { slot } => self.row(slot).taken,
            _ => true,
        }
    }

    #[inline(always)]
    fn goes_on_right(&self, event: &Event) -> bool
        ensures { result ≡ goes_on self.now event.now }
    {
        match *event {
            Event::Link {
                root: Root::Next(parent),
                ..
            } => self.row(parent).next.is_none(),
            Event::Link {
                root: Root::Head,
                slot,
            } => self.row(self.head).next == Some(slot),
            Event::Link {
                root: Root::Tail,
                slot,
            } => self.row(self.tail).next == Some(slot),
            _ => true,
        }
    }

    #[inline(always)]
    fn ticks_right(&self, event: &Event) -> bool
        ensures { result ≡ ticks self.now event.now }
    {
        match *event {
            Event::Era { era } => {
                era > 0 && u64::from(era - 1) == self.clock && era <= self.config.last_era
            }
            _ => true,
        }
    }

    #[inline(always)]
    fn is_right(&self, seat: u32, event: &Event) -> bool
        ensures { result ≡ right self.now seat event.now }
    {
        self.frees_right(event)
            && self.goes_on_right(event)
            && self.due.allows(seat, event)
            && self.ticks_right(event)
    }

    /// Whether an entry is in order, as far as rows, roots and the clock go: a free row is given and
    /// a taken one freed, next links lead on, cuts and changes come where they are due, and the
    /// clock goes on by one, up to the last era.
    #[inline(always)]
    pub fn fits(&self, seat: u32, event: &Event) -> bool
        ensures { (config : Setting) (p : Past) → IsRows config self.now p → EntryIn config seat event.now
            → result ≡ (free_ok config.slots p seat event.now && nexts_ok config.slots p seat event.now && order_ok config.slots p seat event.now && era_ok config.last_era p seat event.now) }
    {
        self.is_right(seat, event)
    }

    #[inline(always)]
    fn due_next(&self, seat: u32, event: &Event) -> Due
        ensures { due_of result ≡ due_after self.now seat event.now }
    {
        match *event {
            Event::Link {
                root: Root::Bucket(bucket),
                ..
            } => match self.root(bucket) {
                None => Due::Change { seat, bucket },
                Some(slot) => Due::Cut { seat, slot },
            },
            Event::Link {
                root: Root::Next(_),
                ..
            } => Due::Queued { seat },
            Event::Link {
                root: Root::Head,
                ..
            } => Due::Cut {
                seat,
                slot: self.head,
            },
            Event::Cut { .. } => self.last.due_after_cut(seat),
            _ => Due::Nothing,
        }
    }

    // What an event of a seat makes of all but the clock.
    #[inline(always)]
    fn change(&mut self, seat: u32, event: &Event)
        ensures config { self.new.config ≡ self.old.config }
        ensures clock { self.new.clock ≡ self.old.clock }
        ensures rows { self.new.rows.items ≡ rows_after event.now self.old.rows.items }
        ensures roots { self.new.roots.items ≡ roots_after event.now self.old.roots.items }
        ensures head { self.new.head ≡ head_by event.now self.old.head }
        ensures tail { self.new.tail ≡ tail_by event.now self.old.tail }
        ensures due { due_of self.new.due ≡ due_after self.old seat event.now }
        ensures last { self.new.last ≡ link_after event.now }
    {
        self.due = self.due_next(seat, event);
        self.last = LastLink::of(event);
        self.head = head_after(self.head, event);
        self.tail = tail_after(self.tail, event);
        change_rows(&mut self.rows, event);
        change_roots(&mut self.roots, event);
    }

    /// Takes an entry in. It fails only where the clock has reached the greatest u64.
    #[inline(always)]
    pub fn note(&mut self, seat: u32, event: &Event) -> Result<(), NoMemory>
        ensures full { OnErr result (self.old.clock ≡ u64.MAX) }
        ensures noted { IfOk result (λ _. (config : Setting) (p : Past) → IsRows config self.old p → EntryIn config seat event.now → IsRows config self.new (Then p seat event.now)) }
    {
        let clock = clock_after(self.clock, event)?;
        self.change(seat, event);
        self.clock = clock;
        Ok(())
    }
}

// The rows before the first entry: the queue's first one is taken, and no other.
fn first_rows(alloc: Global, slots: u32) -> Result<Vec<Row>, NoMemory>
    ensures { IfOk result (λ rows. rows.items ≡ rows_at_start slots) }
{
    let last = slots as usize;
    let Ok(mut rows) = vec![in alloc; Row::FREE; last + 1] else {
        return Err(NoMemory);
    };
    rows[last] = Row::DUMMY;
    Ok(rows)
}

fn first_roots(alloc: Global, buckets: u32) -> Result<Vec<Option<u32>>, NoMemory>
    ensures { IfOk result (λ roots. roots.items ≡ replicate buckets None) }
{
    match vec![in alloc; None; buckets as usize] {
        Ok(roots) => Ok(roots),
        Err(_) => Err(NoMemory),
    }
}

#[inline(always)]
fn clock_after(clock: u64, event: &Event) -> Result<u64, NoMemory>
    ensures full { OnErr result (clock ≡ u64.MAX) }
    ensures told { IfOk result (λ after. after ≡ ticked_by event.now clock) }
{
    match event {
        Event::Era { .. } => clock.checked_add(1).ok_or(NoMemory),
        _ => Ok(clock),
    }
}

// A row is changed by a copy of the event: what only the caller has the compiler knows for good, and so asks the
// event's kind once.
#[inline(always)]
fn change_rows(rows: &mut [Row], event: &Event)
    ensures { rows.new ≡ rows_after event.now rows.old }
{
    match changed_row(event) {
        Some(slot) => {
            let copy = *event;
            change_row(rows, slot, &copy);
        }
        None => {}
    }
}

fn change_row(rows: &mut [Row], slot: u32, event: &Event)
    ensures { rows.new ≡ slice_set rows.old slot (row_after event.now (get_or rows.old slot free_row)) }
{
    let place = slot as usize;
    if place < rows.len() {
        rows[place] = rows[place].after(event);
    }
}

#[inline(always)]
fn change_roots(roots: &mut [Option<u32>], event: &Event)
    ensures { roots.new ≡ roots_after event.now roots.old }
{
    match *event {
        Event::Link {
            root: Root::Bucket(bucket),
            slot,
        } => change_root(roots, bucket, slot),
        _ => {}
    }
}

fn change_root(roots: &mut [Option<u32>], bucket: u32, slot: u32)
    ensures { roots.new ≡ slice_set roots.old bucket (Some slot) }
{
    let place = bucket as usize;
    if place < roots.len() {
        roots[place] = Some(slot);
    }
}

#[inline(always)]
fn head_after(head: u32, event: &Event) -> u32
    ensures { result ≡ head_by event.now head }
{
    match *event {
        Event::Link {
            root: Root::Head,
            slot,
        } => slot,
        _ => head,
    }
}

#[inline(always)]
fn tail_after(tail: u32, event: &Event) -> u32
    ensures { result ≡ tail_by event.now tail }
{
    match *event {
        Event::Link {
            root: Root::Tail,
            slot,
        } => slot,
        _ => tail,
    }
}
