// Tests of an entry against what guards publish and which rows stand.
ghost use Rattle.std.specs.Prelude.{◌≡◌, ℕ, ◌&&◌, ◌↔◌, ◌<◌, Option, true};
ghost use Rattle.laws.specs.words.declared.config.Config.{Config as Setting};
ghost use Rattle.laws.specs.defs.declared.event.Event.TheVariants as events;
ghost use Rattle.laws.specs.records.Record.{Past};
ghost use Rattle.laws.specs.EraLaw.{guard_ok, kind_ok, rising_ok, single_ok};
ghost use Rattle.laws.specs.HoldLaw.{bare_ok, behind_ok, links_ok};
ghost use Rattle.laws.specs.ScanLaw.{read_ok};
ghost use Rattle.laws.specs.StateAt.{began_of};
ghost use Rattle.laws.specs.Good.{rests_of};
ghost use Rattle.laws.specs.Ranges.{EntryIn};
ghost use Rattle.wfe_check_rows.specs.Rows.{IsRows};
ghost use Rattle.wfe_check_held.specs.All.{all_below};
ghost use Rattle.wfe_check_held.specs.Protections.{IsProtections, NoneReused};
ghost use Rattle.wfe_check_held.specs.Shown.{ends_right as ends_by, held_behind as held_by, indexes_of, links_right as links_by, low_or_bare as low_or_bare_at, misses_at, misses_by, reserves_right as reserves_by, rests as rests_below, reuses_none as reuses, right, stands_for_in, stands_nowhere as is_nowhere, word_rests as rests_at};

use crate::Protections;
use crate::spans::{
    is_alike, is_blank, is_index, is_one_era, is_one_interval, rises, same_interval, same_row,
    same_span, seat_of,
};
use wfe_check_rows::{Rows, is_of_rows, of_span};
use wfe_defs::{Call, Event, Guard, Interval, Root};
use wfe_words::SchemeKind;

// How many indexes a version speaks of.
fn named_indexes(version: u32, indexes: u32) -> u32
    ensures { result ≡ indexes_of version indexes }
{
    if version >= 2 { indexes } else { 3 }
}

impl Protections {
    fn reserves_right(&self, seat: u32, guard: Guard, span: Option<Interval>) -> bool
        ensures { result ≡ reserves_by self.now seat guard span }
    {
        let scheme = self.config.scheme;
        let helped = || same_interval(span, self.value(Guard::Helper { seat }));
        is_one_era(scheme, span)
            && (!is_one_interval(scheme) || rises(self.value(guard), span))
            && (seat_of(guard) == seat
                || (is_index(guard) && (scheme == SchemeKind::Wfe && helped())))
    }

    // An index word publishes where a row stands at it, from index 2 on, and nothing below.
    fn word_rests(&self, seat: u32, index: u32) -> bool
        ensures { result ≡ rests_at self.now seat index }
    {
        let value = self.published(Guard::Index { seat, index });
        if index < 2 {
            is_blank(value)
        } else {
            is_alike(value, self.is_bare(seat, index))
        }
    }

    fn all_words_rest(&self, seat: u32, below: u32) -> bool
        ensures { result ≡ all_below (rests_at self.now seat) below }
    {
        let mut all = true;
        for index in 0..below {
            all = self.word_rests(seat, index) && all;
        }
        all
    }

    fn low_or_bare(&self, seat: u32, index: u32) -> bool
        ensures { result ≡ low_or_bare_at self.now seat index }
    {
        index < 2 || self.is_bare(seat, index)
    }

    // No row stands at an index from 2 on.
    fn all_bare(&self, seat: u32, below: u32) -> bool
        ensures { result ≡ all_below (low_or_bare_at self.now seat) below }
    {
        let mut all = true;
        for index in 0..below {
            all = self.low_or_bare(seat, index) && all;
        }
        all
    }

    // The seat's guards publish nothing, but for what is held on.
    fn rests(&self, below: u32, seat: u32) -> bool
        ensures { result ≡ rests_below self.now below seat }
    {
        if is_one_interval(self.config.scheme) {
            is_alike(
                of_span(self.value(Guard::Whole { seat })),
                self.all_bare(seat, below),
            )
        } else {
            self.value(Guard::Helper { seat }).is_none() && self.all_words_rest(seat, below)
        }
    }

    fn ends_right(&self, version: u32, seat: u32) -> bool
        ensures { result ≡ ends_by self.now version seat }
    {
        self.is_bare(seat, 0)
            && self.is_bare(seat, 1)
            && self.rests(named_indexes(version, self.config.indexes), seat)
    }

    #[inline(always)]
    fn is_right(&self, version: u32, seat: u32, event: &Event) -> bool
        ensures { result ≡ right self.now version seat event.now }
    {
        let rows = is_of_rows(self.config.scheme);
        match *event {
            Event::Read { guard, span } => !rows && same_span(span, self.value(guard)),
            Event::Saw { guard, slot } => {
                rows && is_index(guard) && same_row(slot, self.hazard(guard))
            }
            Event::Reserve { guard, span } => !rows && self.reserves_right(seat, guard, span),
            Event::Hazard { guard, .. } => rows && is_index(guard) && seat_of(guard) == seat,
            Event::End { .. } => self.ends_right(version, seat),
            _ => true,
        }
    }

    /// Whether an entry of a record of the version is in order, as far as guards go: what is read
    /// of a guard is its value, what one is told to publish is by the rules of the scheme and of the
    /// kind that the scheme publishes, and where a call ends nothing stands at index 0 or 1 and guards publish only for what is held on.
    #[inline(always)]
    pub fn fits(&self, version: u32, seat: u32, event: &Event) -> bool
        ensures { (config : Setting) (p : Past) → IsProtections config self.now p → EntryIn config seat event.now
            → result ≡ (read_ok p seat event.now && single_ok config.scheme p seat event.now && rising_ok config.scheme p seat event.now && guard_ok config.scheme p seat event.now && kind_ok config.scheme p seat event.now && bare_ok p seat event.now && rests_of version config p seat event.now) }
    {
        self.is_right(version, seat, event)
    }

    fn misses(&self, slot: u32, seat: u32) -> bool
        ensures { result ≡ misses_by self.now slot seat }
    {
        let mut all = true;
        for index in 0..self.config.indexes {
            all = !self.stands(seat, index, slot) && all;
        }
        all
    }

    fn stands_nowhere(&self, slot: u32) -> bool
        ensures { result ≡ is_nowhere self.now slot }
    {
        let mut all = true;
        for seat in 0..self.config.seats {
            all = self.misses(slot, seat) && all;
        }
        all
    }

    #[inline(always)]
    fn reuses(&self, event: &Event) -> bool
        ensures { result ≡ reuses self.now event.now }
    {
        match *event {
            Event::Give { slot, .. } | Event::Unused { slot } | Event::Back { slot } => {
                self.stands_nowhere(slot)
            }
            _ => true,
        }
    }

    /// Whether an entry uses no row again that stands.
    #[inline(always)]
    pub fn reuses_none(&self, seat: u32, event: &Event) -> bool
        ensures { (config : Setting) (p : Past) → IsProtections config self.now p → (result ≡ true) ↔ NoneReused p seat event.now }
    {
        self.reuses(event)
    }

    fn stands_for(&self, seat: u32, row: Option<u32>) -> bool
        ensures { result ≡ stands_for_in self.now seat row }
    {
        match row {
            None => true,
            Some(slot) => self.stands(seat, 0, slot),
        }
    }

    #[inline(always)]
    fn links(&self, rows: &Rows, call: Option<Call>, seat: u32, event: &Event) -> bool
        ensures { result ≡ links_by self.now rows.now call seat event.now }
    {
        match *event {
            Event::Link {
                root: Root::Bucket(bucket),
                ..
            } => self.stands_for(seat, rows.root(bucket)),
            Event::Link {
                root: Root::Next(parent),
                ..
            } => self.stands(seat, 0, parent),
            Event::Link {
                root: Root::Head,
                slot,
            } => self.stands(seat, 0, rows.head()) && self.stands(seat, 1, slot),
            Event::Link {
                root: Root::Tail,
                slot,
            } => {
                self.stands(seat, 0, rows.tail())
                    && (!matches!(call, Some(Call::Dequeue)) || self.stands(seat, 1, slot))
            }
            _ => true,
        }
    }

    /// Whether the rows stand that a link wants to: the one that it replaces, or behind which it
    /// links. `rows` is what the record says of rows, and `call` the call that the seat began last.
    #[inline(always)]
    pub fn links_right(&self, rows: &Rows, call: Option<Call>, seat: u32, event: &Event) -> bool
        ensures { (config : Setting) (p : Past) → IsProtections config self.now p → IsRows config rows.now p → EntryIn config seat event.now
            → call ≡ began_of seat p → result ≡ links_ok config.slots p seat event.now }
    {
        self.links(rows, call, seat, event)
    }

    fn is_behind(&self, rows: &Rows, seat: u32, index: u32, slot: u32) -> bool
        ensures { result ≡ held_by self.now rows.now seat index slot }
    {
        index != 1 || (self.stands(seat, 0, rows.head()) && rows.next(rows.head()) == Some(slot))
    }

    /// Whether a row that is told to stand at an index may do so: at index 1 it is the next row of
    /// the head's, which stands at index 0. It is the test of a Held with these numbers.
    #[inline(always)]
    pub fn held_behind(&self, rows: &Rows, seat: u32, index: u32, slot: u32) -> bool
        ensures { (config : Setting) (p : Past) → IsProtections config self.now p → IsRows config rows.now p → seat < config.seats
            → (steps : ℕ) → result ≡ behind_ok config.slots p seat (events.Held index slot steps) }
    {
        self.is_behind(rows, seat, index, slot)
    }
}
