// Whether an entry keeps the laws, part by part.
ghost use Rattle.std.specs.Prelude.{◌≡◌, ◌<◌, ◌&&◌, ℕ, true};
ghost use Rattle.laws.specs.Fits.{Fits};
ghost use Rattle.laws.specs.records.Record.{Past};
ghost use Rattle.laws.specs.HoldLaw.{behind_ok, gots_ok};
ghost use Rattle.laws.specs.Once.{lists_ok};
ghost use Rattle.wfe_check.specs.Checked.{IsChecked, MayCome, Shows};
ghost use Rattle.wfe_check.specs.Groups.{FitsCalls, FitsContents, FitsGuards, FitsParts, FitsRows, FitsStanding, FitsTimes};
ghost use Rattle.wfe_check_held.specs.Roots.{last_row as last_of};
ghost use Rattle.wfe_check_held.specs.Tests.{IsBirth, IsSource};
ghost use Rattle.wfe_check_calls.specs.Right.{IsRight};
ghost use Rattle.laws.specs.StateAt.{value_of};
ghost use Rattle.wfe_defs.specs.declared.call.Call.TheVariants.{Copy as CopyCall};
ghost use Rattle.wfe_defs.specs.declared.event.Guard.TheVariants.{Index as IndexGuard};
ghost use Rattle.wfe_words.specs.declared.config.Config.{Config as Setting};

use crate::Checker;
use wfe_defs::{Call, Event, Guard, Interval};

// Whether both are so.
#[inline(always)]
fn both(one: bool, other: bool) -> bool
    ensures { result ≡ (one && other) }
{
    one && other
}

impl Checker {
    // By what is kept of rows and roots.
    #[inline(always)]
    fn fits_rows(&self, seat: u32, event: &Event) -> bool
        requires may { MayCome self.now seat event.now }
        ensures there { (config : Setting) (p : Past) → Shows config self.now p → result ≡ true → FitsRows config p seat event.now }
        ensures back { (config : Setting) (p : Past) → Shows config self.now p → FitsRows config p seat event.now → result ≡ true }
    {
        self.rows.fits(seat, event)
    }

    // By what is kept of calls.
    #[inline(always)]
    fn fits_calls(&self, seat: u32, event: &Event) -> bool
        requires may { MayCome self.now seat event.now }
        ensures there { (config : Setting) (p : Past) → Shows config self.now p → result ≡ true → FitsCalls config p seat event.now }
        ensures back { (config : Setting) (p : Past) → Shows config self.now p → FitsCalls config p seat event.now → result ≡ true }
    {
        self.calls.fits(seat, event)
    }

    // By what is kept of steps.
    #[inline(always)]
    fn fits_steps(&self, seat: u32, event: &Event) -> bool
        requires may { MayCome self.now seat event.now }
        ensures there { (config : Setting) (p : Past) → Shows config self.now p → result ≡ true → IsRight config p seat event.now }
        ensures back { (config : Setting) (p : Past) → Shows config self.now p → IsRight config p seat event.now → result ≡ true }
    {
        self.steps.fits(seat, event, self.calls.began(seat))
    }

    // By what guards publish.
    #[inline(always)]
    fn fits_guards(&self, seat: u32, event: &Event) -> bool
        requires may { MayCome self.now seat event.now }
        ensures there { (config : Setting) (p : Past) → Shows config self.now p → result ≡ true → FitsGuards self.now.version config p seat event.now }
        ensures back { (config : Setting) (p : Past) → Shows config self.now p → FitsGuards self.now.version config p seat event.now → result ≡ true }
    {
        self.protections.fits(self.version, seat, event)
    }

    // The head's row, where no row is next to it.
    #[inline(always)]
    pub(crate) fn last_row(&self) -> Option<u32>
        ensures { (config : Setting) (p : Past) → Shows config self.now p → result ≡ last_of config.slots p }
    {
        let head = self.rows.head();
        match self.rows.next(head) {
            None => Some(head),
            Some(_) => None,
        }
    }

    // Where index 1 is held or found null.
    #[inline(always)]
    fn is_behind(&self, seat: u32, event: &Event) -> bool
        requires may { MayCome self.now seat event.now }
        ensures { (config : Setting) (p : Past) → Shows config self.now p → result ≡ behind_ok config.slots p seat event.now }
    {
        match *event {
            Event::Held { index, slot, .. } => {
                self.protections.held_behind(&self.rows, seat, index, slot)
            }
            Event::Null { index, .. } => {
                let standing = self.protections.rows(seat, 0);
                self.times.fits_null(seat, index, self.last_row(), standing)
            }
            _ => true,
        }
    }

    // A get tells a version whose row stands, or that it has found none.
    #[inline(always)]
    fn has_got(&self, seat: u32, event: &Event) -> bool
        requires may { MayCome self.now seat event.now }
        ensures { (config : Setting) (p : Past) → Shows config self.now p → result ≡ gots_ok p seat event.now }
    {
        match *event {
            Event::Got {
                bucket,
                version,
                ..
            } => {
                if version == 0 {
                    return self.calls.has_null(seat);
                }
                match self.contents.row(bucket, version) {
                    Some(slot) => self.protections.stands(seat, 0, slot),
                    None => false,
                }
            }
            _ => true,
        }
    }

    // By which rows stand.
    #[inline(always)]
    fn fits_standing(&self, seat: u32, event: &Event) -> bool
        requires may { MayCome self.now seat event.now }
        ensures there { (config : Setting) (p : Past) → Shows config self.now p → result ≡ true → FitsStanding config p seat event.now }
        ensures back { (config : Setting) (p : Past) → Shows config self.now p → FitsStanding config p seat event.now → result ≡ true }
    {
        let reuse = self.protections.reuses_none(seat, event);
        let began = self.calls.began(seat);
        let links = self.protections.links_right(&self.rows, began, seat, event);
        let behind = self.is_behind(seat, event);
        let got = self.has_got(seat, event);
        both(both(reuse, links), both(behind, got))
    }

    // Lists that are left and taken over.
    #[inline(always)]
    fn lists_right(&self, seat: u32, event: &Event) -> bool
        requires may { MayCome self.now seat event.now }
        ensures { (config : Setting) (p : Past) → Shows config self.now p → result ≡ lists_ok p seat event.now }
    {
        let began = self.calls.began(seat);
        match *event {
            Event::Adopted { place, .. } => {
                let left = self.calls.has_left(place);
                let adopted = self.calls.is_adopted(place);
                self.lists.fits_lists(seat, event, began, left, adopted)
            }
            _ => self.lists.fits_lists(seat, event, began, false, false),
        }
    }

    // By what is kept of the map, the queue, lists and scans.
    #[inline(always)]
    fn fits_contents(&self, seat: u32, event: &Event) -> bool
        requires may { MayCome self.now seat event.now }
        ensures there { (config : Setting) (p : Past) → Shows config self.now p → result ≡ true → FitsContents config p seat event.now }
        ensures back { (config : Setting) (p : Past) → Shows config self.now p → FitsContents config p seat event.now → result ≡ true }
    {
        let map = self.contents.fits_map(seat, event);
        let began = self.calls.began(seat);
        let queue = self.contents.fits_queue(seat, event, began);
        let scan = self.lists.fits_scan(seat, event);
        let lists = self.lists_right(seat, event);
        both(both(map, queue), both(scan, lists))
    }

    // The birth era of a row that is retired.
    #[inline(always)]
    fn birth(&self, event: &Event) -> u32
        requires may { (seat : ℕ) × MayCome self.now seat event.now }
        ensures { (config : Setting) (p : Past) → Shows config self.now p → IsBirth event.now result p }
    {
        match *event {
            Event::Retire { slot, .. } => self.rows.birth(slot),
            _ => 0,
        }
    }

    // What the index word publishes from which the seat's call copies.
    #[inline(always)]
    fn source(&self, seat: u32) -> Option<Interval>
        requires seat { seat < self.now.calls.config.seats }
        ensures { (config : Setting) (p : Past) → Shows config self.now p → IsSource seat result p }
    {
        match self.calls.began(seat) {
            Some(call) => self.source_of(seat, call),
            None => None,
        }
    }

    // What the index word publishes from which this call of the seat copies.
    #[inline(always)]
    fn source_of(&self, seat: u32, call: Call) -> Option<Interval>
        requires seat { seat < self.now.calls.config.seats }
        ensures { (config : Setting) (p : Past) → Shows config self.now p → (from index : ℕ) → call ≡ CopyCall from index → from < config.indexes → result ≡ value_of (IndexGuard seat from) p }
    {
        match call {
            Call::Copy { from, .. } => {
                self.protections.value(Guard::Index { seat, index: from })
            }
            _ => None,
        }
    }

    // By what was so at a position of the call.
    #[inline(always)]
    fn fits_times(&self, seat: u32, event: &Event) -> bool
        requires may { MayCome self.now seat event.now }
        ensures there { (config : Setting) (p : Past) → Shows config self.now p → result ≡ true → FitsTimes config p seat event.now }
        ensures back { (config : Setting) (p : Past) → Shows config self.now p → FitsTimes config p seat event.now → result ≡ true }
    {
        let birth = self.birth(event);
        let source = self.source(seat);
        let call = self.times.fits(seat, event, birth, source);
        let seeks = self.calls.seeks_room(seat, event);
        let room = self.times.fits_room(seat, event, seeks);
        both(call, room)
    }

    // By all that is kept, but for whether what stands is held.
    #[inline(always)]
    fn fits_parts(&self, seat: u32, event: &Event) -> bool
        requires may { MayCome self.now seat event.now }
        ensures there { (config : Setting) (p : Past) → Shows config self.now p → result ≡ true → FitsParts self.now.version config p seat event.now }
        ensures back { (config : Setting) (p : Past) → Shows config self.now p → FitsParts self.now.version config p seat event.now → result ≡ true }
    {
        let rows = self.fits_rows(seat, event);
        let calls = self.fits_calls(seat, event);
        let steps = self.fits_steps(seat, event);
        let guards = self.fits_guards(seat, event);
        let standing = self.fits_standing(seat, event);
        let contents = self.fits_contents(seat, event);
        let times = self.fits_times(seat, event);
        let one = both(both(rows, calls), both(steps, guards));
        let other = both(standing, both(contents, times));
        both(one, other)
    }

    /// Whether the record is good with one entry more.
    #[inline(always)]
    pub(crate) fn fits(&self, seat: u32, event: &Event) -> bool
        requires may { MayCome self.now seat event.now }
        ensures there { (version : ℕ) (config : Setting) (p : Past) → IsChecked version config self.now p → result ≡ true → Fits version config p seat event.now }
        ensures back { (version : ℕ) (config : Setting) (p : Past) → IsChecked version config self.now p → Fits version config p seat event.now → result ≡ true }
    {
        let parts = self.fits_parts(seat, event);
        let held = self.protections.holds(&self.rows, seat, event);
        both(parts, held)
    }
}
