// What is kept after an entry that keeps the laws.
ghost use Rattle.std.specs.Prelude.{◌≡◌, ◌%◌, ℕ, OnOk, true};
ghost use Rattle.laws.specs.QueueLaw.{queue_ok};
ghost use Rattle.laws.specs.ScanLaw.{scan_ok};
ghost use Rattle.laws.specs.StateAt.{bucket_at};
ghost use Rattle.laws.specs.records.Record.{Past};
ghost use Rattle.laws.specs.records.Record.Past.{Then};
ghost use Rattle.wfe_check.specs.Checked.{MayCome, Shows};
ghost use Rattle.wfe_check_map.specs.Told.{RootIs};
ghost use Rattle.wfe_check_calls.specs.Places.{IsNamed};
ghost use Rattle.wfe_check_held.specs.Roots.{RowIn};
ghost use Rattle.wfe_check_held.specs.Steps.{IsFound};
ghost use Rattle.wfe_words.specs.declared.config.Config.{Config as Setting};

use crate::Checker;
use wfe_defs::{Call, Event, Interval, NoMemory};

impl Checker {
    // The row of the root of the bucket that an event changes.
    #[inline(always)]
    fn changed_root(&self, event: &Event) -> Option<u32>
        requires may { (seat : ℕ) × MayCome self.now seat event.now }
        ensures { (config : Setting) (p : Past) → Shows config self.now p → RootIs result event.now p }
    {
        match *event {
            Event::Put { bucket, .. } | Event::Removed { bucket, .. } => self.rows.root(bucket),
            _ => None,
        }
    }

    // What the guard publishes that an event tells to be published.
    #[inline(always)]
    fn named(&self, event: &Event) -> Option<Interval>
        requires may { (seat : ℕ) × MayCome self.now seat event.now }
        ensures { (config : Setting) (p : Past) → Shows config self.now p → IsNamed event.now result p }
    {
        match *event {
            Event::Reserve { guard, .. } => self.protections.value(guard),
            _ => None,
        }
    }

    // The row of a key's bucket's root.
    fn root_of_key(&self, key: u64) -> Option<u32>
        requires may { (config : Setting) × (p : Past) × Shows config self.now p }
        ensures { (config : Setting) (p : Past) → Shows config self.now p → result ≡ bucket_at (key % config.buckets) p }
    {
        let buckets = self.config.buckets as u64;
        self.rows.root((key % buckets) as u32)
    }

    // The row of the root of a call that begins.
    #[inline(always)]
    fn found(&self, event: &Event) -> Option<u32>
        requires may { (seat : ℕ) × MayCome self.now seat event.now }
        ensures found { (config : Setting) (p : Past) → Shows config self.now p → IsFound config event.now result p }
        ensures within { (config : Setting) (p : Past) → Shows config self.now p → RowIn config.slots result }
    {
        match *event {
            Event::Begin {
                call: Call::Get { key }
                | Call::Put { key, .. }
                | Call::Remove { key }
                | Call::PutIf { key, .. }
                | Call::Hold { key },
            } => self.root_of_key(key),
            Event::Begin {
                call: Call::Enqueue { .. },
            } => Some(self.rows.tail()),
            Event::Begin {
                call: Call::Dequeue,
            } => Some(self.rows.head()),
            _ => None,
        }
    }

    /// Takes an entry that keeps the laws. NoMemory: there is none for what it leaves, or a count has passed the
    /// numbers of 64 bits; then it stands for no record.
    #[inline(always)]
    pub(crate) fn note(&mut self, seat: u32, event: &Event) -> Result<(), NoMemory>
        requires may { MayCome self.old seat event.now }
        ensures version { self.new.version ≡ self.old.version }
        ensures told { OnOk result ((config : Setting) (p : Past) → Shows config self.old p → queue_ok p seat event.now ≡ true → scan_ok config p seat event.now ≡ true
            → Shows config self.new (Then p seat event.now)) }
    {
        let root = self.changed_root(event);
        let named = self.named(event);
        let helps = self.protections.shows_helper(seat);
        let found = self.found(event);
        let last = self.last_row();
        self.steps.note(seat, event, named, helps)?;
        self.contents.note(seat, event, root)?;
        self.times.note(seat, event, found, last)?;
        self.lists.note(seat, event)?;
        self.calls.note(seat, event)?;
        self.protections.note(seat, event)?;
        self.rows.note(seat, event)
    }
}
