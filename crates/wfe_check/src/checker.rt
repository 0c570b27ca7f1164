// The checker: all that is kept of a record's entries, part by part.
ghost use Rattle.std.specs.Prelude.{◌≡◌, ℕ, IfOk, None, OnOk, true};
ghost use Rattle.laws.specs.Fits.{Fits};
ghost use Rattle.laws.specs.QueueLaw.{queue_ok};
ghost use Rattle.laws.specs.ScanLaw.{scan_ok};
ghost use Rattle.laws.specs.records.Record.{Past};
ghost use Rattle.laws.specs.records.Record.Past.{Start, Then};
ghost use Rattle.wfe_check.specs.Checked.{IsChecked, MayCome, Shows};
ghost use Rattle.wfe_check_calls.specs.CallSteps.{IsSteps};
ghost use Rattle.wfe_check_calls.specs.Calls.{IsCalls};
ghost use Rattle.wfe_check_held.specs.Protections.{IsProtections};
ghost use Rattle.wfe_check_held.specs.Times.{IsTimes};
ghost use Rattle.wfe_check_map.specs.ListStanding.{IsLists};
ghost use Rattle.wfe_check_map.specs.Standing.{IsContents};
ghost use Rattle.wfe_check_rows.specs.Rows.{IsRows};
ghost use Rattle.wfe_check_lines.specs.Judged.{Judged};
ghost use Rattle.wfe_words.specs.Config.{bad_field};
ghost use Rattle.wfe_words.specs.declared.config.Config.{Config as Setting};

use std::alloc::Global;
use wfe_check_calls::{Calls, Steps};
use wfe_check_held::{Protections, Times};
use wfe_check_map::{Contents, Lists};
use wfe_check_rows::Rows;
use wfe_defs::{Event, NoMemory};
use wfe_words::Config;

/// What is kept of a record, so that the laws can be read of its next entry. Its memory is bounded by the
/// setting, but for the values that are queued and what each change of a bucket leaves.
#[derive(Drop)]
pub struct Checker {
    pub(crate) version: u32,
    pub(crate) config: Config,
    pub(crate) rows: Rows,
    pub(crate) protections: Protections,
    pub(crate) calls: Calls,
    pub(crate) steps: Steps,
    pub(crate) contents: Contents,
    pub(crate) lists: Lists,
    pub(crate) times: Times,
}

// What is kept of rows, and of what guards them.
fn of_rows(alloc: Global, config: Config) -> Result<(Rows, Protections, Times), NoMemory>
    requires { bad_field config ≡ None }
    ensures rows { IfOk result (λ parts. IsRows config parts.0 Start) }
    ensures protections { IfOk result (λ parts. IsProtections config parts.1 Start) }
    ensures times { IfOk result (λ parts. IsTimes config parts.2 Start) }
{
    let rows = Rows::new(alloc, config)?;
    let protections = Protections::new(alloc, config)?;
    let times = Times::new(alloc, config)?;
    Ok((rows, protections, times))
}

// What is kept of calls, and of what they leave.
fn of_calls(alloc: Global, config: Config) -> Result<(Calls, Steps, Contents, Lists), NoMemory>
    requires { bad_field config ≡ None }
    ensures calls { IfOk result (λ parts. IsCalls config parts.0 Start) }
    ensures steps { IfOk result (λ parts. IsSteps config parts.1 Start) }
    ensures contents { IfOk result (λ parts. IsContents config parts.2 Start) }
    ensures lists { IfOk result (λ parts. IsLists config parts.3 Start) }
{
    let calls = Calls::new(alloc, config)?;
    let steps = Steps::new(alloc, config)?;
    let contents = Contents::new(alloc, config)?;
    let lists = Lists::new(alloc, config)?;
    Ok((calls, steps, contents, lists))
}

impl Checker {
    /// Stands for the record of the version and with the setting that has no entries. NoMemory: there is none
    /// for what is kept.
    pub fn new(alloc: Global, version: u32, config: Config) -> Result<Checker, NoMemory>
        requires { bad_field config ≡ None }
        ensures { IfOk result (λ checker. IsChecked version config checker Start) }
    {
        let (rows, protections, times) = of_rows(alloc, config)?;
        let (calls, steps, contents, lists) = of_calls(alloc, config)?;
        Ok(Checker {
            version,
            config,
            rows,
            protections,
            calls,
            steps,
            contents,
            lists,
            times,
        })
    }

    /// Whether the record is good with one entry more, and then stands for it. After an entry that is
    /// answered with false, and after NoMemory, it stands for none.
    #[inline(always)]
    pub fn entry(&mut self, seat: u32, event: &Event) -> Result<bool, NoMemory>
        requires { MayCome self.old seat event.now }
        ensures { IfOk result (λ answer. (version : ℕ) (config : Setting) (p : Past) → IsChecked version config self.old p
            → Judged IsChecked version config p seat event.now answer self.new) }
    {
        if !self.fits_kind(seat, event) {
            return Ok(false);
        }
        self.note_kind(seat, event)?;
        Ok(true)
    }

    // Whether the record is good with one entry more. Each of the kinds that come most often has code of its own, so
    // that no part asks again which it is. For this the parts' functions that are handed the event are inlined, and what
    // an entry fits stands apart from what is noted of it: both in one are more than is inlined.
    #[inline(never)]
    fn fits_kind(&self, seat: u32, event: &Event) -> bool
        requires may { MayCome self.now seat event.now }
        ensures there { (version : ℕ) (config : Setting) (p : Past) → IsChecked version config self.now p → result ≡ true → Fits version config p seat event.now }
        ensures back { (version : ℕ) (config : Setting) (p : Past) → IsChecked version config self.now p → Fits version config p seat event.now → result ≡ true }
    {
        let event = *event;
        match event {
            Event::Begin { .. } => self.fits(seat, &event),
            Event::End { .. } => self.fits(seat, &event),
            Event::Reserve { .. } => self.fits(seat, &event),
            Event::Read { .. } => self.fits(seat, &event),
            Event::Held { .. } => self.fits(seat, &event),
            Event::Clear { .. } => self.fits(seat, &event),
            Event::Link { .. } => self.fits(seat, &event),
            Event::Give { .. } => self.fits(seat, &event),
            _ => self.fits(seat, &event),
        }
    }

    // Takes an entry that keeps the laws, each of those kinds by code of its own.
    #[inline(never)]
    fn note_kind(&mut self, seat: u32, event: &Event) -> Result<(), NoMemory>
        requires may { MayCome self.old seat event.now }
        ensures version { self.new.version ≡ self.old.version }
        ensures told { OnOk result ((config : Setting) (p : Past) → Shows config self.old p → queue_ok p seat event.now ≡ true → scan_ok config p seat event.now ≡ true
            → Shows config self.new (Then p seat event.now)) }
    {
        let event = *event;
        match event {
            Event::Begin { .. } => self.note(seat, &event),
            Event::End { .. } => self.note(seat, &event),
            Event::Reserve { .. } => self.note(seat, &event),
            Event::Read { .. } => self.note(seat, &event),
            Event::Held { .. } => self.note(seat, &event),
            Event::Clear { .. } => self.note(seat, &event),
            Event::Link { .. } => self.note(seat, &event),
            Event::Give { .. } => self.note(seat, &event),
            _ => self.note(seat, &event),
        }
    }
}
