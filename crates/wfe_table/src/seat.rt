// A seat of the shared table, in the hands of one thread at a time.
ghost use Rattle.std.specs.Prelude.{◌≡◌, ◌<◌, ◌≤◌, ◌%◌, ◌∷◌, [], All, IfOk, IfSome, MatchResult, true, Some, None};
ghost use Rattle.wfe_core.specs.words.Place.{is_valid};
ghost use Rattle.wfe_core.specs.Held.{notes_of, report_of};
ghost use Rattle.wfe_core.specs.Locals.{may_begin, stays};
ghost use Rattle.wfe_core.specs.defs.declared.call.Answer.TheVariants.{Adopted as AdoptedAnswer, Got as GotAnswer};
ghost use Rattle.wfe_core.specs.defs.declared.call.Call.TheVariants.{Adopt as AdoptCall, Get as GetCall};
ghost use Rattle.law_bounds.specs.all.Logs.Versions.{met_by, seen_in, version_told};
ghost use Rattle.wfe_drive_rule.specs.Handles.{IsGathered, IsResting, IsSeated, IsSized};
ghost use Rattle.wfe_drive_rule.specs.Views.{fresh_track, own, seat_of, tidings};
ghost use Rattle.wfe_drive_rule.specs.history.History.{record_of};
ghost use Rattle.wfe_table.specs.Backs.{WentBack};
ghost use Rattle.wfe_table.specs.Calls.{IsMade, IsMissed};
ghost use Rattle.wfe_table.specs.Hearing.{IsAware, IsNews};
ghost use Rattle.wfe_table.specs.Public.{SeatNow};
ghost use Rattle.wfe_table.specs.Sound.{IsMet};

use crate::list::zeros;
use crate::take::take_list;
use crate::words::TableWords;
use std::alloc::Global;
use std::marker::Model;
use wfe_core::{
    Answer, Call, Desk, Layout, NoMemory, Notes, Post, RetireList, ScanReport, SchemeKind,
};
use wfe_drive_call::{
    Alone, GetUnder, He, Hp, Ibr, Wfe, bucket_for, drive_alone, drive_call, drive_get,
};
use wfe_drive_rule::{Handle, Ledger, give_slot, hear_news, tell_news};
use wfe_table_end::Got;

/// A seat of a shared table, with which one thread makes calls. It may move to another thread. It is
/// seen as the table that it is of, its local state, and the history up to its own last step; of these
/// only the state's post and desk, and a version for each bucket, are there when the program runs.
#[derive(Drop)]
pub struct Seat {
    pub(crate) handle: Handle,
    pub(crate) post: Post,
    pub(crate) desk: Desk,
    // By bucket, the version that a call of this seat told last.
    pub(crate) seen: Vec<u64>,
}

impl Model for Seat {
    ghost use Rattle.wfe_drive_rule.specs.Views.{own};
    ghost use Rattle.wfe_table.specs.Hearing.{IsAware, IsNews};
    ghost use Rattle.wfe_table.specs.Public.{SeatNow};
    ghost use Rattle.wfe_table.specs.Sound.{IsSound};

    ghost Value = { SeatNow };

    ghost view = { λ s. record { table = s.handle.table_id; track = own s.handle.me.0 } };

    ghost invariant = { IsSound };
}

impl Seat {
    // A seat that has made no call, with its handle.
    pub(crate) fn new(
        alloc: Global,
        handle: Handle,
        number: u32,
        layout: Layout,
    ) -> Result<Seat, NoMemory>
        requires valid { is_valid layout ≡ true }
        requires number { number < layout.config.seats }
        requires seated { IsSeated layout number handle.me }
        requires resting { IsResting handle.me }
        requires fresh { own handle.me.0 ≡ fresh_track layout number }
        ensures { IfOk result (λ seat. seat ≡ record { table = handle.table_id; track = fresh_track layout number }) }
    {
        Ok(Seat {
            handle,
            post: Post::new(number, layout),
            desk: Desk::new(alloc, layout)?,
            seen: zeros(alloc, layout.config().buckets)?,
        })
    }

    // Makes a get on the table that the seat is of, in code of its own for each scheme.
    #[inline(always)]
    pub(crate) fn get(&mut self, ledger: &Ledger, key: u64) -> Got
        requires table { self.old.table ≡ ledger.now.table_id }
        requires layout { self.old.track.local.post.layout ≡ ledger.now.key }
        requires sized { IsSized ledger.now.table_id ledger.now.key }
        ensures table { self.new.table ≡ self.old.table }
        ensures layout { self.new.track.local.post.layout ≡ self.old.track.local.post.layout }
        ensures made { IsMade ledger.now.key self.old self.new (GetCall key) (GotAnswer result.version result.value) }
    {
        match self.post.layout.config().scheme {
            SchemeKind::He => self.get_under::<He>(ledger, key),
            SchemeKind::Ibr => self.get_under::<Ibr>(ledger, key),
            SchemeKind::Wfe => self.get_under::<Wfe>(ledger, key),
            SchemeKind::Hp => self.get_under::<Hp>(ledger, key),
        }
    }

    // The same under a scheme that a type names. It is a function of its own, which saves no more than its own steps need.
    #[inline(never)]
    fn get_under<G: GetUnder>(&mut self, ledger: &Ledger, key: u64) -> Got
        requires scheme { self.old.track.local.post.layout.config.scheme ≡ G.kind }
        requires table { self.old.table ≡ ledger.now.table_id }
        requires layout { self.old.track.local.post.layout ≡ ledger.now.key }
        requires sized { IsSized ledger.now.table_id ledger.now.key }
        ensures table { self.new.table ≡ self.old.table }
        ensures layout { self.new.track.local.post.layout ≡ self.old.track.local.post.layout }
        ensures made { IsMade ledger.now.key self.old self.new (GetCall key) (GotAnswer result.version result.value) }
    {
        let bucket = bucket_for(key, &self.post.layout);
        let answer = {
            let seat = self.post.seat;
            let handle = &mut self.handle;
            let mut words = TableWords {
                ledger,
                handle,
                seat,
                first: true,
            };
            drive_get::<TableWords, G>(&mut words, &mut self.post, &mut self.desk, key, bucket)
        };
        match answer {
            Answer::Got { version, value } => {
                see(
                    &mut self.seen,
                    self.post.layout,
                    key,
                    bucket,
                    version,
                    value,
                );
                Got { version, value }
            }
            _ => unreachable!(),
        }
    }

    // Makes a call that has code of its own, all of which is compiled into the caller.
    #[inline(always)]
    pub(crate) fn make_alone<C: Alone>(&mut self, ledger: &Ledger, made: C) -> Answer
        requires table { self.old.table ≡ ledger.now.table_id }
        requires layout { self.old.track.local.post.layout ≡ ledger.now.key }
        requires sized { IsSized ledger.now.table_id ledger.now.key }
        ensures table { self.new.table ≡ self.old.table }
        ensures layout { self.new.track.local.post.layout ≡ self.old.track.local.post.layout }
        ensures made { IsMade ledger.now.key self.old self.new (C.named made) result }
    {
        let answer = {
            let seat = self.post.seat;
            let handle = &mut self.handle;
            let mut words = TableWords {
                ledger,
                handle,
                seat,
                first: true,
            };
            drive_alone(&mut words, &mut self.post, &mut self.desk, made)
        };
        meet(&mut self.seen, self.post.layout, made.call(), answer);
        answer
    }

    // Makes a whole call of a seat that stays, on the table that it is of. A get is compiled apart from the others.
    #[inline(always)]
    pub(crate) fn make(&mut self, ledger: &Ledger, call: Call) -> Answer
        requires table { self.old.table ≡ ledger.now.table_id }
        requires layout { self.old.track.local.post.layout ≡ ledger.now.key }
        requires sized { IsSized ledger.now.table_id ledger.now.key }
        requires may { may_begin ledger.now.key.config call ≡ true }
        requires stays { stays call ≡ true }
        ensures table { self.new.table ≡ self.old.table }
        ensures layout { self.new.track.local.post.layout ≡ self.old.track.local.post.layout }
        ensures made { IsMade ledger.now.key self.old self.new call result }
    {
        match call {
            Call::Get { key } => {
                let got = self.get(ledger, key);
                Answer::Got {
                    version: got.version,
                    value: got.value,
                }
            }
            _ => self.make_any(ledger, call),
        }
    }

    // Makes the call, whichever it is.
    #[inline(always)]
    fn make_any(&mut self, ledger: &Ledger, call: Call) -> Answer
        requires table { self.old.table ≡ ledger.now.table_id }
        requires layout { self.old.track.local.post.layout ≡ ledger.now.key }
        requires sized { IsSized ledger.now.table_id ledger.now.key }
        requires may { may_begin ledger.now.key.config call ≡ true }
        requires stays { stays call ≡ true }
        ensures table { self.new.table ≡ self.old.table }
        ensures layout { self.new.track.local.post.layout ≡ self.old.track.local.post.layout }
        ensures made { IsMade ledger.now.key self.old self.new call result }
    {
        let answer = {
            let seat = self.post.seat;
            let handle = &mut self.handle;
            let mut words = TableWords {
                ledger,
                handle,
                seat,
                first: true,
            };
            drive_call(&mut words, &mut self.post, &mut self.desk, call)
        };
        meet(&mut self.seen, self.post.layout, call, answer);
        answer
    }

    // Takes over the list that another seat has left: how many rows are in it, or the place word where
    // none was left.
    pub(crate) fn take(&mut self, ledger: &Ledger, place: u32) -> Result<u32, u64>
        requires table { self.old.table ≡ ledger.now.table_id }
        requires layout { self.old.track.local.post.layout ≡ ledger.now.key }
        requires sized { IsSized ledger.now.table_id ledger.now.key }
        requires place { place < ledger.now.key.config.seats }
        ensures table { self.new.table ≡ self.old.table }
        ensures layout { self.new.track.local.post.layout ≡ self.old.track.local.post.layout }
        ensures made { MatchResult result
            (λ count. IsMade ledger.now.key self.old self.new (AdoptCall place) (AdoptedAnswer count))
            (λ found. IsMissed ledger.now.key self.old self.new place found) }
    {
        take_list(
            ledger,
            &mut self.handle,
            &mut self.post,
            &mut self.desk,
            place,
        )
    }

    // How far the seat's history is known, in a handle of its own.
    pub(crate) fn tell(&mut self, ledger: &Ledger) -> Handle
        requires table { self.old.table ≡ ledger.now.table_id }
        requires layout { self.old.track.local.post.layout ≡ ledger.now.key }
        requires sized { IsSized ledger.now.table_id ledger.now.key }
        ensures same { self.new ≡ self.old }
        ensures told { (result.table_id ≡ self.old.table) × (result.me ≡ (tidings self.old.track.past, [])) }
    {
        tell_news(ledger, &mut self.handle, self.post.seat)
    }

    // The seat hears what another handle tells.
    pub(crate) fn hear(&mut self, ledger: &Ledger, news: Handle)
        requires table { self.old.table ≡ ledger.now.table_id }
        requires layout { self.old.track.local.post.layout ≡ ledger.now.key }
        requires sized { IsSized ledger.now.table_id ledger.now.key }
        requires news { (news.table_id ≡ ledger.now.table_id) × IsNews news.me }
        ensures table { self.new.table ≡ self.old.table }
        ensures layout { self.new.track.local.post.layout ≡ self.old.track.local.post.layout }
        ensures aware { IsAware ledger.now.key self.old self.new news.me.0.heard }
    {
        hear_news(ledger, &mut self.handle, self.post.seat, news);
    }

    // The handle alone, without its slot.
    pub(crate) fn bare(self, ledger: &Ledger) -> Handle
        requires table { self.table ≡ ledger.now.table_id }
        requires layout { self.track.local.post.layout ≡ ledger.now.key }
        requires sized { IsSized ledger.now.table_id ledger.now.key }
        ensures ids { result.table_id ≡ self.table }
        ensures gathered { IsGathered result.me }
        ensures track { result.me.0.tracks ≡ self.track ∷ [] }
    {
        let Seat {
            mut handle,
            post,
            desk: _,
            seen: _,
        } = self;
        give_slot(ledger, &mut handle, post.seat);
        handle
    }

    /// The seat's number, from 0.
    pub fn number(&self) -> u32
        ensures { result ≡ seat_of self.now.track }
    {
        self.post.seat
    }

    /// The greatest version that a call of this seat has answered for the bucket, counted from 0: the number
    /// of a refused change of a bucket at its last version included, and what looks show left aside; 0
    /// before the first.
    pub fn seen(&self, bucket: u32) -> u64
        requires { bucket < self.now.track.local.post.layout.config.buckets }
        ensures { result ≡ seen_in self.now.track.local.post.layout.config.buckets bucket self.now.track.local.log }
    {
        self.seen[bucket as usize]
    }

    /// What the seat's last call did. The slots that it names are of the table. Each that it lists as back
    /// went back in that call, when it stood at no index of any seat.
    pub fn notes(&self) -> &Notes
        ensures notes { notes_of result.now ≡ self.now.track.local.desk.notes }
        ensures slots { All (λ slot. slot ≤ self.now.track.local.post.layout.config.slots) result.now.back }
        ensures retired { IfSome result.now.retired (λ life. life.slot ≤ self.now.track.local.post.layout.config.slots) }
        ensures back { let track = self.now.track in let layout = track.local.post.layout in All (WentBack layout.config (seat_of track) (record_of layout track.past)) result.now.back }
    {
        &self.desk.notes
    }

    /// What the seat's last scan read and did, in whichever call that was; empty before the first.
    pub fn report(&self) -> &ScanReport
        ensures { report_of result.now ≡ self.now.track.local.desk.report }
    {
        &self.desk.report
    }

    /// The rows on the seat's retire list, each with its life in eras: those that it has retired, or has
    /// taken over from a seat that left, and not given back. How many may be left after a call is said by `waits`
    /// of `IsMade`.
    pub fn list(&self) -> &RetireList
        ensures { result.now.lives ≡ self.now.track.local.desk.list }
    {
        &self.desk.list
    }
}

// The key of a call whose answer tells a version of the key's bucket, and that version.
#[inline(always)]
fn version_told(call: Call, answer: Answer) -> Option<(u64, u64)>
    ensures { result ≡ version_told call answer }
{
    match call {
        Call::Get { key } => match answer {
            Answer::Got { version, .. } => Some((key, version)),
            _ => None,
        },
        Call::Put { key, .. } => match answer {
            Answer::Done { version, .. } | Answer::BucketFull { version } => Some((key, version)),
            Answer::Spent { number } => Some((key, number)),
            _ => None,
        },
        Call::PutIf { key, .. } => match answer {
            Answer::Done { version, .. }
            | Answer::BucketFull { version }
            | Answer::Stale { version } => Some((key, version)),
            Answer::Spent { number } => Some((key, number)),
            _ => None,
        },
        Call::Remove { key } => match answer {
            Answer::Done { version, .. } | Answer::Absent { version } => Some((key, version)),
            Answer::Spent { number } => Some((key, number)),
            _ => None,
        },
        _ => None,
    }
}

// The versions seen, with the answer of one call more.
#[inline(always)]
fn meet(seen: &mut Vec<u64>, layout: Layout, call: Call, answer: Answer)
    requires valid { is_valid layout ≡ true }
    requires met { (met : _) × IsMet layout.config.buckets met seen.old.items }
    ensures met { (met : _) → IsMet layout.config.buckets met seen.old.items → IsMet layout.config.buckets (met_by layout.config.buckets call answer met) seen.new.items }
{
    if let Some((key, version)) = version_told(call, answer) {
        let bucket = key % layout.config().buckets as u64;
        seen[bucket as usize] = version;
    }
}

// The versions seen, with the answer of one get more, of a key whose bucket is known.
#[inline(always)]
fn see(
    seen: &mut Vec<u64>,
    _layout: Layout,
    _key: u64,
    bucket: u32,
    version: u64,
    _value: Option<u64>,
)
    requires valid { is_valid _layout ≡ true }
    requires bucket { bucket ≡ _key % _layout.config.buckets }
    requires there { bucket < _layout.config.buckets }
    requires met { (met : _) × IsMet _layout.config.buckets met seen.old.items }
    ensures met { (met : _) → IsMet _layout.config.buckets met seen.old.items → IsMet _layout.config.buckets (met_by _layout.config.buckets (GetCall _key) (GotAnswer version _value) met) seen.new.items }
{
    let place = bucket as usize;
    seen[place] = version;
}
