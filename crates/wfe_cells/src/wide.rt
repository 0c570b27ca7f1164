// Cells whose objects are words of their own, all of them replaced at once (`blocks.rt`, `swaps.rt`).
ghost use Rattle.std.specs.Prelude.{◌≡◌, ◌≢◌, ◌≤◌, ◌<◌, ◌+◌, ◌↔◌, All, IfErr, IfNone, IfOk, IfSome, IsTrue, None, Ok, OnOk, [], length};
ghost use Rattle.wfe_table.specs.all.Logs.Answered.{IsMet};
ghost use Rattle.wfe_table.specs.all.Logs.Versions.{counts_of};
ghost use Rattle.wfe_core.specs.words.Place.{layout_of};
ghost use Rattle.wfe_table.specs.Public.{IsOf};
ghost use Rattle.wfe_table.specs.history.History.{record_of};
ghost use Rattle.wfe_cells.specs.Making.{IsWideMade, IsWideRefused, bad_wide, wide_setting};
ghost use Rattle.wfe_cells.specs.Only.{IsGet, IsOfSwap, IsOfTake, IsOnly, IsQueueing};
ghost use Rattle.wfe_cells.specs.Reasons.{AllDisturbed, IsFilled, IsFresh, IsLater, IsNew, IsNotQueued, IsQuiet, IsRefused, KeepsAll, KeepsBlocks};
ghost use Rattle.wfe_cells.specs.Wide.{IsIn, IsShown, VersionsAgree};

use crate::blocks::{buckets, load_within, offer};
use crate::swaps::{give_back, swap_within, take_within};
use std::alloc::Global;
use std::marker::Model;
use thiserror::Error;
use wfe_table::{
    Config, EnqueueRefusal, Field, MakeError, PutIfRefusal, SchemeKind, Seat, Shared, usual,
};

/// Pairs of the wider rows.
const MOST: u32 = 14;

/// What a cell was when it was read or changed: its version, and which object it had, or none.
#[derive(Clone, Copy, Debug, PartialEq, Eq)]
pub struct Seen {
    pub(crate) cell: u64,
    pub(crate) version: u64,
    // The bucket of the object's words, and 1,024 times its version then; 0 is none.
    pub(crate) object: u64,
}

impl Seen {
    /// The cell's number.
    pub fn cell(&self) -> u64
        ensures { result ≡ self.now.cell }
    {
        self.cell
    }

    /// The version that the cell had.
    pub fn version(&self) -> u64
        ensures { result ≡ self.now.version }
    {
        self.version
    }

    /// Whether the cell had an object.
    pub fn is_some(&self) -> bool
        ensures { IsTrue result ↔ (self.now.object ≢ 0) }
    {
        self.object != 0
    }
}

/// Why a cell was not changed.
#[derive(Clone, Copy, Debug, PartialEq, Eq, Error)]
pub enum SwapRefusal {
    /// The cell had this version, and another one was seen.
    #[error("the cell is at version {version}")]
    Stale { version: u64 },
    /// No bucket was free for the words, which is so only where others queue numbers too, or have dropped a `WideUser` with its bucket.
    #[error("no bucket was free for the words")]
    NoBlock,
    /// A put was refused: mostly since no row was free.
    #[error("{refusal}")]
    Refused { refusal: PutIfRefusal },
    /// The bucket that the thread has kept could not be queued, so that it had no place for the cell's.
    #[error("{refusal}")]
    NotQueued { refusal: EnqueueRefusal },
}

/// A thread's part, with which it makes calls on cells of words: its seat, and a bucket that it keeps for its next swap, or none. It may
/// move to another thread.
#[derive(Drop)]
pub struct WideUser {
    /// The seat, with which cells are loaded, and other calls made on the table.
    pub seat: Seat,
    pub(crate) spare: Option<u64>,
}

impl WideUser {
    /// The seat, with which the table is closed, and the number of the bucket that the thread has kept, if it has one:
    /// `WideCells::give_back` queues it for the other threads.
    pub fn parts(self) -> (Seat, Option<u64>)
        ensures seat { result.0 ≡ self.seat }
        ensures spare { result.1 ≡ self.spare }
    {
        let WideUser { seat, spare } = self;
        (seat, spare)
    }
}

/// Cells by numbers from 0, each with an object of `width` words or none, which all threads read and replace. No memory is theirs but the
/// table's, and nothing has to be dropped.
#[derive(Drop)]
pub struct WideCells {
    shared: Shared,
    cells: u64,
    width: usize,
}

impl Model for WideCells {
    ghost use Rattle.std.specs.Prelude.{◌≤◌};
    ghost use Rattle.wfe_cells.specs.Wide.{WideNow};

    ghost Value = { WideNow };

    ghost view = { λ c. record { table = c.shared; cells = c.cells; width = c.width } };

    ghost invariant = { λ c. (c.cells ≤ c.shared.layout.config.buckets) × (1 ≤ c.width) × (c.width ≤ 14) };
}

// The setting of so many cells.
fn wide_config(scheme: SchemeKind, threads: u32, cells: u32, width: u32) -> Config
    ensures { result ≡ wide_setting scheme threads cells width }
{
    Config {
        buckets: cells.saturating_mul(2).saturating_add(threads),
        pairs: if width <= 6 { 6 } else { MOST },
        ..usual(scheme, threads, cells)
    }
}

// A table for so many cells, and its seats.
fn wide_table(
    alloc: Global,
    scheme: SchemeKind,
    threads: u32,
    cells: u32,
    width: u32,
) -> Result<(Shared, Vec<Seat>), MakeError>
    ensures fresh { IfOk result (λ r. All (IsNew r.0) r.1.items) }
    ensures long { IfOk result (λ r. length r.1.items ≡ r.0.layout.config.seats) }
    ensures seats { IfOk result (λ r. r.0.layout.config.seats ≡ threads) }
    ensures cells { IfOk result (λ r. cells ≤ r.0.layout.config.buckets) }
    ensures width { IfOk result (λ r. (1 ≤ width) × (width ≤ 14)) }
    ensures good { IfOk result (λ r. bad_wide threads cells width ≡ None) }
    ensures set { IfOk result (λ r. layout_of (wide_setting scheme threads cells width) ≡ Ok r.0.layout) }
    ensures refused { IfErr result (IsWideRefused threads cells width) }
{
    if width < 1 || width > MOST {
        return Err(MakeError::BadConfig {
            field: Field::Pairs,
        });
    }
    match Shared::new(alloc, wide_config(scheme, threads, cells, width)) {
        Ok(made) => Ok(made),
        Err(error) => Err(error),
    }
}

// The threads' parts, with these seats.
fn wide_users(alloc: Global, _shared: &Shared, mut seats: Vec<Seat>) -> Option<Vec<WideUser>>
    requires { All (IsNew _shared.now) seats.items }
    ensures fresh { IfSome result (λ users. All (IsFresh _shared.now) users.items) }
    ensures long { IfSome result (λ users. length users.items ≡ length seats.items) }
{
    let mut users = Vec::new(alloc);
    while let Some(seat) = seats.pop() {
        let user = WideUser { seat, spare: None };
        if users.push(user).is_err() {
            return None;
        }
    }
    Some(users)
}

// The last of the threads offers all buckets from a first one on.
fn offer_all(shared: &Shared, mut users: Vec<WideUser>, first: u64) -> Option<Vec<WideUser>>
    requires fresh { All (IsFresh shared.now) users.items }
    requires first { first ≤ shared.now.layout.config.buckets }
    ensures of { IfSome result (λ users. All (λ user. IsOf user.seat shared.now) users.items) }
    ensures filled { IfSome result (λ users. IsFilled shared.now first users.items) }
    ensures long { IfSome result (λ all. length all.items ≡ length users.items) }
{
    let mut user = users.pop()?;
    if !offer(shared, &mut user.seat, first, buckets(shared)) {
        return None;
    }
    match users.push(user) {
        Ok(_) => Some(users),
        Err(_) => None,
    }
}

// All buckets past the cells' wait in the queue.
fn filled(alloc: Global, shared: &Shared, seats: Vec<Seat>, cells: u64) -> Option<Vec<WideUser>>
    requires fresh { All (IsNew shared.now) seats.items }
    requires cells { cells ≤ shared.now.layout.config.buckets }
    ensures of { IfSome result (λ users. All (λ user. IsOf user.seat shared.now) users.items) }
    ensures filled { IfSome result (λ users. IsFilled shared.now cells users.items) }
    ensures long { IfSome result (λ users. length users.items ≡ length seats.items) }
{
    let users = wide_users(alloc, shared, seats)?;
    offer_all(shared, users, cells)
}

impl WideCells {
    /// So many cells for objects of `width` words, 1 to 14, and a part for each thread, 1 to 64. The table has two buckets for each cell
    /// and one for each thread, of which there are 1,024 at most; each that is no cell's waits in the queue. The first of these numbers that
    /// is out of its range is named: `Pairs` for the width, `Seats` for the threads, `Buckets`.
    pub fn new(
        alloc: Global,
        scheme: SchemeKind,
        threads: u32,
        cells: u32,
        width: u32,
    ) -> Result<(WideCells, Vec<WideUser>), MakeError>
        ensures of { IfOk result (λ r. All (λ user. IsOf user.seat r.0.table) r.1.items) }
        ensures made { IfOk result (λ r. IsWideMade scheme threads cells width r.0.table.layout) }
        ensures cells { IfOk result (λ r. r.0.cells ≡ cells) }
        ensures width { IfOk result (λ r. r.0.width ≡ width) }
        ensures users { IfOk result (λ r. length r.1.items ≡ threads) }
        ensures filled { IfOk result (λ r. IsFilled r.0.table cells r.1.items) }
        ensures refused { IfErr result (IsWideRefused threads cells width) }
    {
        let (shared, seats) = match wide_table(alloc, scheme, threads, cells, width) {
            Ok(made) => made,
            Err(error) => return Err(error),
        };
        match filled(alloc, &shared, seats, u64::from(cells)) {
            None => Err(MakeError::NoMemory),
            Some(users) => {
                let wide = WideCells {
                    shared,
                    cells: u64::from(cells),
                    width: width as usize,
                };
                Ok((wide, users))
            }
        }
    }

    /// How many cells there are.
    pub fn count(&self) -> u64
        ensures { result ≡ self.now.cells }
    {
        self.cells
    }

    /// How many words an object has.
    pub fn width(&self) -> usize
        ensures { result ≡ self.now.width }
    {
        self.width
    }

    /// Reads a cell: a version that it had since the call began, and the words of the object that it had at that version, if it had one
    /// (`Seen::is_some`). None: in each of so many attempts another thread replaced the object while its words were read. An attempt is one
    /// get and one more for each word.
    pub fn load(&self, seat: &mut Seat, cell: u64, words: &mut [u64], attempts: u64) -> Option<Seen>
        requires of { IsOf seat.old self.now.table }
        requires cell { cell < self.now.cells }
        requires width { length words.old ≡ self.now.width }
        ensures of { IsOf seat.new self.now.table }
        ensures quiet { IsQuiet seat.old seat.new }
        ensures only { IsOnly IsGet seat.old seat.new }
        ensures length { length words.new ≡ self.now.width }
        ensures shown { IfSome result (λ seen. IsShown self.now.table.layout seat.new.track.past cell seen words.new) }
        ensures current { IfSome result (λ seen. IsMet (counts_of (record_of self.now.table.layout seat.old.track.past)) (record_of self.now.table.layout seat.new.track.past) cell seen.version) }
        ensures disturbed { IfNone result (AllDisturbed self.now.table.layout cell self.now.width seat.old attempts seat.new) }
    {
        load_within(&self.shared, seat, cell, words, attempts)
    }

    /// Gives the cell that was seen an object of these words, where it is at the version that was seen: the next version. The bucket of
    /// the object that it had is this thread's, for its next swap.
    pub fn compare_swap(
        &self,
        user: &mut WideUser,
        seen: Seen,
        words: &[u64],
    ) -> Result<Seen, SwapRefusal>
        requires of { IsOf user.old.seat self.now.table }
        requires cell { seen.cell < self.now.cells }
        requires width { length words.now ≡ self.now.width }
        ensures of { IsOf user.new.seat self.now.table }
        ensures later { IsLater user.old.seat user.new.seat }
        ensures only { IsOnly (IsOfSwap self.now.table.layout.config.buckets seen user.old.spare user.new.spare result) user.old.seat user.new.seat }
        ensures shown { IfOk result (λ now. IsShown self.now.table.layout user.new.seat.track.past seen.cell now words.now) }
        ensures some { IfOk result (λ now. now.object ≢ 0) }
        ensures next { IfOk result (λ now. now.version ≡ seen.version + 1) }
        ensures kept { KeepsAll self.now.table.layout user.old user.new seen result }
        ensures refused { IfErr result (IsRefused self.now.table.layout user.old user.new seen words.now) }
    {
        swap_within(&self.shared, user, seen, words)
    }

    /// Takes the object of the cell that was seen out, where it is at the version that was seen: the next version. The object's bucket is
    /// this thread's, for its next swap; the one that it has kept until now is queued first.
    pub fn compare_take(&self, user: &mut WideUser, seen: Seen) -> Result<Seen, SwapRefusal>
        requires of { IsOf user.old.seat self.now.table }
        requires cell { seen.cell < self.now.cells }
        ensures of { IsOf user.new.seat self.now.table }
        ensures later { IsLater user.old.seat user.new.seat }
        ensures only { IsOnly (IsOfTake seen user.old.spare result) user.old.seat user.new.seat }
        ensures shown { IfOk result (λ now. IsIn (record_of self.now.table.layout user.new.seat.track.past) seen.cell now) }
        ensures none { IfOk result (λ now. now.object ≡ 0) }
        ensures next { IfOk result (λ now. now.version ≡ seen.version + 1) }
        ensures kept { KeepsAll self.now.table.layout user.old user.new seen result }
        ensures refused { IfErr result (IsRefused self.now.table.layout user.old user.new seen []) }
    {
        take_within(&self.shared, user, seen)
    }

    /// Queues the bucket that this thread has kept, if it has one, for the others: before it ends.
    pub fn give_back(&self, user: &mut WideUser) -> Result<(), EnqueueRefusal>
        requires of { IsOf user.old.seat self.now.table }
        ensures of { IsOf user.new.seat self.now.table }
        ensures later { IsLater user.old.seat user.new.seat }
        ensures only { IsOnly (IsQueueing user.old.spare) user.old.seat user.new.seat }
        ensures spare { OnOk result (user.new.spare ≡ None) }
        ensures kept { KeepsBlocks self.now.table.layout.config.buckets user.old user.new None None }
        ensures refused { IfErr result (IsNotQueued self.now.table.layout user.old user.new) }
    {
        give_back(&self.shared, user)
    }

    /// The table, for other calls on the seats, as those that scan, hear news or leave.
    pub fn shared(&self) -> &Shared
        ensures { result.now ≡ self.now.table }
    {
        &self.shared
    }

    /// The table, to be closed with the seats of all threads.
    pub fn into_shared(self) -> Shared
        ensures { result ≡ self.table }
    {
        self.shared
    }
}

/// What was seen of a cell at a version is the same for all who saw it then, and what a swap made of it.
pub fn versions_agree()
    ensures { VersionsAgree }
{}
