// Boards: records of eight words in cells, which threads read and write whole. What one thread has written another reads at that version,
// or a later one, once it was told.
ghost use Rattle.std.specs.Prelude.{◌≡◌, ◌≢◌, ◌<◌, All, IfSome, length};
ghost use Rattle.wfe_table.specs.Public.{IsOf};
ghost use Rattle.wfe_cells_uses.specs.Boards.{IsTold, IsWhole};

use std::alloc::Global;
use std::thread;
use std::thread::Threads;
use wfe_cells::{SchemeKind, Seen, WideCells, WideUser};
use wfe_table::{News, Seat};

const CELLS: u32 = 4;

const WIDTH: usize = 8;

const TURNS: u64 = 2_000;

const ATTEMPTS: u64 = 1_000_000;

/// A board that was written: its version, and how far the seat knew the table's history then.
#[derive(Drop)]
pub(crate) struct Told {
    pub(crate) seen: Seen,
    pub(crate) news: News,
}

// Writes the board, and says how far the seat knows the table's history then.
fn write_and_tell(cells: &WideCells, user: &mut WideUser, seen: Seen, words: &[u64]) -> Option<Told>
    requires of { IsOf user.old.seat cells.now.table }
    requires cell { seen.cell < cells.now.cells }
    requires width { length words.now ≡ cells.now.width }
    ensures of { IsOf user.new.seat cells.now.table }
    ensures some { IfSome result (λ told. told.seen.object ≢ 0) }
    ensures told { IfSome result (IsTold cells.now seen.cell words.now) }
{
    match cells.compare_swap(user, seen, words) {
        Ok(seen) => Some(Told {
            seen,
            news: cells.shared().news(&mut user.seat),
        }),
        Err(_) => None,
    }
}

/// Reads the board, once the seat has heard of what was written.
pub(crate) fn hear_and_read(
    cells: &WideCells,
    seat: &mut Seat,
    told: Told,
    cell: u64,
    _words: &[u64],
    read: &mut [u64],
) -> Option<Seen>
    requires of { IsOf seat.old cells.now.table }
    requires cell { cell < cells.now.cells }
    requires width { length read.old ≡ cells.now.width }
    requires same { length _words.now ≡ cells.now.width }
    requires some { told.seen.object ≢ 0 }
    requires told { IsTold cells.now cell _words.now told }
    ensures of { IsOf seat.new cells.now.table }
    ensures whole { IfSome result (λ seen. IsWhole told.seen.version _words.now seen read.new) }
{
    cells.shared().hear(seat, told.news);
    match cells.load(seat, cell, read, ATTEMPTS) {
        Some(seen) => Some(seen),
        None => None,
    }
}

/// A thread's part, and what it has found.
#[derive(Drop)]
pub(crate) struct Writer {
    user: WideUser,
    tried: u64,
    torn: u64,
}

// Numbers in a row.
fn row(first: u64) -> [u64; WIDTH] {
    let mut words = [0u64; WIDTH];
    for place in 0..WIDTH {
        words[place] = first.wrapping_add(place as u64);
    }
    words
}

fn is_row(words: &[u64; WIDTH]) -> bool {
    let first = words[0];
    for place in 0..WIDTH {
        if words[place] != first.wrapping_add(place as u64) {
            return false;
        }
    }
    true
}

// Reads a board, and writes it where no other thread comes between.
fn turn(cells: &WideCells, writer: &mut Writer, cell: u64, first: u64)
    requires of { IsOf writer.old.user.seat cells.now.table }
    requires cell { cell < cells.now.cells }
    requires width { cells.now.width ≡ 8 }
    ensures of { IsOf writer.new.user.seat cells.now.table }
{
    let mut words = [0u64; WIDTH];
    let Some(seen) = cells.load(&mut writer.user.seat, cell, &mut words, ATTEMPTS) else {
        return;
    };
    if seen.is_some() && !is_row(&words) {
        writer.torn = writer.torn.saturating_add(1);
    }
    let _ = cells.compare_swap(&mut writer.user, seen, &row(first));
    writer.tried = writer.tried.saturating_add(1);
}

fn work(cells: &WideCells, mut writer: Writer) -> Writer
    requires of { IsOf writer.user.seat cells.now.table }
    requires width { cells.now.width ≡ 8 }
    ensures of { IsOf result.user.seat cells.now.table }
{
    let count = cells.count();
    if count == 0 {
        return writer;
    }
    for number in 0..TURNS {
        turn(cells, &mut writer, number % count, number);
    }
    writer
}

// Each writer's work, by a thread of its own.
fn work_all<R: Threads + Sync>(
    rt: &R,
    cells: &WideCells,
    writers: Vec<Writer>,
) -> Option<Vec<Writer>>
    requires of { All (λ writer. IsOf writer.user.seat cells.now.table) writers.items }
    requires width { cells.now.width ≡ 8 }
    ensures of { IfSome result (λ writers. All (λ writer. IsOf writer.user.seat cells.now.table) writers.items) }
{
    let done = thread::map_vec(
        rt,
        writers,
        &|writer: Writer| -> Writer
            requires { IsOf writer.user.seat cells.now.table × (cells.now.width ≡ 8) }
            ensures { IsOf result.user.seat cells.entry.now.table }
        { work(cells, writer) },
    );
    match done {
        Ok(writers) => Some(writers),
        Err(_) => None,
    }
}

// A writer for each user.
fn writers(alloc: Global, _cells: &WideCells, mut users: Vec<WideUser>) -> Option<Vec<Writer>>
    requires of { All (λ user. IsOf user.seat _cells.now.table) users.items }
    ensures of { IfSome result (λ writers. All (λ writer. IsOf writer.user.seat _cells.now.table) writers.items) }
{
    let mut writers = Vec::new(alloc);
    while let Some(user) = users.pop() {
        let writer = Writer {
            user,
            tried: 0,
            torn: 0,
        };
        if writers.push(writer).is_err() {
            return None;
        }
    }
    Some(writers)
}

/// How many changes were tried, and how many reads were torn.
#[derive(Clone, Copy)]
pub(crate) struct Board {
    pub(crate) tried: u64,
    pub(crate) torn: u64,
}

// What all writers have found.
fn summed(writers: &[Writer]) -> Board {
    let mut board = Board { tried: 0, torn: 0 };
    for writer in writers {
        board.tried = board.tried.saturating_add(writer.tried);
        board.torn = board.torn.saturating_add(writer.torn);
    }
    board
}

/// Has so many threads read and write boards.
pub(crate) fn write_boards<R: Threads + Sync>(
    rt: &R,
    alloc: Global,
    threads: u32,
) -> Option<Board> {
    let Ok((cells, users)) = WideCells::new(alloc, SchemeKind::Wfe, threads, CELLS, WIDTH as u32)
    else {
        return None;
    };
    let all = writers(alloc, &cells, users)?;
    let all = work_all(rt, &cells, all)?;
    Some(summed(&all))
}

// The last two of these parts, the last one first.
fn last_two(_cells: &WideCells, mut users: Vec<WideUser>) -> Option<(WideUser, WideUser)>
    requires of { All (λ user. IsOf user.seat _cells.now.table) users.items }
    ensures first { IfSome result (λ pair. IsOf pair.0.seat _cells.now.table) }
    ensures second { IfSome result (λ pair. IsOf pair.1.seat _cells.now.table) }
{
    let first = users.pop()?;
    let second = users.pop()?;
    Some((first, second))
}

// Writes a board with one part, and has another one that was told of it read it.
fn write_and_read(
    cells: &WideCells,
    writer: &mut WideUser,
    reader: &mut WideUser,
    words: &[u64],
    read: &mut [u64],
) -> Option<(u64, Seen)>
    requires writer { IsOf writer.old.seat cells.now.table }
    requires reader { IsOf reader.old.seat cells.now.table }
    requires some { 0 < cells.now.cells }
    requires words { length words.now ≡ cells.now.width }
    requires read { length read.old ≡ cells.now.width }
    ensures whole { IfSome result (λ r. IsWhole r.0 words.now r.1 read.new) }
{
    let seen = cells.load(&mut writer.seat, 0, read, ATTEMPTS)?;
    let told = write_and_tell(cells, writer, seen, words)?;
    let version = told.seen.version();
    let seen = hear_and_read(cells, &mut reader.seat, told, 0, words, read)?;
    Some((version, seen))
}

/// Writes a board with one seat, and has another one that was told of it read it: the version at which it was written, and what was read.
pub(crate) fn tell_and_read(
    alloc: Global,
    words: &[u64; WIDTH],
    read: &mut [u64; WIDTH],
) -> Option<(u64, Seen)>
    ensures whole { IfSome result (λ r. IsWhole r.0 words.now r.1 read.new) }
{
    let Ok((cells, users)) = WideCells::new(alloc, SchemeKind::Wfe, 2, CELLS, WIDTH as u32) else {
        return None;
    };
    let (mut writer, mut reader) = last_two(&cells, users)?;
    write_and_read(&cells, &mut writer, &mut reader, words, read)
}
