// A record that was replaced is there while it is read, and is dropped by the next scan of the thread that replaced it.
ghost use Rattle.std.specs.Prelude.{◌≡◌, ◌<◌};
ghost use Rattle.wfe_shared_cells.specs.cells.table.Public.{IsOf};

use crate::records::{Record, count_left, make_record};
use std::alloc::Global;
use std::sync::Arc;
use wfe_shared_cells::{Config, SchemeKind, SharedCells, SharedUser, usual};

/// How many records were there: while the first is read that the second has replaced; once that is let go of, and the third has replaced
/// the second; and when the cells are gone. The cells give as many objects back as were there.
#[derive(Clone, Copy)]
pub(crate) struct Counts {
    pub(crate) beside: usize,
    pub(crate) after: usize,
    pub(crate) given: u64,
    pub(crate) left: usize,
}

// Reads a record, puts another one while it is read, and counts: none where another one was read.
fn replace(
    cells: &SharedCells<Record>,
    user: &mut SharedUser,
    wanted: u64,
    record: Arc<Record>,
    alive: &Arc<()>,
) -> usize
    requires of { IsOf user.old.part.user.seat cells.now }
    requires cell { 0 < cells.now.layout.config.buckets }
    ensures of { IsOf user.new.part.user.seat cells.now }
{
    let (seen, shown) = cells.load(&mut user.part, &mut user.reading, 0);
    let _ = cells.compare_swap(&mut user.part, seen, record);
    let read = match &shown {
        Some(record) => record.second,
        None => 0,
    };
    if read == wanted {
        Arc::strong_count(alive)
    } else {
        0
    }
}

// What is counted at each of three records.
fn replace_all(
    alloc: Global,
    cells: &SharedCells<Record>,
    mut user: SharedUser,
    alive: &Arc<()>,
) -> Option<Counts>
    requires of { IsOf user.part.user.seat cells.now }
    requires cell { 0 < cells.now.layout.config.buckets }
{
    let mut counts = [0usize; 3];
    for turn in 0..3u64 {
        if let Some(record) = make_record(alloc, turn + 1, alive) {
            counts[turn as usize] = replace(cells, &mut user, turn, record, alive);
        }
    }
    Some(Counts {
        beside: counts[1],
        after: counts[2],
        given: 0,
        left: 0,
    })
}

fn counted(alloc: Global, alive: &Arc<()>) -> Option<Counts> {
    let setting = Config {
        every: 1,
        ..usual(SchemeKind::Hp, 1, 1)
    };
    let Ok((cells, mut users)) = SharedCells::<Record>::new(alloc, setting) else {
        return None;
    };
    let user = users.pop()?;
    if cells.count() == 0 {
        return None;
    }
    let mut counts = replace_all(alloc, &cells, user, alive)?;
    counts.given = count_left(cells.into_objects());
    Some(counts)
}

/// Replaces a record while it is read, and the next one too.
pub(crate) fn read_and_let_go(alloc: Global) -> Option<Counts> {
    let Ok(alive) = Arc::new(alloc, ()) else {
        return None;
    };
    let mut counts = counted(alloc, &alive)?;
    counts.beside = counts.beside.saturating_sub(1);
    counts.after = counts.after.saturating_sub(1);
    counts.left = Arc::strong_count(&alive).saturating_sub(1);
    Some(counts)
}
