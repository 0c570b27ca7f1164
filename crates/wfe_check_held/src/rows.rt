// When rows were let go.
ghost use Rattle.std.specs.Prelude.{◌≡◌, ◌<◌, ◌≤◌, ◌+◌, ◌==◌, ℕ, IfOk, if◌then◌else◌, length};
ghost use Rattle.wfe_check_held.specs.Steps.{freed_row, passed_row, row_after};
ghost use Rattle.wfe_check_held.specs.Times.{first_row, row_at};

use std::alloc::Global;
use wfe_defs::{Event, NoMemory, Root};

/// A row, at a position.
#[derive(Clone, Copy)]
pub(crate) struct Row {
    pub(crate) taken: bool,
    /// The position at which it ceased to be taken last, and 0 where it never did.
    pub(crate) freed: u64,
    /// The position at which it ceased last to be the last row of the queue, which the head has and
    /// which has no next one, and 0 where it never did.
    pub(crate) passed: u64,
}

/// The rows before the first entry: the first one of the queue, behind the others, is taken.
pub(crate) fn first_rows(alloc: Global, slots: u32) -> Result<Vec<Row>, NoMemory>
    ensures count { IfOk result (λ rows. length rows.items ≡ slots + 1) }
    ensures each { IfOk result (λ rows. (s : ℕ) → s ≤ slots → row_at rows.items s ≡ first_row slots s) }
{
    let count = slots as usize + 1;
    let Ok(mut rows) = Vec::with_capacity(alloc, count) else {
        return Err(NoMemory);
    };
    for slot in 0..count {
        let row = Row {
            taken: slot == slots as usize,
            freed: 0,
            passed: 0,
        };
        if rows.push(row).is_err() {
            return Err(NoMemory);
        }
    }
    Ok(rows)
}

// The row is let go, if it was taken.
fn free(row: &mut Row, position: u64)
    ensures { row.new ≡ freed_row position row.old }
{
    if row.taken {
        row.taken = false;
        row.freed = position;
    }
}

// The row is no more the last one of the queue, if there is such a row.
fn pass(rows: &mut Vec<Row>, slot: u32, position: u64)
    ensures count { length rows.new.items ≡ length rows.old.items }
    ensures each { (s : ℕ) → s < length rows.old.items →
        row_at rows.new.items s
        ≡ (if s == slot then passed_row position (row_at rows.old.items s) else row_at rows.old.items s) }
{
    if let Some(row) = rows.get_mut(slot as usize) {
        row.passed = position;
    }
}

/// Tells the rows an event of any seat. `position` is the one after it, and `last` the last row of
/// the queue before it.
#[inline(always)]
pub(crate) fn tell_rows(rows: &mut Vec<Row>, event: &Event, position: u64, last: Option<u32>)
    ensures count { length rows.new.items ≡ length rows.old.items }
    ensures each { (s : ℕ) → s < length rows.old.items →
        row_at rows.new.items s ≡ row_after s event.now position last (row_at rows.old.items s) }
{
    match *event {
        Event::Give { slot, .. } => {
            if let Some(row) = rows.get_mut(slot as usize) {
                row.taken = true;
            }
        }
        Event::Unused { slot } | Event::Back { slot } => {
            if let Some(row) = rows.get_mut(slot as usize) {
                free(row, position);
            }
        }
        Event::Link {
            root: Root::Head,
            slot,
        } => match last {
            Some(row) if row != slot => pass(rows, row, position),
            _ => {}
        },
        Event::Link {
            root: Root::Next(parent),
            ..
        } => match last {
            Some(row) if row == parent => pass(rows, row, position),
            _ => {}
        },
        _ => {}
    }
}
