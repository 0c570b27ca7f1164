// One row, as a record leaves it.
ghost use Rattle.std.specs.Prelude.{◌≡◌};
ghost use Rattle.wfe_check_rows.specs.Row.{changed_row as changed_row_of, row_after};

use wfe_defs::{Event, Root};

/// What a record says of one row.
#[derive(Clone, Copy)]
pub struct Row {
    /// Given, and not told unused or back since.
    pub taken: bool,
    /// The birth era of its last Give.
    pub birth: u32,
    /// The retire era of its Retire since then, and 0 while it is not retired.
    pub retire: u32,
    /// The row of its next link.
    pub next: Option<u32>,
}

impl Row {
    /// A row that the record has not named.
    pub const FREE: Row = Row {
        taken: false,
        birth: 1,
        retire: 0,
        next: None,
    };

    /// The queue's first row before the first entry.
    pub const DUMMY: Row = Row {
        taken: true,
        ..Row::FREE
    };

    /// What an event makes of the row that it changes.
    pub fn after(self, event: &Event) -> Row
        ensures { result ≡ row_after event.now self }
    {
        match *event {
            Event::Give { birth, .. } => Row {
                taken: true,
                birth,
                retire: 0,
                next: None,
            },
            Event::Unused { .. } | Event::Back { .. } => Row {
                taken: false,
                ..self
            },
            Event::Retire { retire, .. } => Row { retire, ..self },
            Event::Link {
                root: Root::Next(_),
                slot,
            } => Row {
                next: Some(slot),
                ..self
            },
            _ => self,
        }
    }
}

/// The row that an event changes, if any.
pub fn changed_row(event: &Event) -> Option<u32>
    ensures { result ≡ changed_row_of event.now }
{
    match *event {
        Event::Give { slot, .. }
        | Event::Unused { slot }
        | Event::Back { slot }
        | Event::Retire { slot, .. } => Some(slot),
        Event::Link {
            root: Root::Next(parent),
            ..
        } => Some(parent),
        _ => None,
    }
}
