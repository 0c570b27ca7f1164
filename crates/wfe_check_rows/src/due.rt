// What has to be told next.
ghost use Rattle.std.specs.Prelude.{◌≡◌, ℕ};
ghost use Rattle.laws.specs.Once.{meets_due};
ghost use Rattle.wfe_check_rows.specs.Due.{due_of, link_after, due_left};

use wfe_defs::{Event, Root};

/// What has to be told next, and by which seat.
#[derive(Clone, Copy)]
pub enum Due {
    Nothing,
    /// That this row is cut.
    Cut { seat: u32, slot: u32 },
    /// A change of this bucket.
    Change { seat: u32, bucket: u32 },
    Queued { seat: u32 },
    Taken { seat: u32 },
}

impl Due {
    /// Whether an event of a seat may come where this is due.
    pub fn allows(self, seat: u32, event: &Event) -> bool
        ensures { result ≡ meets_due (due_of self) seat event.now }
    {
        match self {
            Due::Nothing => !matches!(
                event,
                Event::Cut { .. }
                    | Event::Put { .. }
                    | Event::Removed { .. }
                    | Event::Queued { .. }
                    | Event::Taken { .. }
            ),
            Due::Cut { seat: by, slot } => match *event {
                Event::Cut { slot: other } => seat == by && other == slot,
                _ => false,
            },
            Due::Change { seat: by, bucket } => match *event {
                Event::Put { bucket: other, .. } | Event::Removed { bucket: other, .. } => {
                    seat == by && other == bucket
                }
                _ => false,
            },
            Due::Queued { seat: by } => match event {
                Event::Queued { .. } => seat == by,
                _ => false,
            },
            Due::Taken { seat: by } => match event {
                Event::Taken { .. } => seat == by,
                _ => false,
            },
        }
    }
}

/// Which root the last entry linked, where a cut may follow.
#[derive(Clone, Copy)]
pub enum LastLink {
    None,
    Bucket(u32),
    Head,
}

impl LastLink {
    /// What the event linked.
    pub fn of(event: &Event) -> LastLink
        ensures { result ≡ link_after event.now }
    {
        match *event {
            Event::Link {
                root: Root::Bucket(bucket),
                ..
            } => LastLink::Bucket(bucket),
            Event::Link {
                root: Root::Head,
                ..
            } => LastLink::Head,
            _ => LastLink::None,
        }
    }

    /// What is due once a seat has told the cut that follows.
    pub fn due_after_cut(self, seat: u32) -> Due
        ensures { due_of result ≡ due_left self seat }
    {
        match self {
            LastLink::None => Due::Nothing,
            LastLink::Bucket(bucket) => Due::Change { seat, bucket },
            LastLink::Head => Due::Taken { seat },
        }
    }
}
