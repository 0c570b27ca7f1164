// Who is told of each event of a run.
ghost use Rattle.std.specs.Prelude.{◌≡◌, ◌<◌, ℕ, List, OnOk, OnErr};
ghost use Rattle.wfe_defs.specs.Entry.{Entry, entry};
ghost use Rattle.wfe_outside.specs.Watched.{Grows};

use wfe_defs::{Event, NoMemory};

/// A row that a watcher shows at the end of a run.
#[derive(Clone, Copy, Debug, PartialEq, Eq)]
pub struct WatchRow {
    pub a: u64,
    pub b: u64,
    pub c: u64,
}

/// Who is told each event. A watcher stands for lists of seats and events: one that keeps its
/// events for just that list, a counter for each list with its counts.
pub trait Watcher: Drop {
    ghost use Rattle.wfe_outside.specs.declared.watcher.WatchRow.{WatchRow};

    /// The lists for which it stands.
    ghost stands: { Self → List Entry → Type 0 };

    /// How many rows it shows.
    ghost shown: { Self → ℕ };

    /// Its rows, by their places.
    ghost shows: { Self → ℕ → WatchRow };

    /// Tells one more event. Without memory the watcher stays as it was.
    fn note(&mut self, seat: u32, event: &Event) -> Result<(), NoMemory>
        ensures ok { OnOk result (Grows stands self.old self.new (entry seat event.now)) }
        ensures err { OnErr result (self.new ≡ self.old) };

    /// How many rows it shows.
    fn rows(&self) -> u64
        ensures { result ≡ shown self.now };

    /// One of its rows.
    fn row(&self, place: u64) -> WatchRow
        requires { place < shown self.now }
        ensures { result ≡ shows self.now place };
}
