// A counter of keys: how often each was put and removed. A run may tell the removals of a key before
// its first put, so these are kept until it has a row. Memory is taken only while a key has none.
ghost use Rattle.std.specs.Prelude.{◌≡◌, [], false, length, OnOk, OnErr};
ghost use Rattle.wfe_defs.specs.Entry.{entry};
ghost use Rattle.wfe_outside.specs.Watched.{Grows};
ghost use Rattle.wfe_watch.specs.Counts.{row_at};
ghost use Rattle.wfe_watch.specs.Keys.{CountsKeys, ChangesNewKey, early_count, has_row, put_counted, removal_counted};

use indexmap::IndexMap;
use std::alloc::Global;
use std::marker::Model;
use wfe_defs::{Event, NoMemory};
use wfe_outside::{WatchRow, Watcher};

/// The changes of one key.
#[derive(Clone, Copy)]
struct Changes {
    puts: u64,
    removals: u64,
}

/// For each key that was put its puts and its removals, each 0 to the greatest u64, at which a
/// count stands still. It is seen as its rows (key, puts, removals), in the order of the keys'
/// first puts, and the removals of keys that were not put yet.
#[derive(Drop)]
pub struct KeyCounter {
    keys: IndexMap<u64, Changes>,
    // The removals of keys before their first put. What stands here of a key in `keys` is not read.
    early: IndexMap<u64, u64>,
}

impl Model for KeyCounter {
    ghost use Rattle.std.specs.Prelude.{map};
    ghost use Rattle.wfe_watch.specs.Keys.{KeyCounts};

    ghost Value = { KeyCounts };

    ghost use Rattle.wfe_watch.specs.Changes.{changes_row};

    ghost view = { λ k. record { rows = map changes_row k.keys.entries; early = k.early.entries } };
}

impl KeyCounter {
    /// A counter to which nothing was told. It has taken no memory.
    pub fn new(alloc: Global) -> KeyCounter
        ensures none { result.rows ≡ [] }
        ensures counted { CountsKeys result [] }
    {
        KeyCounter {
            keys: IndexMap::new(alloc),
            early: IndexMap::new(alloc),
        }
    }

    // Counts a put of the key.
    fn count_put(&mut self, key: u64) -> Result<(), NoMemory>
        ensures ok { OnOk result (self.new ≡ put_counted key self.old) }
        ensures err { OnErr result (self.new ≡ self.old) }
        ensures refused { OnErr result (has_row key self.old.rows ≡ false) }
    {
        if let Some(changes) = self.keys.get_mut(&key) {
            changes.puts = changes.puts.saturating_add(1);
            return Ok(());
        }
        let first = Changes {
            puts: 1,
            removals: early_removals(&self.early, key),
        };
        match self.keys.insert(key, first) {
            Ok(_) => Ok(()),
            Err(_) => Err(NoMemory),
        }
    }

    // Counts a removal of the key.
    fn count_removal(&mut self, key: u64) -> Result<(), NoMemory>
        ensures ok { OnOk result (self.new ≡ removal_counted key self.old) }
        ensures err { OnErr result (self.new ≡ self.old) }
        ensures refused { OnErr result (has_row key self.old.rows ≡ false) }
    {
        if let Some(changes) = self.keys.get_mut(&key) {
            changes.removals = changes.removals.saturating_add(1);
            return Ok(());
        }
        let removals = early_removals(&self.early, key).saturating_add(1);
        match self.early.insert(key, removals) {
            Ok(_) => Ok(()),
            Err(_) => Err(NoMemory),
        }
    }
}

// How often a key was removed before its first put.
fn early_removals(early: &IndexMap<u64, u64>, key: u64) -> u64
    ensures { result ≡ early_count early.now.entries key }
{
    early.get(&key).copied().unwrap_or(0)
}

impl Watcher for KeyCounter {
    ghost stands = { CountsKeys };

    ghost shown = { λ counts. length counts.rows };

    ghost shows = { λ counts place. row_at counts.rows place };

    fn note(&mut self, seat: u32, event: &Event) -> Result<(), NoMemory>
        ensures ok { OnOk result (Grows CountsKeys self.old self.new (entry seat event.now)) }
        ensures err { OnErr result (self.new ≡ self.old) }
        ensures refused { OnErr result (ChangesNewKey self.old.rows event.now) }
    {
        match *event {
            Event::Put { key, .. } => self.count_put(key),
            Event::Removed { key, .. } => self.count_removal(key),
            _ => Ok(()),
        }
    }

    fn rows(&self) -> u64 {
        self.keys.len() as u64
    }

    fn row(&self, place: u64) -> WatchRow {
        match self.keys.get_index(place as usize) {
            Some((key, changes)) => WatchRow {
                a: *key,
                b: changes.puts,
                c: changes.removals,
            },
            None => unreachable!(),
        }
    }
}
