// A watcher that gives deleters of a store to the slots that are retired, and calls them where these go
// back. All its memory is taken when it is made, so that telling it an event never fails.
ghost use Rattle.std.specs.Prelude.{◌≡◌, [], length, map, OnOk, OnErr, IfOk, IsOk};
ghost use Rattle.wfe_outside.specs.Watched.{Grows};
ghost use Rattle.wfe_final.specs.defs.Entry.{entry};
ghost use Rattle.wfe_final.specs.Watching.{StandsFor, row_at, watched, with_attached, with_settled};

use crate::deleter::Deleter;
use crate::finals::Finals;
use crate::ledger::Ledger;
use std::alloc::Global;
use std::marker::Model;
use wfe_outside::{Event, NoMemory, WatchRow, Watcher};

/// A store of deleters, those that were given to slots, and the ledger of those that were called. A row
/// that is retired gets the last deleter of the store, where its slot has none; where it goes back the
/// deleter is called and dropped. It is seen as the ids of the store as it was given and as it is, the id
/// for each slot, and the ledger.
#[derive(Drop)]
pub struct FinalWatcher<D: Deleter> {
    slots: u32,
    // The ids of the store as it was given.
    given: Vec<u64>,
    store: Vec<D>,
    finals: Finals<D>,
    ledger: Ledger,
}

impl<D: Deleter> Model for FinalWatcher<D> {
    ghost use Rattle.std.specs.Prelude.{map};
    ghost use Rattle.std.specs.Vec.{vec_len};
    ghost use Rattle.wfe_final.specs.Watching.{IsReady, Watching};

    ghost Value = { Watching };

    ghost view = { λ w. record { slots = w.slots; given = w.given.items; left = map D.identity w.store.items; finals = w.finals; calls = w.ledger.calls; spare = w.ledger.spare } };

    ghost invariant = { λ w. IsReady w.slots (vec_len w.store) w.finals w.ledger.spare };
}

impl<D: Deleter> FinalWatcher<D> {
    /// A watcher over the slots from 0 to `slots` with these deleters, to which nothing was told. `NoMemory`:
    /// memory ran out.
    pub fn new(alloc: Global, slots: u32, store: Vec<D>) -> Result<FinalWatcher<D>, NoMemory>
        ensures slots { IfOk result (λ w. w.slots ≡ slots) }
        ensures given { IfOk result (λ w. w.given ≡ map D.identity store.items) }
        ensures told { IfOk result (λ w. StandsFor w []) }
    {
        let given = ids_of(alloc, &store)?;
        let finals = Finals::new(alloc, slots)?;
        let ledger = Ledger::new(alloc, store.len())?;
        Ok(FinalWatcher {
            slots,
            given,
            store,
            finals,
            ledger,
        })
    }

    // A row of the slot was retired.
    fn attach(&mut self, slot: u32)
        ensures { self.new ≡ with_attached slot self.old }
    {
        if slot > self.slots || self.finals.has(slot) {
            return;
        }
        if let Some(deleter) = self.store.pop() {
            let _ = self.finals.attach(slot, deleter);
        }
    }

    // The slot went back.
    fn settle(&mut self, slot: u32)
        ensures { self.new ≡ with_settled slot self.old }
    {
        if slot <= self.slots {
            self.finals.settle_slot(slot, &mut self.ledger);
        }
    }
}

// The ids of these deleters.
fn ids_of<D: Deleter>(alloc: Global, store: &Vec<D>) -> Result<Vec<u64>, NoMemory>
    ensures { IfOk result (λ ids. ids.items ≡ map D.identity store.now.items) }
{
    let Ok(mut ids) = Vec::with_capacity(alloc, store.len()) else {
        return Err(NoMemory);
    };
    for deleter in store {
        if ids.push(deleter.id()).is_err() {
            return Err(NoMemory);
        }
    }
    Ok(ids)
}

impl<D: Deleter> Watcher for FinalWatcher<D> {
    ghost stands = { StandsFor };

    ghost shown = { λ w. length w.calls };

    ghost shows = { row_at };

    fn note(&mut self, seat: u32, event: &Event) -> Result<(), NoMemory>
        ensures ok { OnOk result (Grows StandsFor self.old self.new (entry seat event.now)) }
        ensures err { OnErr result (self.new ≡ self.old) }
        ensures never_fails { IsOk result }
        ensures watched { self.new ≡ watched event.now self.old }
    {
        match *event {
            Event::Retire { slot, .. } => self.attach(slot),
            Event::Back { slot } => self.settle(slot),
            _ => {}
        }
        Ok(())
    }

    fn rows(&self) -> u64 {
        self.ledger.len() as u64
    }

    fn row(&self, place: u64) -> WatchRow {
        // The place is below the number of rows, so one more than it fits.
        let _rows = self.rows();
        let (id, slot) = self.ledger.get(place as usize);
        WatchRow {
            a: id,
            b: slot.into(),
            c: place + 1,
        }
    }
}
