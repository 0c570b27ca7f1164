// For each slot the deleter that belongs to it. A caller tells which slots went back, and the deleters
// of these are called.
ghost use Rattle.std.specs.Prelude.{◌≡◌, ◌<◌, ◌≤◌, ◌+◌, ◌++◌, ℕ, All, IfErr, IfOk, IsSome, None, OnOk, Some, is_some, length, replicate, slice_set};
ghost use Rattle.wfe_final.specs.Ledgers.{LedgerNow};
ghost use Rattle.wfe_final.specs.Slots.{Settles, call_of, calls_at, capped, firsts, id_at};

use crate::deleter::Deleter;
use crate::ledger::Ledger;
use std::alloc::Global;
use std::marker::Model;
use wfe_outside::NoMemory;

/// For each slot its deleter, or none. It is seen as their ids, a place for each slot from 0.
#[derive(Drop)]
pub struct Finals<D: Deleter> {
    deleters: Vec<Option<D>>,
}

impl<D: Deleter> Model for Finals<D> {
    ghost use Rattle.std.specs.Prelude.{List, Option, map, ℕ};
    ghost use Rattle.std.specs.Option.{option_map};

    ghost Value = { List (Option ℕ) };

    ghost view = { λ f. map (λ o. option_map D.identity o) f.deleters.items };
}

impl<D: Deleter> Finals<D> {
    /// No deleter at any of the slots from 0 to `slots`, which is the setting's number. `NoMemory`: memory ran
    /// out.
    pub fn new(alloc: Global, slots: u32) -> Result<Finals<D>, NoMemory>
        ensures { IfOk result (λ finals. finals ≡ replicate (slots + 1) None) }
    {
        let count = slots as usize + 1;
        let Ok(mut deleters) = Vec::with_capacity(alloc, count) else {
            return Err(NoMemory);
        };
        for _slot in 0..count {
            if deleters.push(None).is_err() {
                return Err(NoMemory);
            }
        }
        Ok(Finals { deleters })
    }

    /// Gives the slot this deleter. Where it has one already the new one comes back.
    pub fn attach(&mut self, slot: u32, deleter: D) -> Result<(), D>
        requires { slot < length self.old }
        ensures attached { OnOk result (self.new ≡ slice_set self.old slot (Some (D.identity deleter))) }
        ensures free { OnOk result (id_at self.old slot ≡ None) }
        ensures refused { IfErr result (λ back. back ≡ deleter) }
        ensures unchanged { IfErr result (λ _. self.new ≡ self.old) }
        ensures taken { IfErr result (λ _. IsSome (id_at self.old slot)) }
    {
        if self.has(slot) {
            return Err(deleter);
        }
        self.deleters[slot as usize] = Some(deleter);
        Ok(())
    }

    /// Calls the deleter of each of these slots that has one, once and in the order of the slots, and
    /// drops it; tells how many, or the greatest number of 32 bits where there are more. The other deleters
    /// stay. Each slot has a place here, and the ledger has room for as many calls as there are slots.
    pub fn settle(&mut self, backs: &[u32], ledger: &mut Ledger) -> u32
        requires slots { All (λ slot. slot < length self.old) backs.now }
        requires room { length backs.now ≤ ledger.old.spare }
        ensures settled { Settles self.old self.new backs.now ledger.old ledger.new }
        ensures count { result ≡ capped (length (calls_at self.old (firsts backs.now))) }
    {
        let mut count = 0u32;
        for slot in backs {
            if self.settle_slot(*slot, ledger) {
                count = count.saturating_add(1);
            }
        }
        count
    }

    // The slot has a deleter.
    pub(crate) fn has(&self, slot: u32) -> bool
        requires { slot < length self.now }
        ensures { result ≡ is_some (id_at self.now slot) }
    {
        self.deleters[slot as usize].is_some()
    }

    // Calls the slot's deleter and drops it, and tells whether there was one.
    pub(crate) fn settle_slot(&mut self, slot: u32, ledger: &mut Ledger) -> bool
        requires slot { slot < length self.old }
        requires room { length (call_of (id_at self.old slot) slot) ≤ ledger.old.spare }
        ensures calls { ledger.new.calls ≡ ledger.old.calls ++ call_of (id_at self.old slot) slot }
        ensures spare { ledger.new.spare + length (call_of (id_at self.old slot) slot) ≡ ledger.old.spare }
        ensures left { self.new ≡ slice_set self.old slot None }
        ensures found { result ≡ is_some (id_at self.old slot) }
    {
        let taken = self.deleters[slot as usize].take();
        match taken {
            Some(mut deleter) => {
                deleter.delete(slot, ledger);
                true
            }
            None => false,
        }
    }
}
