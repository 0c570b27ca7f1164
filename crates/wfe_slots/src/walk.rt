// A walk over the claim words: what it was shown taken is passed over.
ghost use Rattle.std.specs.Prelude.{◌≡◌, ◌≤◌, ◌==◌, is_some};
ghost use Rattle.wfe_core.specs.Allocate.{is_claimed, next_slot, shown_of, shown_word, walk_at, walk_from, walk_on, walk_past};
ghost use Rattle.wfe_slots.specs.Phases.{walk_of, walks_of};

// Where the walk began, the slot to try, how many slots come after it, and what was shown taken in
// the claim word where it began and in that of the slot to try.
#[derive(Clone, Copy)]
pub struct Walk {
    pub start: u32,
    pub slot: u32,
    pub left: u32,
    pub first: u64,
    pub shown: u64,
}

/// Whether the claim word, as it was found, shows the slot taken.
#[inline(always)]
#[tactic(auto, using(std::proofs::lemmas::Nat::Bits::shr_and_one))]
pub fn is_taken(word: u64, slot: u32) -> bool
    ensures { result ≡ is_claimed word slot }
{
    (word >> (slot % 64)) & 1 == 1
}

/// The slot after it, round the table: 0 after the last.
#[inline(always)]
pub fn slot_after(slots: u32, slot: u32) -> u32
    requires { slot ≤ slots }
    ensures next { result ≡ next_slot slots slot }
    ensures within { result ≤ slots }
{
    if slot == slots { 0 } else { slot + 1 }
}

impl Walk {
    // A walk from a slot over all the rows.
    pub fn from(slots: u32, start: u32) -> Walk
        ensures { walk_of result ≡ walk_from slots start }
    {
        Walk {
            start,
            slot: start,
            left: slots,
            first: 0,
            shown: 0,
        }
    }

    // What the walk was shown of the claim word that has a slot.
    fn shown_at(&self, slot: u32) -> u64
        ensures { result ≡ shown_of (walk_of self.now) slot }
    {
        if slot / 64 == self.start / 64 {
            self.first
        } else if slot / 64 == self.slot / 64 {
            self.shown
        } else {
            0
        }
    }

    // The walk once its slot's claim word was seen.
    fn seen(&self, word: u64) -> Walk
        ensures { walk_of result ≡ shown_word (walk_of self.now) word }
    {
        Walk {
            start: self.start,
            slot: self.slot,
            left: self.left,
            first: if self.slot / 64 == self.start / 64 {
                self.first | word
            } else {
                self.first
            },
            shown: self.shown_at(self.slot) | word,
        }
    }

    // The walk at the next slot that it was not shown taken, if one is left.
    fn on(&self, slots: u32) -> Option<Walk>
        requires { self.now.slot ≤ slots }
        ensures { walks_of result ≡ walk_on slots (walk_of self.now) self.now.left self.now.slot }
    {
        let mut left = self.left;
        let mut slot = self.slot;
        while left > 0 {
            left -= 1;
            slot = slot_after(slots, slot);
            let shown = self.shown_at(slot);
            if !is_taken(shown, slot) {
                return Some(Walk {
                    start: self.start,
                    slot,
                    left,
                    first: self.first,
                    shown,
                });
            }
        }
        None
    }

    // The walk after its slot was found taken.
    pub fn past(&self, slots: u32, word: u64) -> Option<Walk>
        requires { self.now.slot ≤ slots }
        ensures { walks_of result ≡ walk_past slots (walk_of self.now) word }
    {
        self.seen(word).on(slots)
    }
}
