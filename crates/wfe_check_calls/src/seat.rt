// What a record says of the calls of one seat, with the changes that an event of the seat makes.
ghost use Rattle.std.specs.Prelude.{◌≡◌, ◌<◌, ◌||◌, IfOk, OnOk, Some, false, true};
ghost use Rattle.laws.specs.Lists.{is_left as is_leaving};
ghost use Rattle.laws.specs.Once.{retires_right};
ghost use Rattle.laws.specs.StateAt.{began_by, cuts_by, has_root as has_root_call, is_among as is_among_rows, opened_by, rooted_by, without_one as without_row};
ghost use Rattle.wfe_check_calls.specs.Seats.{IsFresh, advances_right, finds_right, moved_by, no_calls, null_told_by, opens_right, seat_by, seat_right, shown_seat};

use crate::blocks::Blocks;
use crate::grant::Grant;
use std::alloc::Global;
use wfe_defs::{Call, Event, NoMemory};

#[derive(Drop)]
pub(crate) struct Seat {
    // Whether the seat is in a call.
    pub in_call: bool,
    // Whether it has left its list.
    pub left: bool,
    // The call that it began last.
    pub began: Option<Call>,
    // Whether that call has told at index 0 that a row stands, or that there is none.
    pub rooted: bool,
    // Whether it has told there that there is none.
    pub null: bool,
    // Whether it has moved the clock.
    pub moved: bool,
    pub grant: Grant,
    pub blocks: Blocks,
    // The rows that it has cut and not retired since, the last one first.
    pub cuts: Vec<u32>,
}

// Takes the first of these rows out, where it is among them.
fn take_out(cuts: &mut Vec<u32>, slot: u32)
    ensures { cuts.new.items ≡ without_row slot cuts.old.items }
{
    for place in 0..cuts.len() {
        if cuts[place] == slot {
            cuts.remove(place);
            return;
        }
    }
}

#[inline(always)]
fn note_cuts(cuts: &mut Vec<u32>, event: &Event) -> Result<(), NoMemory>
    ensures { OnOk result (cuts.new.items ≡ cuts_by event.now cuts.old.items) }
{
    match *event {
        Event::Begin { .. } => cuts.clear(),
        Event::Cut { slot } => {
            if cuts.insert(0, slot).is_err() {
                return Err(NoMemory);
            }
        }
        Event::Retire { slot, .. } => take_out(cuts, slot),
        _ => {}
    }
    Ok(())
}

// Whether the call looks for a root at index 0.
fn has_root(call: Option<Call>) -> bool
    ensures { result ≡ has_root_call call }
{
    matches!(
        call,
        Some(
            Call::Get { .. }
                | Call::Put { .. }
                | Call::Remove { .. }
                | Call::PutIf { .. }
                | Call::Enqueue { .. }
                | Call::Dequeue
        )
    )
}

impl Seat {
    /// A seat that has told nothing.
    pub fn new(alloc: Global) -> Seat
        ensures { shown_seat result ≡ no_calls }
    {
        Seat {
            in_call: false,
            left: false,
            began: None,
            rooted: false,
            null: false,
            moved: false,
            grant: Grant::none(),
            blocks: Blocks::none(),
            cuts: Vec::new(alloc),
        }
    }

    // A call begins.
    #[inline(always)]
    fn begin(&mut self, call: Call)
        ensures { self.new ≡ record self.old { in_call = true; began = Some call; rooted = false; null = false; moved = false } }
    {
        self.in_call = true;
        self.began = Some(call);
        self.rooted = false;
        self.null = false;
        self.moved = false;
    }

    // Takes an event into what is known of the call: only what the event changes is written.
    #[inline(always)]
    fn note_call(&mut self, event: &Event)
        ensures { self.new ≡ record self.old {
          in_call = opened_by event.now self.old.in_call;
          left = is_leaving event.now || self.old.left;
          began = began_by event.now self.old.began;
          rooted = rooted_by event.now self.old.rooted;
          null = null_told_by event.now self.old.null;
          moved = moved_by event.now self.old.moved;
        } }
    {
        match *event {
            Event::Begin { call } => self.begin(call),
            Event::End { .. } => self.in_call = false,
            Event::Held { index, .. } => self.rooted = index == 0 || self.rooted,
            Event::Null { index, .. } => {
                self.rooted = index == 0 || self.rooted;
                self.null = index == 0 || self.null;
            }
            Event::Era { .. } => self.moved = true,
            Event::Left { .. } => self.left = true,
            _ => {}
        }
    }

    /// Takes an event of the seat, where there are `all` guards, and a block is due at each `every`
    /// retirements. NoMemory: a count has passed the numbers of 64 bits, or there is none for a row.
    #[inline(always)]
    pub fn note(&mut self, event: &Event, all: u32, every: u32) -> Result<(), NoMemory>
        requires { 0 < every }
        ensures { OnOk result (shown_seat self.new ≡ seat_by all every event.now (shown_seat self.old)) }
    {
        note_cuts(&mut self.cuts, event)?;
        self.blocks.note(event, all, every)?;
        self.grant.note(event);
        self.note_call(event);
        Ok(())
    }

    #[inline(always)]
    fn opens(&self, event: &Event) -> bool
        ensures { result ≡ opens_right event.now self.now.in_call self.now.left }
    {
        match event {
            Event::Begin { .. } => !self.in_call && !self.left,
            _ => self.in_call,
        }
    }

    #[inline(always)]
    fn retires(&self, event: &Event) -> bool
        ensures { result ≡ retires_right event.now self.now.cuts.items }
    {
        match *event {
            Event::Retire { slot, .. } => is_among(&self.cuts, slot),
            Event::End { .. } => self.cuts.is_empty(),
            _ => true,
        }
    }

    #[inline(always)]
    fn finds(&self, event: &Event) -> bool
        ensures { result ≡ finds_right event.now self.now.began self.now.rooted }
    {
        match event {
            Event::End { .. } => !has_root(self.began) || self.rooted,
            _ => true,
        }
    }

    #[inline(always)]
    fn advances(&self, event: &Event) -> bool
        ensures { result ≡ advances_right event.now self.now.began self.now.moved }
    {
        match event {
            Event::Era { .. } => matches!(self.began, Some(Call::Advance)) && !self.moved,
            _ => true,
        }
    }

    /// Whether the seat may tell the event, where retirements move the clock or do not.
    #[inline(always)]
    pub fn fits(&self, event: &Event, by_retires: bool) -> bool
        ensures { result ≡ seat_right by_retires event.now (shown_seat self.now) }
    {
        self.opens(event)
            && self.grant.fits(event)
            && self.retires(event)
            && self.blocks.fits(self.began, event)
            && self.blocks.moves_fit(self.began, event)
            && self.finds(event)
            && (by_retires || self.advances(event))
    }
}

// Whether the row is among these.
#[tactic(auto, using(crate::proofs::Cuts::among_any))]
fn is_among(cuts: &[u32], slot: u32) -> bool
    ensures { result ≡ is_among_rows slot cuts.now }
{
    cuts.contains(&slot)
}

/// So many seats that have told nothing. NoMemory: there is none for them.
pub(crate) fn new_seats(alloc: Global, seats: u32) -> Result<Vec<Seat>, NoMemory>
    ensures { IfOk result (λ all. IsFresh seats all.items) }
{
    let Ok(mut all) = Vec::with_capacity(alloc, seats as usize) else {
        return Err(NoMemory);
    };
    for _ in 0..seats {
        if all.push(Seat::new(alloc)).is_err() {
            return Err(NoMemory);
        }
    }
    Ok(all)
}
