// A seat of a rig: its post, its desk and the call under way on it, and the seat's part of a unit.
ghost use Rattle.std.specs.Prelude.{◌≡◌, ◌<◌, ◌≤◌, ◌+◌, ◌==◌, [], IfOk, length, map, true, false, slice_get, Some};
ghost use Rattle.std.specs.List.{range_with_len};
ghost use Rattle.wfe_core.specs.words.Place.{is_valid};
ghost use Rattle.wfe_drive_cells.specs.Operations.{answered, performed, word_in};
ghost use Rattle.wfe_drive_cells.specs.Unit.{Leaves, SeatView, answer_in, asked, fresh_seat, seat_after, turned};
ghost use Rattle.wfe_core.specs.CallReady.{IsCallPlausible, IsCallReady, NotListed, NotesFit};
ghost use Rattle.wfe_core.specs.Calls.{GoesOn, Idle, Phase};
ghost use Rattle.wfe_core.specs.DeskHeld.{HasRoom, desk_of};
ghost use Rattle.wfe_core.specs.Desks.{no_notes, with_life};
ghost use Rattle.wfe_core.specs.Locals.{begun_post, busy_in, told_by};
ghost use Rattle.wfe_core.specs.Posts.{counted};
ghost use Rattle.wfe_core.specs.Steps.{call_op, phase_turn};
ghost use Rattle.wfe_core.specs.Valid.{IsValid};
ghost use Rattle.wfe_drive_seat.specs.Leaving.{MayMove, given_seat, joined_views, leaving, lets_go, seat_in, seat_let, told_let, words_let};
ghost use Rattle.wfe_drive_seat.specs.Seats.{Suits, engaged_phase, is_engaged};
ghost use Rattle.wfe_drive_seat.specs.declared.seat.Engaged.TheVariants.{Free};

use crate::letting::let_next;
use std::alloc::Global;
use std::marker::Model;
use wfe_core::{
    Answer, CallMachine, Desk, Event, Layout, Lifetime, NoMemory, Post, RetireList, Told,
};
use wfe_drive_cells::Cells;

/// A seat's call, by the table's scheme; none between calls.
#[derive(Drop)]
pub enum Engaged<H: CallMachine, I: CallMachine, W: CallMachine, P: CallMachine> {
    Free,
    /// Under Hazard Eras.
    He(H),
    /// Under 2GE intervals.
    Ibr(I),
    /// Under Wait-Free Eras.
    Wfe(W),
    /// Under hazard pointers.
    Hp(P),
}

/// A seat of a table. It is seen as what the model knows of a seat: where its call stands, its post
/// and its desk.
#[derive(Drop)]
pub struct SeatState<H: CallMachine, I: CallMachine, W: CallMachine, P: CallMachine> {
    post: Post,
    desk: Desk,
    engaged: Engaged<H, I, W, P>,
}

impl<H: CallMachine, I: CallMachine, W: CallMachine, P: CallMachine> Model
    for SeatState<H, I, W, P> {
    ghost use Rattle.wfe_drive_cells.specs.Unit.{SeatView};
    ghost use Rattle.wfe_core.specs.DeskHeld.{desk_of};
    ghost use Rattle.wfe_drive_seat.specs.Seats.{engaged_phase};
    ghost use Rattle.wfe_drive_seat.specs.Sound.{IsSound};

    ghost Value = { SeatView };

    ghost view = { λ s. record { phase = engaged_phase H.phase I.phase W.phase P.phase s.engaged s.post; post = s.post; desk = desk_of s.desk } };

    ghost invariant = { λ s. IsSound H.suits I.suits W.suits P.suits H.phase I.phase W.phase P.phase s.engaged s.post s.desk };
}

impl<H: CallMachine, I: CallMachine, W: CallMachine, P: CallMachine> SeatState<H, I, W, P> {
    /// A seat that has made no call.
    pub fn new(alloc: Global, seat: u32, layout: Layout) -> Result<SeatState<H, I, W, P>, NoMemory>
        requires layout { is_valid layout ≡ true }
        requires seat { seat < layout.config.seats }
        ensures { IfOk result (λ state. state ≡ fresh_seat layout seat) }
    {
        Ok(SeatState {
            post: Post::new(seat, layout),
            desk: Desk::new(alloc, layout)?,
            engaged: Engaged::Free,
        })
    }

    /// Whether a call is under way.
    pub fn busy(&self) -> bool
        ensures { result ≡ busy_in self.now.phase }
    {
        match self.engaged {
            Engaged::Free => false,
            _ => true,
        }
    }

    /// A call begins.
    pub fn engage(&mut self, engaged: Engaged<H, I, W, P>)
        requires suits { Suits H.suits I.suits W.suits P.suits engaged self.old.post.layout.config.scheme }
        requires busy { busy_in (engaged_phase H.phase I.phase W.phase P.phase engaged (begun_post self.old.post)) ≡ true }
        requires engaged { is_engaged engaged ≡ true }
        ensures phase { self.new.phase ≡ engaged_phase H.phase I.phase W.phase P.phase engaged (begun_post self.old.post) }
        ensures post { self.new.post ≡ begun_post self.old.post }
        ensures desk { self.new.desk ≡ record self.old.desk { notes = no_notes } }
    {
        self.post.steps = 0;
        self.desk.notes.clear();
        self.engaged = engaged;
    }

    /// Makes one step of the seat's call on the cells, tells its events, and answers where the call
    /// ended. It takes no memory.
    #[inline(always)]
    pub fn unit<C: Cells>(&mut self, cells: &mut C, told: &mut Told) -> Option<Answer>
        requires busy { busy_in self.old.phase ≡ true }
        requires there { word_in (asked self.old) < length (C.words cells.old) }
        requires valid { IsValid self.old.post }
        requires ready { IsCallReady self.old.phase self.old.post self.old.desk }
        requires noted { NotesFit self.old.post self.old.desk }
        requires plausible { IsCallPlausible self.old.phase self.old.post (answered (C.words cells.old) (asked self.old)) }
        requires goes { (phase : Phase) → (turned self.old (answered (C.words cells.old) (asked self.old))).outcome ≡ GoesOn phase → busy_in phase ≡ true }
        requires empty { told.old ≡ [] }
        ensures words { C.words cells.new ≡ performed (C.words cells.old) (asked self.old) }
        ensures seat { self.new ≡ seat_after (turned self.old (answered (C.words cells.old) (asked self.old))) }
        ensures told { told.new ≡ told_by (turned self.old (answered (C.words cells.old) (asked self.old))) }
        ensures answer { result ≡ answer_in (turned self.old (answered (C.words cells.old) (asked self.old))).outcome }
        ensures layout { self.new.post.layout ≡ self.old.post.layout }
    {
        let answer = self
            .engaged
            .unit(cells, &mut self.post, &mut self.desk, told);
        if answer.is_some() {
            self.engaged.end();
        }
        answer
    }

    /// Lets go of what a seat that leaves lets go next, where it makes no call: what stands at the first
    /// index, and under 2GE all of it with the interval. It is one operation on the cells, and counts as
    /// one step of a call that then ended, whose end is not told. It answers whether there was something.
    pub fn clear<C: Cells>(&mut self, cells: &mut C, told: &mut Told) -> bool
        requires free { busy_in self.old.phase ≡ false }
        requires valid { IsValid self.old.post }
        requires there { word_in (asked (leaving self.old)) < length (C.words cells.old) }
        requires empty { told.old ≡ [] }
        ensures more { result ≡ lets_go self.old }
        ensures seat { self.new ≡ seat_let result self.old (C.words cells.old) }
        ensures words { C.words cells.new ≡ words_let result self.old (C.words cells.old) }
        ensures told { told.new ≡ told_let result self.old (C.words cells.old) }
    {
        let mut post = self.post;
        post.steps = 0;
        if !let_next(cells, &mut post, told) {
            return false;
        }
        self.close(post);
        true
    }

    // A call of one step has ended that left this post.
    fn close(&mut self, post: Post)
        requires free { busy_in self.old.phase ≡ false }
        requires layout { post.layout ≡ self.old.post.layout }
        ensures { self.new ≡ record { phase = Idle; post = post; desk = record self.old.desk { notes = record no_notes { steps = 1 } } } }
    {
        self.post = post;
        self.desk.notes.clear();
        self.desk.notes.note(&Event::End {
            steps: 1,
            answer: Answer::Released,
        });
    }

    /// How many rows are in the seat's list.
    pub fn list_len(&self) -> usize
        ensures count { result ≡ length self.now.desk.list }
        ensures most { result ≤ self.now.post.layout.config.slots + 1 }
    {
        self.desk.list.len()
    }

    /// The life at a place of the seat's list, from 0.
    pub fn life_at(&self, place: usize) -> Lifetime
        requires { place < length self.now.desk.list }
        ensures { slice_get self.now.desk.list place ≡ Some result }
    {
        self.desk.list.get(place)
    }

    /// Adds a life at the end of the seat's list. It takes no memory.
    pub fn take_life(&mut self, life: Lifetime)
        requires row { life.slot ≤ self.old.post.layout.config.slots }
        requires apart { NotListed life.slot self.old.desk.list }
        ensures { self.new ≡ record self.old { desk = with_life self.old.desk life } }
    {
        self.desk.list.add(life);
    }

    /// Leaves the seat's list empty.
    pub fn empty_list(&mut self)
        ensures { self.new ≡ given_seat self.old }
    {
        empty(&mut self.desk.list);
    }

    /// Leaves the notes empty.
    pub fn clear_notes(&mut self)
        ensures { self.new ≡ record self.old { desk = record self.old.desk { notes = no_notes } } }
    {
        self.desk.notes.clear();
    }
}

// Leaves a list empty, from its end on.
fn empty(list: &mut RetireList)
    ensures lives { list.new.lives ≡ [] }
    ensures slots { list.new.slots ≡ list.old.slots }
{
    let count = list.len();
    for _turn in 0..count {
        let last = list.len() - 1;
        let _life = list.remove(last);
    }
}

impl<H: CallMachine, I: CallMachine, W: CallMachine, P: CallMachine> Engaged<H, I, W, P> {
    /// Makes one step of the call, under whichever scheme it is.
    #[inline(always)]
    fn unit<C: Cells>(
        &mut self,
        cells: &mut C,
        post: &mut Post,
        desk: &mut Desk,
        told: &mut Told,
    ) -> Option<Answer>
        requires engaged { is_engaged self.old ≡ true }
        requires there { word_in (call_op (engaged_phase H.phase I.phase W.phase P.phase self.old post.old) post.old) < length (C.words cells.old) }
        requires valid { IsValid post.old }
        requires suits { Suits H.suits I.suits W.suits P.suits self.old post.old.layout.config.scheme }
        requires room { HasRoom desk.old post.old.layout }
        requires ready { IsCallReady (engaged_phase H.phase I.phase W.phase P.phase self.old post.old) post.old (desk_of desk.old) }
        requires noted { NotesFit post.old (desk_of desk.old) }
        requires plausible { IsCallPlausible (engaged_phase H.phase I.phase W.phase P.phase self.old post.old) post.old (answered (C.words cells.old) (call_op (engaged_phase H.phase I.phase W.phase P.phase self.old post.old) post.old)) }
        requires empty { told.old ≡ [] }
        ensures engaged { is_engaged self.new ≡ true }
        ensures suits { Suits H.suits I.suits W.suits P.suits self.new post.new.layout.config.scheme }
        ensures layout { post.new.layout ≡ post.old.layout }
        ensures room { HasRoom desk.new post.new.layout }
        ensures words { C.words cells.new ≡ performed (C.words cells.old) (call_op (engaged_phase H.phase I.phase W.phase P.phase self.old post.old) post.old) }
        ensures leaves { Leaves (phase_turn (engaged_phase H.phase I.phase W.phase P.phase self.old post.old) (counted post.old) (desk_of desk.old) (answered (C.words cells.old) (call_op (engaged_phase H.phase I.phase W.phase P.phase self.old post.old) post.old))) post.new desk.new told.new result (engaged_phase H.phase I.phase W.phase P.phase self.new post.new) }
    {
        match self {
            Engaged::Free => unreachable!(),
            Engaged::He(machine) => step(machine, cells, post, desk, told),
            Engaged::Ibr(machine) => step(machine, cells, post, desk, told),
            Engaged::Wfe(machine) => step(machine, cells, post, desk, told),
            Engaged::Hp(machine) => step(machine, cells, post, desk, told),
        }
    }

    // No call is under way. It stands apart, so that a step that ends no call makes no room for this.
    #[inline(never)]
    fn end(&mut self)
        ensures { self.new ≡ Free }
    {
        *self = Engaged::Free;
    }
}

// One step of a machine: its operation, and what the machine takes of what that found. Under each scheme it has
// code of its own, in which the machine's own code stands.
#[inline(never)]
fn step<M: CallMachine, C: Cells>(
    machine: &mut M,
    cells: &mut C,
    post: &mut Post,
    desk: &mut Desk,
    told: &mut Told,
) -> Option<Answer>
    requires there { word_in (call_op (M.phase machine.old post.old) post.old) < length (C.words cells.old) }
    requires valid { IsValid post.old }
    requires suits { M.suits post.old.layout.config.scheme }
    requires room { HasRoom desk.old post.old.layout }
    requires ready { IsCallReady (M.phase machine.old post.old) post.old (desk_of desk.old) }
    requires noted { NotesFit post.old (desk_of desk.old) }
    requires plausible { IsCallPlausible (M.phase machine.old post.old) post.old (answered (C.words cells.old) (call_op (M.phase machine.old post.old) post.old)) }
    requires empty { told.old ≡ [] }
    ensures suits { M.suits post.new.layout.config.scheme }
    ensures layout { post.new.layout ≡ post.old.layout }
    ensures room { HasRoom desk.new post.new.layout }
    ensures words { C.words cells.new ≡ performed (C.words cells.old) (call_op (M.phase machine.old post.old) post.old) }
    ensures leaves { Leaves (phase_turn (M.phase machine.old post.old) (counted post.old) (desk_of desk.old) (answered (C.words cells.old) (call_op (M.phase machine.old post.old) post.old))) post.new desk.new told.new result (M.phase machine.new post.new) }
{
    let op = machine.next_op(post, desk);
    let found = cells.perform(post.seat, op);
    machine.take(post, desk, found, told)
}

/// The list of one seat goes to the end of another's, and the notes of the latter are cleared. It takes no
/// memory, and answers how many rows went.
pub fn move_list<H: CallMachine, I: CallMachine, W: CallMachine, P: CallMachine>(
    layout: Layout,
    seats: &mut Vec<SeatState<H, I, W, P>>,
    from: usize,
    to: usize,
) -> usize
    requires from { from < length seats.old.items }
    requires to { to < length seats.old.items }
    requires apart { (from == to) ≡ false }
    requires fits { MayMove layout seats.old.items from to }
    ensures count { result ≡ length (seat_in layout seats.old.items from).desk.list }
    ensures most { result ≤ (seat_in layout seats.old.items from).post.layout.config.slots + 1 }
    ensures seats { seats.new.items ≡ joined_views layout seats.old.items from to }
{
    let _layout = layout;
    let count = seats[from].list_len();
    for place in 0..count {
        let life = seats[from].life_at(place);
        seats[to].take_life(life);
    }
    seats[to].clear_notes();
    seats[from].empty_list();
    count
}

/// The seats of a table in number order, none of which has made a call.
pub fn fresh_seats<H: CallMachine, I: CallMachine, W: CallMachine, P: CallMachine>(
    alloc: Global,
    layout: Layout,
) -> Result<Vec<SeatState<H, I, W, P>>, NoMemory>
    requires { is_valid layout ≡ true }
    ensures { IfOk result (λ seats. seats.items ≡ map (fresh_seat layout) (range_with_len 0 layout.config.seats)) }
{
    let count = layout.config().seats;
    let Ok(mut seats) = Vec::with_capacity(alloc, count as usize) else {
        return Err(NoMemory);
    };
    for seat in 0..count {
        let state = SeatState::new(alloc, seat, layout)?;
        match seats.push(state) {
            Ok(()) => {}
            Err(_) => return Err(NoMemory),
        }
    }
    Ok(seats)
}
