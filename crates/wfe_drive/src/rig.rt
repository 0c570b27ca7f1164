// A table of words with its seats, of which one after another makes its units.
ghost use Rattle.std.specs.Prelude.{◌≡◌, ◌<◌, ◌==◌, [], IfOk, length, true, false};
ghost use Rattle.wfe_core.specs.words.Place.{is_valid};
ghost use Rattle.wfe_drive_cells.specs.Memory.{HoldsStart};
ghost use Rattle.wfe_drive_cells.specs.Operations.{answered, word_in};
ghost use Rattle.wfe_drive_cells.specs.Unit.{IsUnit, after_start, may_adopt, seat_at};
ghost use Rattle.wfe_core.specs.Locals.{busy_in, may_begin, stays};
ghost use Rattle.wfe_core.specs.Steps.{first_phase};
ghost use Rattle.wfe_core.specs.declared.post.Post.{Post};
ghost use Rattle.wfe_drive.specs.Bare.{bare, is_place};
ghost use Rattle.wfe_drive.specs.Reached.{first_table, units_left};
ghost use Rattle.wfe_drive.specs.Leaving.{after_clear, after_join, after_place};
ghost use Rattle.wfe_drive_seat.specs.Leaving.{lets_go, told_let};
ghost use Rattle.wfe_drive_seat.specs.Seats.{Suits, engaged_phase, is_engaged};

use std::alloc::Global;
use std::marker::Model;
use wfe_call_any::{HeCall, HpCall, IbrCall, WfeCall};
use wfe_core::{Answer, Call, CallMachine, Layout, NoMemory, Op, SchemeKind, Told};
use wfe_drive_cells::Cells;
use wfe_drive_seat::{Engaged, SeatState, fresh_seats, move_list};

type State = SeatState<HeCall, IbrCall, WfeCall, HpCall>;

// A call of a seat that stays, which begins on a table of this layout, under its scheme.
fn begin_under(layout: Layout, call: Call) -> Engaged<HeCall, IbrCall, WfeCall, HpCall>
    requires { stays call ≡ true }
    ensures suits { Suits ⟦<HeCall as CallMachine>⟧.suits ⟦<IbrCall as CallMachine>⟧.suits ⟦<WfeCall as CallMachine>⟧.suits ⟦<HpCall as CallMachine>⟧.suits result layout.config.scheme }
    ensures engaged { is_engaged result ≡ true }
    ensures phase { (post : Post) → post.layout.config.scheme ≡ layout.config.scheme
        → engaged_phase ⟦<HeCall as CallMachine>⟧.phase ⟦<IbrCall as CallMachine>⟧.phase ⟦<WfeCall as CallMachine>⟧.phase ⟦<HpCall as CallMachine>⟧.phase result post ≡ first_phase call post }
{
    match layout.config().scheme {
        SchemeKind::He => Engaged::He(HeCall::begin(layout, call)),
        SchemeKind::Ibr => Engaged::Ibr(IbrCall::begin(layout, call)),
        SchemeKind::Wfe => Engaged::Wfe(WfeCall::begin(layout, call)),
        SchemeKind::Hp => Engaged::Hp(HpCall::begin(layout, call)),
    }
}

/// The words of a table and its seats, in the hands of one owner. It is seen as its words by number
/// and what the model knows of each seat. With each place word 0 it is a World in which the invariant
/// holds and all seats stay: none of the calls under way is one by which a seat leaves, or takes over
/// what another has left. Place words are its owner's, who may change them between the units of seats.
#[derive(Drop)]
pub struct Rig<C: Cells> {
    cells: C,
    layout: Layout,
    seats: Vec<State>,
}

impl<C: Cells> Model for Rig<C> {
    ghost use Rattle.wfe_drive_cells.specs.Unit.{TableView};
    ghost use Rattle.wfe_drive.specs.Bare.{bare};
    ghost use Rattle.wfe_drive.specs.Reached.{IsReached};

    ghost Value = { TableView };

    ghost view = { λ r. record { layout = r.layout; words = C.words r.cells; seats = r.seats.items } };

    ghost invariant = { λ r. IsReached (bare (record { layout = r.layout; words = C.words r.cells; seats = r.seats.items })) };
}

impl<C: Cells> Rig<C> {
    /// A table at its start, each seat between calls.
    pub fn new(alloc: Global, cells: C, layout: Layout) -> Result<Rig<C>, NoMemory>
        requires layout { is_valid layout ≡ true }
        requires cells { HoldsStart layout (C.words cells) }
        ensures { IfOk result (λ rig. rig ≡ first_table layout) }
    {
        let seats = fresh_seats(alloc, layout)?;
        Ok(Rig {
            cells,
            layout,
            seats,
        })
    }

    /// Whether a call of the seat is under way.
    pub fn busy(&self, seat: u32) -> bool
        requires { seat < self.now.layout.config.seats }
        ensures { result ≡ busy_in (seat_at self.now seat).phase }
    {
        self.seats[seat as usize].busy()
    }

    /// A call of the seat begins, which names indexes in their ranges, and by which the seat neither leaves
    /// nor takes over what another has left. No word changes, and no memory is taken.
    pub fn start(&mut self, seat: u32, call: Call)
        requires seat { seat < self.old.layout.config.seats }
        requires free { busy_in (seat_at self.old seat).phase ≡ false }
        requires may { may_begin self.old.layout.config call ≡ true }
        requires stays { stays call ≡ true }
        ensures table { self.new ≡ after_start self.old seat call }
    {
        let engaged = begin_under(self.layout, call);
        self.seats[seat as usize].engage(engaged);
    }

    /// Makes one unit of the seat's call: exactly one operation on the words, and exactly one step of
    /// the model, with the place words as they are and with each of them 0. It takes over no list. Its
    /// events are told, and the answer is Some where the call ended. It takes no memory, and leaves a
    /// call that goes on fewer units.
    #[inline(always)]
    pub fn unit(&mut self, seat: u32, told: &mut Told) -> Option<Answer>
        requires seat { seat < self.old.layout.config.seats }
        requires busy { busy_in (seat_at self.old seat).phase ≡ true }
        requires empty { told.old ≡ [] }
        ensures unit { IsUnit self.old self.new seat told.new result }
        ensures bare { IsUnit (bare self.old) (bare self.new) seat told.new result }
        ensures own { may_adopt (seat_at self.old seat).phase ≡ false }
        ensures falls { units_left self.new seat < units_left self.old seat }
    {
        self.seats[seat as usize].unit(&mut self.cells, told)
    }

    /// Lets go of what a seat that leaves lets go next, where it makes no call: what stands at the first
    /// index, and under 2GE all of it with the interval. It is one operation on the words, and its events
    /// are told. It answers whether there was something; where there was not it does nothing.
    pub fn clear_unit(&mut self, seat: u32, told: &mut Told) -> bool
        requires seat { seat < self.old.layout.config.seats }
        requires free { busy_in (seat_at self.old seat).phase ≡ false }
        requires empty { told.old ≡ [] }
        ensures more { result ≡ lets_go (seat_at self.old seat) }
        ensures table { self.new ≡ after_clear result self.old seat }
        ensures told { told.new ≡ told_let result (seat_at self.old seat) self.old.words }
    {
        self.seats[seat as usize].clear(&mut self.cells, told)
    }

    /// Performs an operation on a place word for a seat, which may be that of a call by which it leaves or
    /// takes over what another has left.
    pub fn place_unit(&mut self, seat: u32, op: Op) -> u64
        requires there { word_in op < length self.old.words }
        requires place { is_place self.old.layout (word_in op) ≡ true }
        ensures result { result ≡ answered self.old.words op }
        ensures table { self.new ≡ after_place self.old op }
    {
        self.cells.perform(seat, op)
    }

    /// How many rows are in the seat's list.
    pub fn list_len(&self, seat: u32) -> usize
        requires { seat < self.now.layout.config.seats }
        ensures { result ≡ length (seat_at self.now seat).desk.list }
    {
        self.seats[seat as usize].list_len()
    }

    /// The list of one seat goes to the end of another's, where neither makes a call; the notes of the
    /// latter's last call are cleared. It takes no memory, and answers how many rows went.
    pub fn append_list(&mut self, from: u32, to: u32) -> u32
        requires from { from < self.old.layout.config.seats }
        requires to { to < self.old.layout.config.seats }
        requires apart { (from == to) ≡ false }
        requires given { busy_in (seat_at self.old from).phase ≡ false }
        requires taken { busy_in (seat_at self.old to).phase ≡ false }
        ensures count { result ≡ length (seat_at self.old from).desk.list }
        ensures table { self.new ≡ after_join self.old from to }
    {
        move_list(self.layout, &mut self.seats, from as usize, to as usize) as u32
    }
}
