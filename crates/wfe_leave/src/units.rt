// The units of a seat, by its part: of a call that leaves or adopts, and of each other one by the rig.
ghost use Rattle.std.specs.Prelude.{◌≡◌, ◌<◌, ◌^◌, ◌++◌, ◌∷◌, [], Some, false, length, true};
ghost use Rattle.wfe_core.specs.defs.declared.event.Event.TheVariants.{End};
ghost use Rattle.wfe_leave.specs.declared.part.Part.TheVariants.{Over};
ghost use Rattle.wfe_core.specs.words.Place.{is_valid, words};
ghost use Rattle.wfe_core.specs.Locals.{busy_in, may_begin};
ghost use Rattle.wfe_drive_cells.specs.Unit.{seat_at};
ghost use Rattle.wfe_leave.specs.Parts.{CallUnit, MadeUnit, MarkUnit, MayMake, MayTake, PartUnit, TakeUnit, first_part, list_count, table_begun};

use crate::part::Part;
use wfe_core::{Answer, Call, Event, Layout, Op, Told};
use wfe_drive::Rig;
use wfe_drive_cells::Cells;

/// What a unit leaves of the seat's part, and the answer where the call ended.
#[derive(Drop)]
pub struct Made {
    pub part: Part,
    pub answer: Option<Answer>,
}

// A call that leaves or adopts is over.
fn ended(told: &mut Told, steps: u64, left: bool, answer: Answer) -> Made
    requires { length told.old < 8 }
    ensures told { told.new ≡ told.old ++ End steps answer ∷ [] }
    ensures part { result.part ≡ Over steps left }
    ensures answer { result.answer ≡ Some answer }
{
    told.push(Event::End { steps, answer });
    Made {
        part: Part::Over { steps, left },
        answer: Some(answer),
    }
}

/// A call of a seat begins: where it is one of the rig's, there.
pub fn start_call<C: Cells>(rig: &mut Rig<C>, seat: u32, call: Call) -> Part
    requires seat { seat < rig.old.layout.config.seats }
    requires free { busy_in (seat_at rig.old seat).phase ≡ false }
    requires may { may_begin rig.old.layout.config call ≡ true }
    ensures part { result ≡ first_part call }
    ensures table { rig.new ≡ table_begun rig.old seat call }
{
    let part = Part::of(&call);
    if part.stays() {
        rig.start(seat, call);
    }
    part
}

// What a unit leaves of the seat's part is kept.
fn keep(part: &mut Part, made: Made) -> Option<Answer>
    ensures part { part.new ≡ made.part }
    ensures answer { result ≡ made.answer }
{
    *part = made.part;
    made.answer
}

/// One unit of a seat's call. Nearly all are the rig's: those of the others stand apart, so that it makes no
/// room for what they leave.
#[inline(always)]
pub fn make_unit<C: Cells>(
    rig: &mut Rig<C>,
    layout: &Layout,
    seat: u32,
    part: &mut Part,
    told: &mut Told,
) -> Option<Answer>
    requires valid { is_valid layout.now ≡ true }
    requires layout { layout.now ≡ rig.old.layout }
    requires words { length rig.old.words ≡ words rig.old.layout }
    requires seat { seat < rig.old.layout.config.seats }
    requires empty { told.old ≡ [] }
    requires may { MayMake rig.old seat part.old }
    ensures { MadeUnit rig.old rig.new seat part.old part.new told.new result }
{
    match *part {
        Part::Stays => rig.unit(seat, told),
        _ => other_unit(rig, *layout, seat, part, told),
    }
}

// One unit of a call, by the seat's part.
#[inline(never)]
fn other_unit<C: Cells>(
    rig: &mut Rig<C>,
    layout: Layout,
    seat: u32,
    part: &mut Part,
    told: &mut Told,
) -> Option<Answer>
    requires valid { is_valid layout ≡ true }
    requires layout { layout ≡ rig.old.layout }
    requires words { length rig.old.words ≡ words rig.old.layout }
    requires seat { seat < rig.old.layout.config.seats }
    requires empty { told.old ≡ [] }
    requires may { MayMake rig.old seat part.old }
    ensures { MadeUnit rig.old rig.new seat part.old part.new told.new result }
{
    match *part {
        Part::Stays | Part::Over { .. } => keep(part, call_unit(rig, seat, told)),
        Part::Parts { steps } => keep(part, part_unit(rig, layout, seat, steps, told)),
        Part::Takes { place } => keep(part, take_unit(rig, layout, seat, place, told)),
        Part::Marks { place, count } => keep(
            part,
            mark_unit(rig, layout, seat, place, count, told),
        ),
    }
}

// A call that is the rig's goes on.
fn call_unit<C: Cells>(rig: &mut Rig<C>, seat: u32, told: &mut Told) -> Made
    requires seat { seat < rig.old.layout.config.seats }
    requires empty { told.old ≡ [] }
    requires busy { busy_in (seat_at rig.old seat).phase ≡ true }
    ensures { CallUnit rig.old rig.new seat result.part told.new result.answer }
{
    let answer = rig.unit(seat, told);
    Made {
        part: Part::Stays,
        answer,
    }
}

// A seat that leaves lets go of something that stands, or leaves its list once nothing does.
#[inline(never)]
fn part_unit<C: Cells>(
    rig: &mut Rig<C>,
    layout: Layout,
    seat: u32,
    steps: u64,
    told: &mut Told,
) -> Made
    requires valid { is_valid layout ≡ true }
    requires layout { layout ≡ rig.old.layout }
    requires words { length rig.old.words ≡ words rig.old.layout }
    requires seat { seat < rig.old.layout.config.seats }
    requires empty { told.old ≡ [] }
    requires free { busy_in (seat_at rig.old seat).phase ≡ false }
    requires steps { steps < 2 ^ 62 }
    requires short { list_count rig.old seat < 2 ^ 32 }
    ensures { PartUnit rig.old rig.new seat steps result.part told.new result.answer }
{
    if rig.clear_unit(seat, told) {
        return Made {
            part: Part::Parts { steps: steps + 1 },
            answer: None,
        };
    }
    let word = layout.place(seat);
    rig.place_unit(seat, Op::Store { word, value: 1 });
    let count = rig.list_len(seat) as u32;
    told.push(Event::Left { count });
    ended(told, steps + 1, true, Answer::Left { count })
}

// A seat takes over the list that another has left, if one is left there.
#[inline(never)]
fn take_unit<C: Cells>(
    rig: &mut Rig<C>,
    layout: Layout,
    seat: u32,
    place: u32,
    told: &mut Told,
) -> Made
    requires valid { is_valid layout ≡ true }
    requires layout { layout ≡ rig.old.layout }
    requires words { length rig.old.words ≡ words rig.old.layout }
    requires seat { seat < rig.old.layout.config.seats }
    requires empty { told.old ≡ [] }
    requires free { busy_in (seat_at rig.old seat).phase ≡ false }
    requires take { MayTake rig.old seat place }
    ensures { TakeUnit rig.old rig.new seat place result.part told.new result.answer }
{
    let word = layout.place(place);
    let taking = Op::Cas {
        word,
        old: 1,
        new: 2,
    };
    let found = rig.place_unit(seat, taking);
    if found == 1 {
        let count = rig.append_list(place, seat);
        told.push(Event::Adopted { place, count });
        return Made {
            part: Part::Marks { place, count },
            answer: None,
        };
    }
    if found == 0 {
        return ended(told, 1, false, Answer::NotLeft);
    }
    ended(told, 1, false, Answer::AdoptedBefore)
}

// It marks the list as taken over.
#[inline(never)]
fn mark_unit<C: Cells>(
    rig: &mut Rig<C>,
    layout: Layout,
    seat: u32,
    place: u32,
    count: u32,
    told: &mut Told,
) -> Made
    requires valid { is_valid layout ≡ true }
    requires layout { layout ≡ rig.old.layout }
    requires words { length rig.old.words ≡ words rig.old.layout }
    requires seat { seat < rig.old.layout.config.seats }
    requires empty { told.old ≡ [] }
    requires free { busy_in (seat_at rig.old seat).phase ≡ false }
    requires place { place < rig.old.layout.config.seats }
    ensures { MarkUnit rig.old rig.new place count result.part told.new result.answer }
{
    let word = layout.place(place);
    rig.place_unit(seat, Op::Store { word, value: 3 });
    ended(told, 2, false, Answer::Adopted { count })
}
