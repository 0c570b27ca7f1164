// Calls of the shared table by their values, each where it may begin.
ghost use Rattle.std.specs.Prelude.{◌≡◌, true};
ghost use Rattle.wfe_core.specs.Locals.{may_begin, stays};
ghost use Rattle.wfe_table.specs.Public.{IsOf};

use wfe_table::{AdoptEnd, Answer, Call, Config, Seat, Shared, adopt};

/// Makes a whole call of the seat, by which it does not leave, where it may begin.
pub fn make(shared: &Shared, seat: &mut Seat, call: Call) -> Option<Answer>
    requires { IsOf seat.old shared.now }
    ensures { IsOf seat.new shared.now }
{
    if let Call::Adopt { place } = call {
        return take_over(shared, seat, place);
    }
    if !begins(shared.layout().config(), call) {
        return None;
    }
    Some(shared.call(seat, call))
}

// Whether it is a call that may begin, of a seat that stays and takes over no list.
fn begins(config: Config, call: Call) -> bool
    ensures may { result ≡ true → may_begin config call ≡ true }
    ensures stays { result ≡ true → stays call ≡ true }
{
    match call {
        Call::Copy { from, index } => 2 <= from && from < index && index < config.indexes,
        Call::DropIndex { index } => 2 <= index && index < config.indexes,
        Call::Look { index, .. } => 2 <= index && index < config.indexes,
        Call::Leave | Call::Adopt { .. } => false,
        _ => true,
    }
}

fn take_over(shared: &Shared, seat: &mut Seat, place: u32) -> Option<Answer>
    requires { IsOf seat.old shared.now }
    ensures { IsOf seat.new shared.now }
{
    if place >= shared.layout().config().seats {
        return None;
    }
    let answer = match adopt(shared, seat, place) {
        AdoptEnd::Adopted { count } => Answer::Adopted { count },
        AdoptEnd::NotLeft => Answer::NotLeft,
        AdoptEnd::AdoptedBefore => Answer::AdoptedBefore,
    };
    Some(answer)
}
