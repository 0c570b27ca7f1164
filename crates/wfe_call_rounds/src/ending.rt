// How a round of a call ends, for the machines of calls and for the calls of threads.
ghost use Rattle.std.specs.Prelude.{◌≡◌};
ghost use Rattle.wfe_core.specs.Change.{no_room as model_no_room};
ghost use Rattle.wfe_core.specs.Rounds.{with_clock as model_with_clock};
ghost use Rattle.wfe_call_rounds.specs.Endings.{next_of};
ghost use Rattle.wfe_call_rounds.specs.Rounds.{is_again};

use wfe_core::{Answer, ClockMove};

/// What comes once a round's protection is cleared: another round, at once or after a scan; the answer;
/// or the retirement of the row that was cut, and then this answer, with the clock's outcome.
#[derive(Clone, Copy)]
pub enum RoundEnd {
    Again,
    MakeRoom,
    Answers(Answer),
    Retires { slot: u32, answer: Answer },
}

impl RoundEnd {
    /// Another round comes at once.
    #[inline(always)]
    pub fn is_again(&self) -> bool
        ensures { result ≡ is_again (next_of self.now) }
    {
        matches!(self, RoundEnd::Again)
    }
}

/// How a round ends in which no row was free: the second walk of a call answers.
#[inline(always)]
pub fn no_room(walked: bool) -> RoundEnd
    ensures { next_of result ≡ model_no_room walked }
{
    if walked {
        RoundEnd::Answers(Answer::Full)
    } else {
        RoundEnd::MakeRoom
    }
}

/// The answer of a call after whose retirement the clock was moved so, in eras.
#[inline(always)]
pub fn with_clock(answer: Answer, clock: ClockMove) -> Answer
    ensures { result ≡ model_with_clock answer clock }
{
    match answer {
        Answer::Done { version, .. } => Answer::Done { version, clock },
        Answer::Taken { number, value, .. } => Answer::Taken {
            number,
            value,
            clock,
        },
        _ => answer,
    }
}
