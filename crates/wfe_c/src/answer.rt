// What a call tells C: a code, and what goes with it.
ghost use Rattle.std.specs.Prelude.{◌≡◌};
ghost use Rattle.wfe_c.specs.Told.{answer_at, clock_era, clock_kind, nothing_taken, says, says_at, taken_told, told_of};
ghost use Rattle.wfe_table.specs.Calls.{enqueue_answer, put_answer};
ghost use Rattle.wfe_table.specs.history.defs.declared.call.Answer.TheVariants as answers;

use crate::codes::*;
use wfe_table::{Answer, Call, ClockMove, EnqueueRefusal, PutRefusal, Taken};

// Each field that the code gives no meaning is 0.
#[repr(C)]
#[derive(Clone, Copy)]
pub struct CAnswer {
    pub code: u32,
    pub clock: u32,
    pub era: u32,
    pub slot: u32,
    pub number: u64,
    pub value: u64,
}

// A code alone.
#[inline(always)]
pub(crate) fn says(code: u32) -> CAnswer
    ensures { result ≡ says code }
{
    CAnswer {
        code,
        clock: 0,
        era: 0,
        slot: 0,
        number: 0,
        value: 0,
    }
}

#[inline(always)]
pub(crate) fn says_at(code: u32, number: u64) -> CAnswer
    ensures { result ≡ says_at code number }
{
    CAnswer {
        number,
        ..says(code)
    }
}

#[inline(always)]
pub(crate) fn clock_kind(clock: ClockMove) -> u32
    ensures { result ≡ clock_kind clock }
{
    match clock {
        ClockMove::Still => 0,
        ClockMove::Moved { .. } => 1,
        ClockMove::Other { .. } => 2,
        ClockMove::EraSpent { .. } => 3,
    }
}

#[inline(always)]
pub(crate) fn clock_era(clock: ClockMove) -> u32
    ensures { result ≡ clock_era clock }
{
    match clock {
        ClockMove::Still => 0,
        ClockMove::Moved { era } | ClockMove::EraSpent { era } => era,
        ClockMove::Other { seen } => seen,
    }
}

// A code with a word: the value of a get, the number of an enqueue. The word is 0 where the code gives it no meaning. Both go to C in
// registers.
#[repr(C)]
#[derive(Clone, Copy)]
pub struct CCoded {
    pub code: u32,
    pub word: u64,
}

// Of a key without a value. (It is apart, as is all that the shortest calls seldom answer, so that the usual answer is told without a
// choice of its code.)
#[cold]
#[inline(never)]
pub(crate) fn absent(version: u64, number: &mut u64) -> CCoded
    ensures told { result ≡ record { code = 9; word = 0 } }
    ensures number { number.new ≡ version }
{
    *number = version;
    CCoded {
        code: ABSENT,
        word: 0,
    }
}

// Why an enqueue was refused.
#[cold]
#[inline(never)]
pub(crate) fn enqueue_answer(refusal: EnqueueRefusal) -> CCoded
    ensures { answer_at result ≡ told_of (enqueue_answer refusal) }
{
    match refusal {
        EnqueueRefusal::Full => CCoded {
            code: FULL,
            word: 0,
        },
        EnqueueRefusal::Spent { number } => CCoded {
            code: SPENT,
            word: number,
        },
    }
}

// What a dequeue tells beside its code: the value and its number, and what came of the clock.
#[repr(C)]
#[derive(Clone, Copy)]
pub struct CTaken {
    pub number: u64,
    pub value: u64,
    pub clock: u32,
    pub era: u32,
}

#[inline(always)]
pub(crate) fn nothing_taken() -> CTaken
    ensures { result ≡ nothing_taken }
{
    CTaken {
        number: 0,
        value: 0,
        clock: 0,
        era: 0,
    }
}

#[inline(always)]
pub(crate) fn tell_taken(taken: Taken, told: &mut CTaken)
    ensures { told.new ≡ taken_told taken }
{
    told.number = taken.number;
    told.value = taken.value;
    match taken.clock {
        ClockMove::Still => {
            told.clock = 0;
            told.era = 0;
        }
        _ => tell_clock(taken.clock, told),
    }
}

#[cold]
#[inline(never)]
fn tell_clock(clock: ClockMove, told: &mut CTaken)
    ensures { told.new ≡ record told.old { clock = clock_kind clock; era = clock_era clock } }
{
    told.clock = clock_kind(clock);
    told.era = clock_era(clock);
}

// Of an empty queue.
#[cold]
#[inline(never)]
pub(crate) fn empty(told: &mut CTaken) -> u32
    ensures code { result ≡ 10 }
    ensures told { told.new ≡ nothing_taken }
{
    *told = nothing_taken();
    EMPTY
}

// An answer as C is told it.
#[inline(always)]
fn told(answer: Answer) -> CAnswer
    ensures { result ≡ told_of answer }
{
    match answer {
        Answer::Got {
            version,
            value: Some(value),
        } => CAnswer {
            value,
            ..says_at(OK, version)
        },
        Answer::Got {
            version,
            value: None,
        } => says_at(ABSENT, version),
        Answer::Done { version, clock } => done_at(version, clock),
        Answer::Absent { version } => says_at(ABSENT, version),
        Answer::Full => says(FULL),
        Answer::BucketFull { version } => says_at(BUCKET_FULL, version),
        Answer::Spent { number } => says_at(SPENT, number),
        Answer::Queued { number } => says_at(OK, number),
        Answer::Taken {
            number,
            value,
            clock,
        } => CAnswer {
            clock: clock_kind(clock),
            era: clock_era(clock),
            value,
            ..says_at(OK, number)
        },
        Answer::Empty => says(EMPTY),
        Answer::Holding { slot } | Answer::Copied { slot } => CAnswer { slot, ..says(OK) },
        Answer::Nothing => says(NOTHING),
        Answer::Released | Answer::Dropped => says(OK),
        Answer::Clock { outcome } => CAnswer {
            clock: clock_kind(outcome),
            era: clock_era(outcome),
            ..says(OK)
        },
        Answer::Scanned { kept, back } => CAnswer {
            value: back as u64,
            ..says_at(OK, kept as u64)
        },
        Answer::Looked {
            slot,
            version,
            value: Some(value),
        } => CAnswer {
            slot,
            value,
            ..says_at(OK, version)
        },
        Answer::Looked {
            slot,
            version,
            value: None,
        } => CAnswer {
            slot,
            ..says_at(ABSENT, version)
        },
        Answer::Stale { version } => says_at(STALE, version),
        Answer::Left { count } | Answer::Adopted { count } => says_at(OK, count as u64),
        Answer::NotLeft => says(NOT_LEFT),
        Answer::AdoptedBefore => says(ADOPTED_BEFORE),
    }
}

#[cold]
#[inline(never)]
fn told_apart(answer: Answer) -> CAnswer
    ensures { result ≡ told_of answer }
{
    told(answer)
}

// What a call seldom answers is told by code that its export does not hold.
#[inline(always)]
fn apart(answer: Answer) -> CAnswer
    ensures { result ≡ told_of answer }
{
    let told = told_apart(answer);
    CAnswer {
        code: told.code,
        clock: told.clock,
        era: told.era,
        slot: told.slot,
        number: told.number,
        value: told.value,
    }
}

// A change that was done.
#[inline(always)]
pub(crate) fn done_at(version: u64, clock: ClockMove) -> CAnswer
    ensures { result ≡ told_of (answers.Done version clock) }
{
    CAnswer {
        clock: clock_kind(clock),
        era: clock_era(clock),
        ..says_at(OK, version)
    }
}

// Why a put was refused.
#[inline(always)]
pub(crate) fn put_answer(refusal: PutRefusal) -> CAnswer
    ensures { result ≡ told_of (put_answer refusal) }
{
    match refusal {
        PutRefusal::Full => says(FULL),
        PutRefusal::BucketFull { version } => says_at(BUCKET_FULL, version),
        PutRefusal::Spent { number } => says_at(SPENT, number),
    }
}

// The answer of a change of a bucket.
#[inline(always)]
fn told_of_change(answer: Answer) -> CAnswer
    ensures { result ≡ told_of answer }
{
    match answer {
        Answer::Done { version, clock } => done_at(version, clock),
        _ => apart(answer),
    }
}

// The answer of a call, which is named, so that only what it answers mostly is told in its export.
#[inline(always)]
pub(crate) fn told_by(call: Call, answer: Answer) -> CAnswer
    ensures { result ≡ told_of answer }
{
    match call {
        Call::PutIf { .. } | Call::Remove { .. } => told_of_change(answer),
        Call::Hold { .. } => match answer {
            Answer::Holding { slot } => CAnswer { slot, ..says(OK) },
            _ => apart(answer),
        },
        Call::Release => match answer {
            Answer::Released => says(OK),
            _ => apart(answer),
        },
        _ => apart(answer),
    }
}
