// The calls on a seat, each with what its caller is given. A call takes no memory and never waits.
ghost use Rattle.std.specs.Prelude.{◌≡◌, ◌≤◌, ◌<◌, ◌+◌, ◌*◌, if◌then◌else◌, MatchOption, MatchResult, option_map};
ghost use Rattle.wfe_core.specs.Guards.{guards};
ghost use Rattle.wfe_core.specs.defs.declared.call.Answer.TheVariants as answers;
ghost use Rattle.wfe_core.specs.defs.declared.call.Call.TheVariants as calls;
ghost use Rattle.wfe_core.specs.words.Schemes.{has_one_interval, is_wfe};
ghost use Rattle.wfe_core.specs.words.declared.config.SchemeKind.TheVariants as schemes;
ghost use Rattle.wfe_table.specs.Calls.{IsMade, copy_answer, enqueue_answer, hold_answer, look_answer, put_answer, put_if_answer, remove_answer};
ghost use Rattle.wfe_table.specs.Public.{IsOf, stands_at, steps_of};

use crate::seat::Seat;
use crate::shared::Shared;
use wfe_core::{Answer, Call, ClockMove};
use wfe_drive_call::{DequeueCall, EnqueueCall, PutCall};
use wfe_table_end::{
    Done, Empty, EnqueueRefusal, Got, Looked, PutIfRefusal, PutRefusal, Queued, RemoveRefusal,
    Scanned, Taken,
};

impl Shared {
    /// The key's value, at a version that its bucket had during the call. Whatever the other threads do, it
    /// takes no more steps than `bound` says.
    pub fn get(&self, seat: &mut Seat, key: u64) -> Got
        requires of { IsOf seat.old self.now }
        ensures of { IsOf seat.new self.now }
        ensures made { IsMade self.now.layout seat.old seat.new (calls.Get key) (answers.Got result.version result.value) }
        ensures bound { self.now.layout.config.scheme ≡ schemes.Wfe → steps_of seat.new ≤ 3 * self.now.layout.config.tries + 18 + self.now.layout.config.pairs }
    {
        seat.get(&self.ledger.shared, key)
    }

    /// Gives the key this value, by a row that takes the place of its bucket's: the bucket's next version.
    /// Where it is refused it has changed nothing. How many steps it takes depends on what others do
    /// meanwhile: `calls_keep_pace` says how many at most.
    pub fn put(&self, seat: &mut Seat, key: u64, value: u64) -> Result<Done, PutRefusal>
        requires of { IsOf seat.old self.now }
        ensures of { IsOf seat.new self.now }
        ensures made { MatchResult result
            (λ done. IsMade self.now.layout seat.old seat.new (calls.Put key value) (answers.Done done.version done.clock))
            (λ refusal. IsMade self.now.layout seat.old seat.new (calls.Put key value) (put_answer refusal)) }
    {
        match seat.make_alone(&self.ledger.shared, PutCall { key, value }) {
            Answer::Done { version, clock } => Ok(Done { version, clock }),
            Answer::Full => Err(PutRefusal::Full),
            Answer::BucketFull { version } => Err(PutRefusal::BucketFull { version }),
            Answer::Spent { number } => Err(PutRefusal::Spent { number }),
            _ => unreachable!(),
        }
    }

    /// Gives the key this value as a put does, where its bucket is at this version; done, it made the next
    /// one. Where it is refused it has changed nothing.
    pub fn put_if(
        &self,
        seat: &mut Seat,
        key: u64,
        value: u64,
        version: u64,
    ) -> Result<Done, PutIfRefusal>
        requires of { IsOf seat.old self.now }
        ensures of { IsOf seat.new self.now }
        ensures made { MatchResult result
            (λ done. IsMade self.now.layout seat.old seat.new (calls.PutIf key value version) (answers.Done done.version done.clock))
            (λ refusal. IsMade self.now.layout seat.old seat.new (calls.PutIf key value version) (put_if_answer refusal)) }
    {
        let call = Call::PutIf {
            key,
            value,
            version,
        };
        match self.call(seat, call) {
            Answer::Done { version, clock } => Ok(Done { version, clock }),
            Answer::Stale { version } => Err(PutIfRefusal::Stale { version }),
            Answer::Spent { number } => Err(PutIfRefusal::Spent { number }),
            Answer::BucketFull { version } => Err(PutIfRefusal::BucketFull { version }),
            Answer::Full => Err(PutIfRefusal::Full),
            _ => unreachable!(),
        }
    }

    /// Takes the key's value away, as a put that leaves none. Where it is refused it has changed nothing.
    pub fn remove(&self, seat: &mut Seat, key: u64) -> Result<Done, RemoveRefusal>
        requires of { IsOf seat.old self.now }
        ensures of { IsOf seat.new self.now }
        ensures made { MatchResult result
            (λ done. IsMade self.now.layout seat.old seat.new (calls.Remove key) (answers.Done done.version done.clock))
            (λ refusal. IsMade self.now.layout seat.old seat.new (calls.Remove key) (remove_answer refusal)) }
    {
        match self.call(seat, Call::Remove { key }) {
            Answer::Done { version, clock } => Ok(Done { version, clock }),
            Answer::Absent { version } => Err(RemoveRefusal::Absent { version }),
            Answer::Spent { number } => Err(RemoveRefusal::Spent { number }),
            Answer::Full => Err(RemoveRefusal::Full),
            _ => unreachable!(),
        }
    }

    /// Puts a value at the queue's end (Michael and Scott 1996). Where it is refused it has changed nothing.
    /// `calls_keep_pace` says how many steps it takes at most, by what others do meanwhile.
    pub fn enqueue(&self, seat: &mut Seat, value: u64) -> Result<Queued, EnqueueRefusal>
        requires of { IsOf seat.old self.now }
        ensures of { IsOf seat.new self.now }
        ensures made { MatchResult result
            (λ queued. IsMade self.now.layout seat.old seat.new (calls.Enqueue value) (answers.Queued queued.number))
            (λ refusal. IsMade self.now.layout seat.old seat.new (calls.Enqueue value) (enqueue_answer refusal)) }
    {
        match seat.make_alone(&self.ledger.shared, EnqueueCall { value }) {
            Answer::Queued { number } => Ok(Queued { number }),
            Answer::Spent { number } => Err(EnqueueRefusal::Spent { number }),
            Answer::Full => Err(EnqueueRefusal::Full),
            _ => unreachable!(),
        }
    }

    /// Takes the value at the queue's front (Michael and Scott 1996). `calls_keep_pace` says how many steps it
    /// takes at most, by what others do meanwhile.
    pub fn dequeue(&self, seat: &mut Seat) -> Result<Taken, Empty>
        requires of { IsOf seat.old self.now }
        ensures of { IsOf seat.new self.now }
        ensures made { MatchResult result
            (λ taken. IsMade self.now.layout seat.old seat.new calls.Dequeue (answers.Taken taken.number taken.value taken.clock))
            (λ _. IsMade self.now.layout seat.old seat.new calls.Dequeue answers.Empty) }
    {
        match seat.make_alone(&self.ledger.shared, DequeueCall) {
            Answer::Taken {
                number,
                value,
                clock,
            } => Ok(Taken {
                number,
                value,
                clock,
            }),
            Answer::Empty => Err(Empty),
            _ => unreachable!(),
        }
    }

    /// Protects the row of the key's bucket at index 2 until the next hold or release, and gives its slot, or
    /// none where the bucket has no row. What was held before is let go. Whatever the other threads do, it
    /// takes no more steps than `bound` says.
    #[tactic(auto, using(crate::proofs::Bounded::hold_bounded))]
    pub fn hold(&self, seat: &mut Seat, key: u64) -> Option<u32>
        requires of { IsOf seat.old self.now }
        ensures of { IsOf seat.new self.now }
        ensures made { IsMade self.now.layout seat.old seat.new (calls.Hold key) (hold_answer result) }
        ensures bound { self.now.layout.config.scheme ≡ schemes.Wfe → steps_of seat.new ≤ 3 * self.now.layout.config.tries + 16 }
    {
        match self.call(seat, Call::Hold { key }) {
            Answer::Holding { slot } => Some(slot),
            Answer::Nothing => None,
            _ => unreachable!(),
        }
    }

    /// Lets go of what was held, in one step.
    #[tactic(auto, using(crate::proofs::Bounded::release_bounded))]
    pub fn release(&self, seat: &mut Seat)
        requires of { IsOf seat.old self.now }
        ensures of { IsOf seat.new self.now }
        ensures made { IsMade self.now.layout seat.old seat.new calls.Release answers.Released }
        ensures bound { steps_of seat.new ≡ 1 }
    {
        match self.call(seat, Call::Release) {
            Answer::Released => {}
            _ => unreachable!(),
        }
    }

    /// Protects the row that stands at one index, from 2 on, at a higher one too, and gives its slot, or none
    /// where no row stands there. What stood at the higher index is let go. It takes two steps at most.
    #[tactic(auto, using(crate::proofs::Bounded::copied_bounded, crate::proofs::Bounded::uncopied_bounded, crate::proofs::Kept::copied_stood, crate::proofs::Kept::uncopied_stood, crate::proofs::Kept::copy_may))]
    pub fn copy(&self, seat: &mut Seat, from: u32, index: u32) -> Option<u32>
        requires of { IsOf seat.old self.now }
        requires kept { 2 ≤ from }
        requires upwards { from < index }
        requires range { index < self.now.layout.config.indexes }
        ensures of { IsOf seat.new self.now }
        ensures made { IsMade self.now.layout seat.old seat.new (calls.Copy from index) (copy_answer result) }
        ensures stood { result ≡ stands_at seat.old from }
        ensures bound { MatchOption result (steps_of seat.new ≡ 1) (λ _. steps_of seat.new ≡ (if has_one_interval self.now.layout.config.scheme then 1 else 2)) }
    {
        match self.call(seat, Call::Copy { from, index }) {
            Answer::Copied { slot } => Some(slot),
            Answer::Nothing => None,
            _ => unreachable!(),
        }
    }

    /// Lets go of what stands at an index, from 2 on, in one step.
    #[tactic(auto, using(crate::proofs::Bounded::drop_bounded, crate::proofs::Kept::drop_may))]
    pub fn drop_index(&self, seat: &mut Seat, index: u32)
        requires of { IsOf seat.old self.now }
        requires kept { 2 ≤ index }
        requires range { index < self.now.layout.config.indexes }
        ensures of { IsOf seat.new self.now }
        ensures made { IsMade self.now.layout seat.old seat.new (calls.DropIndex index) answers.Dropped }
        ensures bound { steps_of seat.new ≡ 1 }
    {
        match self.call(seat, Call::DropIndex { index }) {
            Answer::Dropped => {}
            _ => unreachable!(),
        }
    }

    /// What the row that stands at an index shows of the key, or none where no row stands there. The row may
    /// have been replaced long ago. Whatever the other threads do, it takes no more steps than `bound` says.
    #[tactic(auto, using(crate::proofs::Bounded::looked_bounded, crate::proofs::Bounded::unlooked_bounded, crate::proofs::Kept::looked_stood, crate::proofs::Kept::unlooked_stood, crate::proofs::Kept::look_may))]
    pub fn look(&self, seat: &mut Seat, index: u32, key: u64) -> Option<Looked>
        requires of { IsOf seat.old self.now }
        requires kept { 2 ≤ index }
        requires range { index < self.now.layout.config.indexes }
        ensures of { IsOf seat.new self.now }
        ensures made { IsMade self.now.layout seat.old seat.new (calls.Look index key) (look_answer result) }
        ensures stood { option_map (λ looked. looked.slot) result ≡ stands_at seat.old index }
        ensures bound { MatchOption result (steps_of seat.new ≡ 1) (λ _. steps_of seat.new ≤ 3 + self.now.layout.config.pairs) }
    {
        match self.call(seat, Call::Look { index, key }) {
            Answer::Looked {
                slot,
                version,
                value,
            } => Some(Looked {
                slot,
                version,
                value,
            }),
            Answer::Nothing => None,
            _ => unreachable!(),
        }
    }

    /// Tries once to move the clock. Whatever the other threads do, it takes no more steps than `bound` says.
    #[tactic(auto, using(crate::proofs::Bounded::advance_bounded))]
    pub fn advance(&self, seat: &mut Seat) -> ClockMove
        requires of { IsOf seat.old self.now }
        ensures of { IsOf seat.new self.now }
        ensures made { IsMade self.now.layout seat.old seat.new calls.Advance (answers.Clock result) }
        ensures bound { steps_of seat.new ≤ (if is_wfe self.now.layout.config.scheme then 7 * self.now.layout.config.seats + 3 else 2) }
    {
        match self.call(seat, Call::Advance) {
            Answer::Clock { outcome } => outcome,
            _ => unreachable!(),
        }
    }

    /// Reads all guards, and gives back the seat's retired rows that none of them covers: a step for each
    /// guard, and one for each row.
    #[tactic(auto, using(crate::proofs::Bounded::scan_bounded))]
    pub fn scan(&self, seat: &mut Seat) -> Scanned
        requires of { IsOf seat.old self.now }
        ensures of { IsOf seat.new self.now }
        ensures made { IsMade self.now.layout seat.old seat.new calls.Scan (answers.Scanned result.kept result.back) }
        ensures bound { steps_of seat.new ≡ guards self.now.layout.config + result.back }
    {
        match self.call(seat, Call::Scan) {
            Answer::Scanned { kept, back } => Scanned { kept, back },
            _ => unreachable!(),
        }
    }
}
