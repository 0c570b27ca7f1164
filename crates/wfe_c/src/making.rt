// Calls on a seat that is with its table.
ghost use Rattle.std.specs.Prelude.{◌≡◌, IfSome, MatchOption, MatchResult, true};
ghost use Rattle.wfe_c.specs.Closing.{HasLooked, IsEnded, others_of};
ghost use Rattle.wfe_c.specs.Joined.{IsLeft, IsRefused, Makes, table_of};
ghost use Rattle.wfe_core.specs.Locals.{may_begin, stays};
ghost use Rattle.wfe_table.specs.Calls.{enqueue_answer, put_answer};
ghost use Rattle.wfe_table.specs.history.defs.declared.call.Answer.TheVariants as answers;
ghost use Rattle.wfe_table.specs.history.defs.declared.call.Call.TheVariants as calls;

use crate::joined::Joined;
use std::alloc::Global;
use std::sync::Arc;
use wfe_table::{
    AdoptEnd, Answer, Call, Closed, Config, Done, Empty, EnqueueRefusal, Got, PutRefusal, Queued,
    Taken, adopt, leave,
};

impl Joined {
    pub(crate) fn config(&self) -> Config
        ensures { result ≡ (table_of self.now).layout.config }
    {
        self.common.shared.layout().config()
    }

    // Whether the table has the indexes and the place that the call names, and a copy goes upwards.
    #[inline(always)]
    fn may(&self, call: Call) -> bool
        ensures { result ≡ may_begin (table_of self.now).layout.config call }
    {
        let config = self.config();
        match call {
            Call::Copy { from, index } => { 2 <= from && (from < index && index < config.indexes) }
            Call::DropIndex { index } | Call::Look { index, .. } => {
                2 <= index && index < config.indexes
            }
            Call::Adopt { place } => place < config.seats,
            _ => true,
        }
    }

    // Makes a call of a seat that stays, if it may begin.
    #[inline(always)]
    pub(crate) fn make(&mut self, call: Call) -> Option<Answer>
        requires stays { stays call ≡ true }
        ensures { MatchOption result (IsRefused self.old self.new call) (Makes self.old self.new call) }
    {
        if !self.may(call) {
            return None;
        }
        Some(self.common.shared.call(&mut self.seat, call))
    }

    // A get, which has code of its own.
    #[inline(always)]
    pub(crate) fn get(&mut self, key: u64) -> Got
        ensures { Makes self.old self.new (calls.Get key) (answers.Got result.version result.value) }
    {
        self.common.shared.get(&mut self.seat, key)
    }

    // A put, an enqueue and a dequeue have code of their own too.
    #[inline(always)]
    pub(crate) fn put(&mut self, key: u64, value: u64) -> Result<Done, PutRefusal>
        ensures { MatchResult result
            (λ done. Makes self.old self.new (calls.Put key value) (answers.Done done.version done.clock))
            (λ refusal. Makes self.old self.new (calls.Put key value) (put_answer refusal)) }
    {
        self.common.shared.put(&mut self.seat, key, value)
    }

    #[inline(always)]
    pub(crate) fn enqueue(&mut self, value: u64) -> Result<Queued, EnqueueRefusal>
        ensures { MatchResult result
            (λ queued. Makes self.old self.new (calls.Enqueue value) (answers.Queued queued.number))
            (λ refusal. Makes self.old self.new (calls.Enqueue value) (enqueue_answer refusal)) }
    {
        self.common.shared.enqueue(&mut self.seat, value)
    }

    #[inline(always)]
    pub(crate) fn dequeue(&mut self) -> Result<Taken, Empty>
        ensures { MatchResult result
            (λ taken. Makes self.old self.new calls.Dequeue (answers.Taken taken.number taken.value taken.clock))
            (λ _. Makes self.old self.new calls.Dequeue answers.Empty) }
    {
        self.common.shared.dequeue(&mut self.seat)
    }

    // Takes over the list that the seat of this number has left, if the table has that seat.
    pub(crate) fn adopt(&mut self, place: u32) -> Option<Answer>
        ensures { MatchOption result (IsRefused self.old self.new (calls.Adopt place)) (Makes self.old self.new (calls.Adopt place)) }
    {
        if !self.may(Call::Adopt { place }) {
            return None;
        }
        Some(match adopt(&self.common.shared, &mut self.seat, place) {
            AdoptEnd::Adopted { count } => Answer::Adopted { count },
            AdoptEnd::NotLeft => Answer::NotLeft,
            AdoptEnd::AdoptedBefore => Answer::AdoptedBefore,
        })
    }

    // Leaves, with so many rows on its list, and lets go of the table, which keeps what a close wants of it. Then it is counted as gone.
    pub(crate) fn leave(self) -> usize
        ensures { IsLeft self result }
    {
        let Joined {
            seat,
            common,
            member,
        } = self;
        let (count, number) = (seat.list().len(), seat.number());
        let gone = leave(&common.shared, seat);
        common.keep(number, gone);
        drop(common);
        member.count();
        count
    }

    // How many other seats the table has.
    pub(crate) fn others(&self) -> u64
        ensures { result ≡ others_of self.now }
    {
        u64::from(self.config().seats.saturating_sub(1))
    }

    // How many of them have let go of it.
    pub(crate) fn look(&mut self) -> u64
        ensures { HasLooked self.old self.new result }
    {
        self.member.look()
    }

    // Ends the table and says what it holds, if memory for that is there. All other seats have let go of the table, so the `Arc` has no
    // other owner.
    pub(crate) fn close(self, alloc: Global) -> Option<Box<Closed>>
        ensures { IfSome result (λ boxed. IsEnded (table_of self) self.seat boxed.value) }
    {
        let Joined {
            seat,
            common,
            member: _,
        } = self;
        let Ok(common) = Arc::try_unwrap(common) else {
            return None;
        };
        let closed = common.end(alloc, seat)?;
        match Box::new(alloc, closed) {
            Ok(boxed) => Some(boxed),
            Err(_) => None,
        }
    }
}
