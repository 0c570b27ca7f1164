// The call that gets a key's value.
ghost use Rattle.std.specs.Prelude.{◌≡◌, ◌≤◌, [], length, ℕ};
ghost use Rattle.wfe_core.specs.defs.declared.call.Answer.TheVariants.{Got as GotAnswer};
ghost use Rattle.wfe_core.specs.CallReady.{IsCallPlausible, IsCallReady, get_plausible, get_ready};
ghost use Rattle.wfe_core.specs.Calls.{Answering, Gets, Opens, Runs};
ghost use Rattle.wfe_core.specs.DeskHeld.{desk_of};
ghost use Rattle.wfe_core.specs.Desks.{Desk as ModelDesk};
ghost use Rattle.wfe_core.specs.Get.{get_turn, got as model_got};
ghost use Rattle.wfe_core.specs.Phases.Ending.{Protected};
ghost use Rattle.wfe_core.specs.Ready.{RootFits, protect_within};
ghost use Rattle.wfe_core.specs.Rounds.{root_of, round};
ghost use Rattle.wfe_core.specs.Steps.{opened, phase_turn};
ghost use Rattle.wfe_core.specs.Valid.{IsValid};
ghost use Rattle.wfe_core.specs.declared.post.Post.{Post};
ghost use Rattle.wfe_bucketmap_read.specs.Finds.{find_of};
ghost use Rattle.wfe_bucketmap_read.specs.Gets.{get_phase};
ghost use Rattle.wfe_call_rounds.specs.Steps.{SameSeat, Steps};

use crate::find::{Find, Found};
use crate::get_at::GetAt;
use wfe_call_rounds::{Opening, Rounds, Scheme, close, open, take_close, take_open};
use wfe_core::{Answer, CallMachine, Desk, Event, Op, Post, ProtectEnd, Root, Told};

/// Gets the value of a key: it protects the row of the key's bucket, and reads the version, the count
/// and the keys up to its own.
#[derive(Drop)]
pub struct Get<S: Scheme> {
    key: u64,
    at: GetAt<S::Begin, S::Protect, S::Clear, S::Finish>,
}

impl<S: Scheme> Get<S> {
    /// A get of this key that has made no step.
    #[inline(always)]
    pub fn new(key: u64) -> Get<S>
        ensures { (post : Post) → ⟦<Get<S> as CallMachine>⟧.phase result post ≡ round (Gets key) post }
    {
        Get {
            key,
            at: GetAt::Starts,
        }
    }

    /// A get of this key in whose round the root is being protected.
    #[inline(always)]
    pub fn protecting(key: u64, protect: S::Protect) -> Get<S>
        ensures { (post : Post) → ⟦<Get<S> as CallMachine>⟧.phase result post ≡ Runs (Opens (Gets key)) (S.Protect.phase protect) }
    {
        Get {
            key,
            at: GetAt::Opens(Opening::Protects(protect)),
        }
    }

    // It stands there from now on.
    #[inline(always)]
    fn stand(&mut self, at: GetAt<S::Begin, S::Protect, S::Clear, S::Finish>)
        ensures key { self.new.key ≡ self.old.key }
        ensures at { self.new.at ≡ at }
    {
        self.at = at;
    }

    // The first step of the round.
    #[inline(always)]
    fn start(&mut self, post: &mut Post, desk: &Desk, found: u64, told: &mut Told) -> Option<Answer>
        requires valid { IsValid post.old }
        requires scheme { post.old.layout.config.scheme ≡ S.kind }
        requires ready { IsCallReady (round (Gets self.old.key) post.old) post.old (desk_of desk.now) }
        requires plausible { IsCallPlausible (round (Gets self.old.key) post.old) post.old found }
        requires empty { told.old ≡ [] }
        ensures steps { Steps (phase_turn (round (Gets self.old.key) post.old) post.old (desk_of desk.now) found) post.new (desk_of desk.now) told.new result (get_phase ⟦<S as Rounds>⟧.all_phases self.new.key self.new.at post.new) }
        ensures seat { SameSeat post.old post.new told.new 4 }
    {
        let root = root_for(self.key, post);
        let mut opening = open::<S>(post, 0, root);
        let end = take_open::<S>(&mut opening, 0, root, post, found, told);
        self.stand(GetAt::Opens(opening));
        match end {
            Some(end) => self.reach(end, post, told),
            None => None,
        }
    }

    // A read of the row.
    #[inline(always)]
    fn read(&mut self, find: Find, post: &mut Post, found: u64, told: &mut Told) -> Option<Answer>
        requires valid { IsValid post.old }
        requires scheme { post.old.layout.config.scheme ≡ S.kind }
        requires ready { get_ready (find_of find) post.old }
        requires plausible { get_plausible (find_of find) post.old found }
        requires empty { told.old ≡ [] }
        ensures steps { (desk : ModelDesk) → Steps (get_turn self.old.key (find_of find) post.old desk found) post.new desk told.new result (get_phase ⟦<S as Rounds>⟧.all_phases self.new.key self.new.at post.new) }
        ensures seat { SameSeat post.old post.new told.new 4 }
    {
        match find.take(post, self.key, found) {
            Found::Goes(next) => {
                self.stand(GetAt::Finds(next));
                None
            }
            Found::Got { version, value } => self.got(version, value, post, told),
        }
    }

    // A step, with its events besides End. The desk is what it was.
    #[inline(always)]
    fn step(&mut self, post: &mut Post, desk: &Desk, found: u64, told: &mut Told) -> Option<Answer>
        requires valid { IsValid post.old }
        requires scheme { post.old.layout.config.scheme ≡ S.kind }
        requires ready { IsCallReady (get_phase ⟦<S as Rounds>⟧.all_phases self.old.key self.old.at post.old) post.old (desk_of desk.now) }
        requires plausible { IsCallPlausible (get_phase ⟦<S as Rounds>⟧.all_phases self.old.key self.old.at post.old) post.old found }
        requires empty { told.old ≡ [] }
        ensures steps { Steps (phase_turn (get_phase ⟦<S as Rounds>⟧.all_phases self.old.key self.old.at post.old) post.old (desk_of desk.now) found) post.new (desk_of desk.now) told.new result (get_phase ⟦<S as Rounds>⟧.all_phases self.new.key self.new.at post.new) }
        ensures seat { SameSeat post.old post.new told.new 4 }
    {
        let root = root_for(self.key, post);
        match &mut self.at {
            GetAt::Starts => self.start(post, desk, found, told),
            GetAt::Opens(opening) => {
                let end = take_open::<S>(opening, 0, root, post, found, told)?;
                self.reach(end, post, told)
            }
            GetAt::Finds(find) => {
                let find = *find;
                self.read(find, post, found, told)
            }
            GetAt::Closes {
                closing,
                version,
                value,
            } => {
                let answer = Answer::Got {
                    version: *version,
                    value: *value,
                };
                if take_close::<S>(closing, false, post, found, told) {
                    return Some(answer);
                }
                None
            }
        }
    }

    // The protection has ended: the row is read, or there is none.
    #[inline(always)]
    fn reach(&mut self, end: ProtectEnd, post: &mut Post, told: &mut Told) -> Option<Answer>
        requires valid { IsValid post.old }
        requires scheme { post.old.layout.config.scheme ≡ S.kind }
        requires few { length told.old ≤ 2 }
        ensures steps { (desk : ModelDesk) → Steps (opened (Gets self.old.key) (Protected end) post.old desk told.old) post.new desk told.new result (get_phase ⟦<S as Rounds>⟧.all_phases self.new.key self.new.at post.new) }
        ensures seat { SameSeat post.old post.new told.new 4 }
    {
        match end {
            ProtectEnd::Held { slot, .. } => {
                self.stand(GetAt::Finds(Find::Version { slot }));
                None
            }
            ProtectEnd::Null => self.got(0, None, post, told),
        }
    }

    // The value is known: it is told, and the round ends.
    #[inline(always)]
    fn got(
        &mut self,
        version: u64,
        value: Option<u64>,
        post: &mut Post,
        told: &mut Told,
    ) -> Option<Answer>
        requires valid { IsValid post.old }
        requires scheme { post.old.layout.config.scheme ≡ S.kind }
        requires few { length told.old ≤ 2 }
        ensures steps { (desk : ModelDesk) → Steps (model_got self.old.key version value post.old desk told.old) post.new desk told.new result (get_phase ⟦<S as Rounds>⟧.all_phases self.new.key self.new.at post.new) }
        ensures key { self.new.key ≡ self.old.key }
        ensures seat { SameSeat post.old post.new told.new 4 }
    {
        let key = self.key;
        let bucket = (key % post.layout.config().buckets as u64) as u32;
        told.push(Event::Got {
            bucket,
            version,
            key,
            value,
        });
        match close::<S>(post, told, 0, false) {
            Some(closing) => {
                self.stand(GetAt::Closes {
                    closing,
                    version,
                    value,
                });
                None
            }
            None => Some(Answer::Got { version, value }),
        }
    }
}

// The root of the key's bucket.
#[inline(always)]
fn root_for(key: u64, post: &Post) -> Root
    requires { IsValid post.now }
    ensures root { result ≡ root_of (Gets key) post.now }
    ensures there { RootFits post.now.layout result }
{
    let buckets = post.layout.config().buckets as u64;
    Root::Bucket((key % buckets) as u32)
}

impl<S: Scheme> CallMachine for Get<S> {
    ghost use Rattle.wfe_bucketmap_read.specs.Gets.{get_phase};

    ghost suits = { λ kind. kind ≡ S.kind };

    ghost phase = { λ m post. get_phase ⟦<S as Rounds>⟧.all_phases m.key m.at post };

    #[inline(always)]
    fn next_op(&self, post: &Post, _desk: &Desk) -> Op {
        match &self.at {
            GetAt::Starts => open::<S>(post, 0, root_for(self.key, post)).next_op(post),
            GetAt::Opens(opening) => opening.next_op(post),
            GetAt::Finds(find) => find.next_op(post),
            GetAt::Closes { closing, .. } => closing.next_op(post),
        }
    }

    // It stands apart, so that which call it is is asked once a step.
    #[inline(never)]
    fn take(
        &mut self,
        post: &mut Post,
        desk: &mut Desk,
        found: u64,
        told: &mut Told,
    ) -> Option<Answer> {
        post.steps = post.steps.saturating_add(1);
        let answer = self.step(post, desk, found, told);
        desk.settle(post, told, answer);
        answer
    }
}
