// The calls of each scheme: a type without parameters for each, so that types that hold all four stay short. How one is dropped is code
// of its own, which is proved here, and not again in each crate that holds one.
ghost use Rattle.std.specs.Prelude.{◌≡◌, true};
ghost use Rattle.wfe_core.specs.Locals.{stays};
ghost use Rattle.wfe_core.specs.Steps.{first_phase};
ghost use Rattle.wfe_core.specs.declared.post.Post.{Post};
ghost use Rattle.wfe_scan.specs.words.declared.config.SchemeKind.TheVariants as kinds;

use crate::running::{Running, begin_call};
use wfe_bucketmap::{He, Hp, Ibr, Wfe};
use wfe_core::{Answer, Call, CallMachine, Desk, Layout, Op, Post, Told};

/// A call under Hazard Eras.
pub struct HeCall {
    call: Running<He>,
}

impl Drop for HeCall {
    #[inline(always)]
    fn drop(self) {
        let HeCall { call: _ } = self;
    }
}

impl HeCall {
    /// The call of a seat that stays, on a table of this layout, at its first step.
    pub fn begin(layout: Layout, call: Call) -> HeCall
        requires { stays call ≡ true }
        ensures phase { (post : Post) → post.layout.config.scheme ≡ kinds.He → ⟦<HeCall as CallMachine>⟧.phase result post ≡ first_phase call post }
        ensures suits { ⟦<HeCall as CallMachine>⟧.suits kinds.He }
    {
        HeCall {
            call: begin_call(layout, call),
        }
    }
}

impl CallMachine for HeCall {
    ghost suits = { ⟦<Running<He> as CallMachine>⟧.suits };

    ghost phase = { λ m post. ⟦<Running<He> as CallMachine>⟧.phase m.call post };

    #[inline(always)]
    fn next_op(&self, post: &Post, desk: &Desk) -> Op {
        self.call.next_op(post, desk)
    }

    #[inline(always)]
    fn take(
        &mut self,
        post: &mut Post,
        desk: &mut Desk,
        found: u64,
        told: &mut Told,
    ) -> Option<Answer> {
        self.call.take(post, desk, found, told)
    }
}

/// A call under 2GE intervals.
pub struct IbrCall {
    call: Running<Ibr>,
}

impl Drop for IbrCall {
    #[inline(always)]
    fn drop(self) {
        let IbrCall { call: _ } = self;
    }
}

impl IbrCall {
    /// The call of a seat that stays, on a table of this layout, at its first step.
    pub fn begin(layout: Layout, call: Call) -> IbrCall
        requires { stays call ≡ true }
        ensures phase { (post : Post) → post.layout.config.scheme ≡ kinds.Ibr → ⟦<IbrCall as CallMachine>⟧.phase result post ≡ first_phase call post }
        ensures suits { ⟦<IbrCall as CallMachine>⟧.suits kinds.Ibr }
    {
        IbrCall {
            call: begin_call(layout, call),
        }
    }
}

impl CallMachine for IbrCall {
    ghost suits = { ⟦<Running<Ibr> as CallMachine>⟧.suits };

    ghost phase = { λ m post. ⟦<Running<Ibr> as CallMachine>⟧.phase m.call post };

    #[inline(always)]
    fn next_op(&self, post: &Post, desk: &Desk) -> Op {
        self.call.next_op(post, desk)
    }

    #[inline(always)]
    fn take(
        &mut self,
        post: &mut Post,
        desk: &mut Desk,
        found: u64,
        told: &mut Told,
    ) -> Option<Answer> {
        self.call.take(post, desk, found, told)
    }
}

/// A call under Wait-Free Eras.
pub struct WfeCall {
    call: Running<Wfe>,
}

impl Drop for WfeCall {
    #[inline(always)]
    fn drop(self) {
        let WfeCall { call: _ } = self;
    }
}

impl WfeCall {
    /// The call of a seat that stays, on a table of this layout, at its first step.
    pub fn begin(layout: Layout, call: Call) -> WfeCall
        requires { stays call ≡ true }
        ensures phase { (post : Post) → post.layout.config.scheme ≡ kinds.Wfe → ⟦<WfeCall as CallMachine>⟧.phase result post ≡ first_phase call post }
        ensures suits { ⟦<WfeCall as CallMachine>⟧.suits kinds.Wfe }
    {
        WfeCall {
            call: begin_call(layout, call),
        }
    }
}

impl CallMachine for WfeCall {
    ghost suits = { ⟦<Running<Wfe> as CallMachine>⟧.suits };

    ghost phase = { λ m post. ⟦<Running<Wfe> as CallMachine>⟧.phase m.call post };

    #[inline(always)]
    fn next_op(&self, post: &Post, desk: &Desk) -> Op {
        self.call.next_op(post, desk)
    }

    #[inline(always)]
    fn take(
        &mut self,
        post: &mut Post,
        desk: &mut Desk,
        found: u64,
        told: &mut Told,
    ) -> Option<Answer> {
        self.call.take(post, desk, found, told)
    }
}

/// A call under hazard pointers.
pub struct HpCall {
    call: Running<Hp>,
}

impl Drop for HpCall {
    #[inline(always)]
    fn drop(self) {
        let HpCall { call: _ } = self;
    }
}

impl HpCall {
    /// The call of a seat that stays, on a table of this layout, at its first step.
    pub fn begin(layout: Layout, call: Call) -> HpCall
        requires { stays call ≡ true }
        ensures phase { (post : Post) → post.layout.config.scheme ≡ kinds.Hp → ⟦<HpCall as CallMachine>⟧.phase result post ≡ first_phase call post }
        ensures suits { ⟦<HpCall as CallMachine>⟧.suits kinds.Hp }
    {
        HpCall {
            call: begin_call(layout, call),
        }
    }
}

impl CallMachine for HpCall {
    ghost suits = { ⟦<Running<Hp> as CallMachine>⟧.suits };

    ghost phase = { λ m post. ⟦<Running<Hp> as CallMachine>⟧.phase m.call post };

    #[inline(always)]
    fn next_op(&self, post: &Post, desk: &Desk) -> Op {
        self.call.next_op(post, desk)
    }

    #[inline(always)]
    fn take(
        &mut self,
        post: &mut Post,
        desk: &mut Desk,
        found: u64,
        told: &mut Told,
    ) -> Option<Answer> {
        self.call.take(post, desk, found, told)
    }
}
