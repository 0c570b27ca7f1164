// The four schemes. A machine that a scheme does not have is never made: its type is another
// scheme's.
ghost use Rattle.std.specs.Prelude.{true, false, refl};
ghost use Rattle.wfe_core.specs.words.declared.config.SchemeKind.{SchemeKind as Kind};

use crate::Scheme;
use crate::kept::first_row;
use wfe_core::{Event, Post, Told};
use wfe_fast::WfeProtect;
use wfe_he::{HeClear, HeProtect};
use wfe_hp::{HpClear, HpProtect};
use wfe_ibr::{IbrBegin, IbrFinish, IbrProtect, IbrRelease};

/// Hazard Eras (Ramalhete and Correia 2017).
pub struct He {}

/// 2GE intervals (Wen and others 2018).
pub struct Ibr {}

/// Wait-Free Eras (Nikolaev and Ravindran 2020).
pub struct Wfe {}

/// Hazard pointers (Michael 2004).
pub struct Hp {}

impl Scheme for He {
    ghost use Rattle.wfe_core.specs.words.declared.config.SchemeKind.TheVariants.{He as HeKind};

    ghost kind = { HeKind };

    ghost HELPS = { false };

    const HELPS: bool = false;

    ghost MOVES = { true };

    const MOVES: bool = true;

    type Begin = IbrBegin;

    type Protect = HeProtect;

    type Clear = HeClear;

    type Finish = IbrFinish;

    type Release = HeClear;

    ghost helps = { refl };

    ghost moves = { refl };

    ghost begun = { λ e. refl };

    ghost protected = { λ e. refl };

    ghost cleared = { λ e. refl };

    ghost finished = { λ e. refl };

    ghost released = { λ e. refl };

    #[inline(always)]
    fn begin(_post: &Post) -> Option<IbrBegin> {
        None
    }

    #[inline(always)]
    fn protect(post: &Post, index: u32, word: u32) -> HeProtect {
        HeProtect::new(post, index, word)
    }

    #[inline(always)]
    fn clear(_post: &mut Post, index: u32, _told: &mut Told) -> Option<HeClear> {
        Some(HeClear::new(index))
    }

    #[inline(always)]
    fn finish(_post: &Post) -> Option<IbrFinish> {
        None
    }

    #[inline(always)]
    fn release(_post: &Post, index: u32) -> Option<HeClear> {
        Some(HeClear::new(index))
    }
}

impl Scheme for Ibr {
    ghost use Rattle.wfe_core.specs.words.declared.config.SchemeKind.TheVariants.{Ibr as IbrKind};

    ghost kind = { IbrKind };

    ghost HELPS = { false };

    const HELPS: bool = false;

    ghost MOVES = { true };

    const MOVES: bool = true;

    type Begin = IbrBegin;

    type Protect = IbrProtect;

    type Clear = HeClear;

    type Finish = IbrFinish;

    type Release = IbrRelease;

    ghost helps = { refl };

    ghost moves = { refl };

    ghost begun = { λ e. refl };

    ghost protected = { λ e. refl };

    ghost cleared = { λ e. refl };

    ghost finished = { λ e. refl };

    ghost released = { λ e. refl };

    #[inline(always)]
    fn begin(post: &Post) -> Option<IbrBegin> {
        match post.span {
            Some(_) => None,
            None => Some(IbrBegin::new()),
        }
    }

    #[inline(always)]
    fn protect(post: &Post, index: u32, word: u32) -> IbrProtect {
        IbrProtect::new(post, index, word)
    }

    #[inline(always)]
    fn clear(post: &mut Post, index: u32, told: &mut Told) -> Option<HeClear> {
        if let Some(slot) = post.standing[index as usize] {
            told.push(Event::Clear { index, slot });
        }
        post.standing[index as usize] = None;
        None
    }

    #[inline(always)]
    fn finish(post: &Post) -> Option<IbrFinish> {
        if first_row(&post.standing[2..]).is_some() {
            return None;
        }
        Some(IbrFinish::new())
    }

    #[inline(always)]
    fn release(post: &Post, index: u32) -> Option<IbrRelease> {
        let mut left = post.standing;
        left[index as usize] = None;
        if first_row(&left[2..]).is_some() {
            return None;
        }
        Some(IbrRelease::new(index))
    }
}

impl Scheme for Wfe {
    ghost use Rattle.wfe_core.specs.words.declared.config.SchemeKind.TheVariants.{Wfe as WfeKind};

    ghost kind = { WfeKind };

    ghost HELPS = { true };

    const HELPS: bool = true;

    ghost MOVES = { true };

    const MOVES: bool = true;

    type Begin = IbrBegin;

    type Protect = WfeProtect;

    type Clear = HeClear;

    type Finish = IbrFinish;

    type Release = HeClear;

    ghost helps = { refl };

    ghost moves = { refl };

    ghost begun = { λ e. refl };

    ghost protected = { λ e. refl };

    ghost cleared = { λ e. refl };

    ghost finished = { λ e. refl };

    ghost released = { λ e. refl };

    #[inline(always)]
    fn begin(_post: &Post) -> Option<IbrBegin> {
        None
    }

    #[inline(always)]
    fn protect(post: &Post, index: u32, word: u32) -> WfeProtect {
        WfeProtect::new(post, index, word)
    }

    #[inline(always)]
    fn clear(_post: &mut Post, index: u32, _told: &mut Told) -> Option<HeClear> {
        Some(HeClear::new(index))
    }

    #[inline(always)]
    fn finish(_post: &Post) -> Option<IbrFinish> {
        None
    }

    #[inline(always)]
    fn release(_post: &Post, index: u32) -> Option<HeClear> {
        Some(HeClear::new(index))
    }
}

impl Scheme for Hp {
    ghost use Rattle.wfe_core.specs.words.declared.config.SchemeKind.TheVariants.{Hp as HpKind};

    ghost kind = { HpKind };

    ghost HELPS = { false };

    const HELPS: bool = false;

    ghost MOVES = { false };

    const MOVES: bool = false;

    type Begin = IbrBegin;

    type Protect = HpProtect;

    type Clear = HpClear;

    type Finish = IbrFinish;

    type Release = HpClear;

    ghost helps = { refl };

    ghost moves = { refl };

    ghost begun = { λ e. refl };

    ghost protected = { λ e. refl };

    ghost cleared = { λ e. refl };

    ghost finished = { λ e. refl };

    ghost released = { λ e. refl };

    #[inline(always)]
    fn begin(_post: &Post) -> Option<IbrBegin> {
        None
    }

    #[inline(always)]
    fn protect(post: &Post, index: u32, word: u32) -> HpProtect {
        HpProtect::new(post, index, word)
    }

    #[inline(always)]
    fn clear(_post: &mut Post, index: u32, _told: &mut Told) -> Option<HpClear> {
        Some(HpClear::new(index))
    }

    #[inline(always)]
    fn finish(_post: &Post) -> Option<IbrFinish> {
        None
    }

    #[inline(always)]
    fn release(_post: &Post, index: u32) -> Option<HpClear> {
        Some(HpClear::new(index))
    }
}
