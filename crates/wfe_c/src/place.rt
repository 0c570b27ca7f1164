// Where lies what C keeps by a handle, if something does: a seat, or what a closed table held.
ghost use Rattle.std.specs.Borrow.{sem};
ghost use Rattle.std.specs.Prelude.{◌≡◌, ◌≢◌, None, Option, Some};
ghost use Rattle.wfe_c.specs.Place.{closed_in, kept_coded, place_owns, seat_in};
ghost use Rattle.wfe_c.specs.declared.kept.Kept.{Kept};
ghost use Rattle.wfe_c.specs.declared.kept.Kept.TheVariants as kepts;

use crate::joined::Joined;
use crate::pointed::Pointed;
use std::alloc::Global;
use std::marker::Model;
use wfe_table::Closed;

// The pointer's type names no table, which C may not see. It owns what lies there.
#[repr(C)]
#[derive(Drop)]
pub struct Place {
    at: *mut u8,
    alloc: Global,
    pub ghost inside: { Option Kept } by { kept_coded },
}

impl Model for Place {
    ghost also_owns = { λ p. place_owns p.alloc p.at p.inside };
}

impl Place {
    ghost use Rattle.wfe_c.specs.Lent.{LendsClosed, LendsSeat};

    pub(crate) fn of(pointed: Pointed<Joined, Global>) -> Place
        ensures { result.inside ≡ Some (kepts.Seated pointed.value) }
    {
        let Pointed { at, alloc } = pointed;
        Place {
            at: at as *mut u8,
            alloc,
        }
    }

    pub(crate) fn of_closed(pointed: Pointed<Closed, Global>) -> Place
        ensures { result.inside ≡ Some (kepts.Closed pointed.value) }
    {
        let Pointed { at, alloc } = pointed;
        Place {
            at: at as *mut u8,
            alloc,
        }
    }

    pub(crate) fn empty(alloc: Global) -> Place
        ensures { result.inside ≡ None }
    {
        Place {
            at: std::ptr::null_mut::<u8>(),
            alloc,
        }
    }

    // The seat where it lies.
    #[inline(always)]
    pub(crate) fn seat(&mut self) -> &mut Joined
        requires { seat_in self.old.inside ≢ None }
        ensures* writes_back { sem 𝓛 (LendsSeat self.entry result) }
        ensures value { self.old.inside ≡ Some (kepts.Seated result.now) }
    {
        unsafe { &mut *(self.at as *mut Joined) }
    }

    // What a closed table held, where it lies.
    #[inline(always)]
    pub(crate) fn closed(&mut self) -> &mut Closed
        requires { closed_in self.old.inside ≢ None }
        ensures* writes_back { sem 𝓛 (LendsClosed self.entry result) }
        ensures value { self.old.inside ≡ Some (kepts.Closed result.now) }
    {
        unsafe { &mut *(self.at as *mut Closed) }
    }

    pub(crate) fn into_pointed(self) -> Pointed<Joined, Global>
        requires { seat_in self.inside ≢ None }
        ensures { self.inside ≡ Some (kepts.Seated result.value) }
    {
        let Place { at, alloc } = self;
        Pointed {
            at: at as *mut Joined,
            alloc,
        }
    }

    pub(crate) fn into_closed(self) -> Pointed<Closed, Global>
        requires { closed_in self.inside ≢ None }
        ensures { self.inside ≡ Some (kepts.Closed result.value) }
    {
        let Place { at, alloc } = self;
        Pointed {
            at: at as *mut Closed,
            alloc,
        }
    }
}

unsafe impl Send for Place {}
