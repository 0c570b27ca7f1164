// What a seat knows between its steps, whichever call it makes.
ghost use Rattle.std.specs.Prelude.{◌≡◌, ◌<◌, true};
ghost use Rattle.wfe_words.specs.Place.{is_valid};
ghost use Rattle.wfe_core.specs.Posts.{new_post};
ghost use Rattle.wfe_core.specs.Valid.{IsValid};

use wfe_defs::Interval;
use wfe_words::Layout;

/// A seat's place in its table, and what it has published and counted.
#[derive(Clone, Copy, Debug, PartialEq, Eq)]
pub struct Post {
    /// The seat's number.
    pub seat: u32,
    pub layout: Layout,
    /// The slot at which the next walk for a free row begins.
    pub cursor: u32,
    /// How many requests were answered at each index.
    pub tags: [u32; 8],
    /// The row that stands at each index.
    pub standing: [Option<u32>; 8],
    /// The interval that the seat publishes under 2GE, in eras.
    pub span: Option<Interval>,
    /// Atomic steps since the call began.
    pub steps: u64,
    /// Rows that the seat has retired.
    pub retired: u64,
}

#[tactic(auto, using(crate::proofs::Ranges::bounds_of))]
impl Post {
    /// A seat that has made no call: nothing stands or is published, and all counts are 0.
    pub fn new(seat: u32, layout: Layout) -> Post
        requires layout { is_valid layout ≡ true }
        requires seat { seat < layout.config.seats }
        ensures result { result ≡ new_post seat layout }
        ensures valid { IsValid result }
    {
        Post {
            seat,
            layout,
            cursor: 0,
            tags: [0; 8],
            standing: [None; 8],
            span: None,
            steps: 0,
            retired: 0,
        }
    }
}
