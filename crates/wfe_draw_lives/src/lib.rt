//! What the entries of a record leave to be drawn (`scene.rt`): the lives of rows (`rows.rt`), and what stands in the lanes of
//! seats, guards, indexes and the clock (`standing.rt`). Of what ended before the part that is drawn nothing is kept.
#![tactic(auto)]

mod bar;
mod life;
mod rows;
mod scene;
mod standing;

pub use bar::{Bar, Lane, Moment, Says, Shade};
pub use scene::{MOST_COLUMNS, Picture, Scene};
