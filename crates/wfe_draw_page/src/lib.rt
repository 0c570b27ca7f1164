//! The picture of bars, an SVG document: where each bar lies (`grid.rt`), what it says (`label.rt`), and the text of the whole
//! (`page.rt`). Each bar lies within the picture, and each label within its bar.
#![tactic(auto)]

mod grid;
mod label;
mod mark;
mod page;
mod undrawn;

pub use page::draw;
pub use undrawn::Undrawn;
