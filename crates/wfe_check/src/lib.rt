//! The checker of records: its parts joined (`checker.rt`, `fits.rt`). It says whether each entry keeps the laws, by what is
//! kept of those before it, and judges a whole record's text. The record itself is not kept, but what laws read of it: each
//! part keeps present values, and its contract says so of every record that they are of. All tests are asked of an entry, the
//! first that fails or not: in a good record all are needed.
#![tactic(auto)]

mod checker;
mod fits;
mod judge;
mod note;
mod text;

pub use checker::Checker;
pub use text::check;
