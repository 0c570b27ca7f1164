//! Exports for C: each call on a seat (`calls.rt`), opening and leaving (`opening.rt`, `leaving.rt`), a close and what the table held
//! (`closing.rt`, `reading.rt`), notes (`notes.rt`, `about.rt`), by handles that keep their table (`handle.rt`). What a caller in C could get
//! wrong is tested, and answered by a code (`answer.rt`). C's side is `bindings/c/wfe.h`.
#![tactic(auto)]

mod about;
mod answer;
mod apart;
mod calls;
mod closing;
mod codes;
mod common;
mod handle;
mod joined;
mod kept;
mod leaving;
mod making;
mod notes;
mod opening;
mod place;
mod pointed;
mod reading;
mod refusing;
mod setting;
mod tally;
