//! What a run reads and writes beside the calls themselves: the scripts that a trace's lines give (`scripts.rt`), the events of a call
//! (`events.rt`), and the lines of the table that is left (`closed.rt`).
#![tactic(auto)]

mod closed;
mod events;
mod lines;
mod scripts;

pub use closed::put_closed;
pub use events::push_events;
pub use scripts::Scripts;
