//! The threads' table: its rule (`Rule.antt`), its block (`Spots.antt`), its steps (`steps.rt`, `lists.rt`). It is an atomic table under the rule that a
//! history comes to the World that its words and the views of its handles show, with the making and joining of handles.
#![tactic(auto)]

mod block;
mod facts;
mod handles;
mod kept;
mod lists;
mod rule;
mod steps;
mod table;

pub use facts::{handles_end, handles_stand_in_histories, tables_follow_histories};
pub use handles::{give_slot, hear_news, split, take_in, take_slot, tell_news};
pub use kept::Kept;
pub use lists::{adopt_list, hand_list, mark_place};
pub use rule::{Handle, HandleView, HistoryRule, Ledger, OwnedLedger};
pub use steps::{begin, step, step_on};
pub use table::{close, finish, open};
