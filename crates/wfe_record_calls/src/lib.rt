//! Reads the call (`call.rt`) and the answer (`answer.rt`) in a record's line. It takes the words of the line. What a trace
//! asks of a call's indexes beside their ranges is not asked of a record. No call here takes memory.
#![tactic(auto)]

mod answer;
mod call;

pub use answer::read_answer;
pub use call::read_call;
