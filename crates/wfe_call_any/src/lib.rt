//! A call of any kind as one machine (`running.rt`), under each scheme.
#![tactic(auto)]

mod changing;
mod keeping;
mod queueing;
mod running;
mod scheme_calls;

pub use changing::Changing;
pub use keeping::Keeping;
pub use queueing::Queueing;
pub use running::{Running, begin_call};
pub use scheme_calls::{HeCall, HpCall, IbrCall, WfeCall};
pub use wfe_bucketmap::{
    Advance, CopyIndex, DropIndex, Get, He, Hold, Hp, Ibr, Look, Put, PutIf, Release, Remove,
    Scheme, Wfe,
};
pub use wfe_msqueue::{Dequeue, Enqueue};
pub use wfe_scan::Scan;
