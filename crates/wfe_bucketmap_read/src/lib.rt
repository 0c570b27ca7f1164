//! Get, look, copy, advance: machines, a file each. They are the calls of the map that change no bucket and hold nothing anew,
//! and the move of the clock as a call, over any scheme.
#![tactic(auto)]

mod advance;
mod copy;
mod find;
mod get;
mod get_at;
mod guard;
mod look;

pub use advance::Advance;
pub use copy::CopyIndex;
pub use get::Get;
pub use look::Look;
pub use wfe_call_rounds::{
    Closing, He, Hp, Ibr, Opening, Rounds, Scheme, Wfe, close, open, take_close, take_open,
};
