//! Protection of Wait-Free Eras: tries, a request (`protect.rt`, `own_turn.rt`). It is as Nikolaev and Ravindran have it
//! (2020): the tries are as of Hazard Eras, and then comes a request that movers of the clock answer.
#![tactic(auto)]

mod own_turn;
mod protect;

pub use protect::WfeProtect;
