//! Tests of the threads' table, of its seats and its end. They are scripts of calls of more seats than one in a fixed order, of
//! seats that leave and lists that are taken over, of what a seat shows, and of what a close hands back (`script.rt`); how a
//! table is made, and what errors say (`texts.rt`, `refusals.rt`). What the calls of one seat answer is in the cases of `wfe run`.
#![tactic(auto)]

#[cfg(test)]
mod bench;
#[cfg(test)]
mod calls;
#[cfg(test)]
mod closing;
#[cfg(test)]
mod full;
#[cfg(test)]
mod handing;
#[cfg(test)]
mod kept;
#[cfg(test)]
mod making;
#[cfg(test)]
mod refusals;
#[cfg(test)]
mod script;
#[cfg(test)]
mod seen;
#[cfg(test)]
mod shown;
#[cfg(test)]
mod stalled;
#[cfg(test)]
mod texts;
#[cfg(test)]
mod told;
