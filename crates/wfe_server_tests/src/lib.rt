//! Tests of words by hand, atomic words beside plain ones, deleters, readers and sinks that fail, texts without an end, and workers at a
//! gate. These are what no text of a case shows and no clause says.
#![tactic(auto)]

#[cfg(test)]
mod adapters;
#[cfg(test)]
mod atomic;
#[cfg(test)]
mod deleters;
#[cfg(test)]
mod endless;
#[cfg(test)]
mod expect;
#[cfg(test)]
mod gates;
#[cfg(test)]
mod lives;
#[cfg(test)]
mod sinks;
#[cfg(test)]
mod words;
