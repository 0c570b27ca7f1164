//! Checker: what guards publish, which rows stand and whether these are held (`protections.rt`); what was so at a position of a
//! call (`times.rt`). Each answer is that of the laws at the record so far, though the record is not kept. Of what was so in a
//! call, there is, for each such matter, the number of the position at which it ceased to be so: it was so in the call exactly
//! where it still is, or the position right after the call's Begin has a smaller number. What the root of a call has had is
//! noted when it gets it, for each seat whose call looks at that root.
#![tactic(auto)]

mod grid;
mod had;
mod held;
mod judged;
mod protections;
mod row_set;
mod rows;
mod seats;
mod spans;
mod times;

pub use protections::Protections;
pub use times::Times;
