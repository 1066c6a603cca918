// Tallying: count, sum, least and greatest over the groups of any source, made in lent work areas.
#![tactic(auto)]

pub mod calls;
mod checks;
mod gathers;
mod lists;
mod runs;
mod sums;
pub mod theorems;
