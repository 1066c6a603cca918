// Collecting: the canonical list of any source, made in lent work areas.
#![tactic(auto)]

pub mod arrange;
pub mod coalesce;
pub mod collects;
pub mod keys;
pub mod listing;
pub mod loads;
pub mod sorting;
