// The tally rule of one day, as a function and in the words of sets, and the small tables.
#![tactic(auto)]

pub mod examples;
pub mod rules;
