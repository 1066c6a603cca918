// One group of a tally: its days are cut where a row begins or ends, and each stretch between two cuts gets its amount.
#![tactic(auto)]

mod amounts;
mod bests;
mod cuts;
mod days;
pub mod groups;
pub mod picks;
mod stretches;
pub mod theorems;
