// Plans: layers over layers over sources, of any shape; and the questions that a workshop asks.
#![tactic(auto)]

pub mod questions;
pub mod theorems;
