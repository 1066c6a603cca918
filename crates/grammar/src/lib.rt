// The forms of a script's lines.
#![tactic(auto)]

pub mod forms;
pub mod keywords;
pub mod lines;
pub mod parts;
pub mod queries;
pub mod tails;
