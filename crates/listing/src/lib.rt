// A relation as text, written into lent bytes.
#![tactic(auto)]

pub mod list;
mod numbers;
mod rows;
pub mod show;
mod sinks;
pub mod theorems;
