// Scripts, and the check that accepts them.
#![tactic(auto)]

pub mod check;
pub mod script;
pub mod text;
