// Layers: sources over other sources.
#![tactic(auto)]

pub mod checks;
mod columns;
pub mod kinds;
pub mod parts;
pub mod projects;
pub mod selects;
pub mod theorems;
pub mod unions;
pub mod windows;
