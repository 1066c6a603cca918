// The register: lent rows, a directory of names, drafts with their slips, and published relations.
#![tactic(auto)]

mod entries;
mod places;
pub mod registers;
pub mod slips;
mod store;
pub mod theorems;
mod works;
