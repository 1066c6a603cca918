// The vocabulary: bounds, kinds, rows, refusals, and the theorems on day sets and canonical lists.
#![tactic(auto)]

pub mod bounds;
pub mod columns;
pub mod conditions;
pub mod days;
pub mod few;
pub mod kinds;
pub mod refusals;
pub mod rows;
pub mod texts;
pub mod theorems;
pub mod values;
