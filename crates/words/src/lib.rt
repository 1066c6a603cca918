// The words and lines of a text, and what a word is: name, number, quoted word, column, sign, kinds.
#![tactic(auto)]

pub mod kinds;
pub mod lines;
pub mod names;
pub mod numbers;
pub mod reader;
mod search;
pub mod theorems;
pub mod tokens;
