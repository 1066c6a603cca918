// The lines of a plain list of rows: a header `NAME KINDS`, then a line `FROM UNTIL VALUE ..` for each row.
#![tactic(auto)]

pub mod files;
pub mod header;
pub mod rows;
pub mod show;
pub mod values;

pub use takers::tails::is_blank;
