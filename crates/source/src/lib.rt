// Sources: relations that are questioned place by place, and the table over lent rows.
#![tactic(auto)]

pub mod asks;
pub mod filled;
pub mod tables;
pub mod theorems;
