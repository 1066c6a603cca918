// Except: the tuples of one source on the days on which another source does not have them.
#![tactic(auto)]

mod blockers;
pub mod excepts;
pub mod theorems;
