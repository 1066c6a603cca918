// Slips.
use crate::entries::Name;

// A promise to publish or to abandon a draft: the register's number and the draft's name.
// It is neither `Copy` nor `Drop`, so it is spent exactly once.
pub struct Slip {
    pub(crate) register: u64,
    pub(crate) name: Name,
}
