// The bytes of a word.
use crate::bounds::WORD_BYTES;
use crate::few::Few;

// The bytes of a word, of which there are at most eight.
pub type WordText = Few<u8, WORD_BYTES>;
