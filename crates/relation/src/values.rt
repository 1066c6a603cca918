// Values: the numbers of kind n, and the words of kind w, held as numbers.
ghost use Rattle.std.specs.List.{list_all};
ghost use Rattle.std.specs.Prelude.{◌≡◌, length};
ghost use Rattle.std.specs.Option.{option_map};
ghost use Rattle.relation.specs.Kinds.{SameKind};
ghost use Rattle.relation.specs.Few.{items};
ghost use Rattle.relation.specs.Values.{word_byte, is_word, front, word_value, word_text, in_kind, KindsTold, WordsInverse, WordA};

use crate::bounds::{LARGEST_NUMBER, WORD_BYTES};
use crate::kinds::Kind;
use crate::texts::WordText;

// Whether the byte may stand in a word.
fn is_word_byte(b: u8) -> bool
    ensures { result ≡ word_byte b }
{
    matches!(b, b'A'..=b'Z' | b'a'..=b'z' | b'0'..=b'9' | b'-' | b'_')
}

// Whether each byte may stand in a word.
fn all_word_bytes(bytes: &[u8]) -> bool
    ensures { result ≡ list_all word_byte bytes.now }
{
    bytes.iter().all(|b| is_word_byte(*b))
}

// Whether the bytes are a word.
pub fn is_word(bytes: &[u8]) -> bool
    ensures { result ≡ is_word bytes.now }
{
    1 <= bytes.len() && bytes.len() <= WORD_BYTES && all_word_bytes(bytes)
}

// The value that the word is held as; none where the bytes are no word.
pub fn word_value(bytes: &[u8]) -> Option<i64>
    ensures { result ≡ word_value bytes.now }
{
    if !is_word(bytes) {
        return None;
    }
    let mut padded = [0; WORD_BYTES];
    padded[..bytes.len()].copy_from_slice(bytes);
    Some(i64::from_be_bytes(padded))
}

// How many bytes stand before the first zero.
fn before_zero(bytes: &[u8]) -> usize
    ensures { result ≡ length (front bytes.now) }
{
    bytes.iter().position(|b| *b == 0).unwrap_or(bytes.len())
}

// The bytes of the word that the value is; none where it is no word's.
pub fn word_text(value: i64) -> Option<WordText>
    ensures { option_map items result ≡ word_text value }
{
    let bytes = value.to_be_bytes();
    let text = &bytes[..before_zero(&bytes)];
    if word_value(text) == Some(value) {
        WordText::from_slice(text, 0)
    } else {
        None
    }
}

impl Kind {
    // Whether the value is in the bounds of the kind.
    pub fn holds(self, value: i64) -> bool
        ensures { result ≡ in_kind self value }
    {
        match self {
            Kind::Number => -LARGEST_NUMBER <= value && value <= LARGEST_NUMBER,
            Kind::Word => word_text(value).is_some(),
        }
    }
}

// Two kinds are the same exactly when the test says so.
pub fn same_kind()
    ensures { SameKind }
{}

// A value is in the bounds of its kind exactly when the test says so.
pub fn kinds_told()
    ensures { KindsTold }
{}

// To read a word and to write it are inverse to each other.
pub fn words_inverse()
    ensures { WordsInverse }
{}

// The word a is 6989586621679009792.
pub fn word_a()
    ensures { WordA }
{}
