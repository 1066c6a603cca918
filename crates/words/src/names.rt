// Names, and the words that are none since a query's line gives them a meaning.
ghost use Rattle.std.specs.List.{list_all};
ghost use Rattle.std.specs.Prelude.{◌≡◌};
ghost use Rattle.std.specs.Result.{result_ok};
ghost use Rattle.words.specs.Name.{FindsIn, reserved as reserved_in, name_byte, is_name};

use std::str::{FromStr, from_utf8};

#[derive(Clone, Copy, Drop, PartialEq, Debug)]
pub enum Reserved {
    Base,
    During,
    Where,
    On,
    Of,
    By,
}

// A word that stands for nothing.
#[derive(Clone, Copy, Drop, PartialEq, Eq, Debug)]
pub struct UnknownWord;

impl FromStr for Reserved {
    type Err = UnknownWord;

    ghost from_str_gives = { λ text r. result_ok r ≡ reserved_in text };

    fn from_str(text: &str) -> Result<Reserved, UnknownWord> {
        match text {
            "base" => Ok(Reserved::Base),
            "during" => Ok(Reserved::During),
            "where" => Ok(Reserved::Where),
            "on" => Ok(Reserved::On),
            "of" => Ok(Reserved::Of),
            "by" => Ok(Reserved::By),
            _ => Err(UnknownWord),
        }
    }
}

// What a word stands for in a type: nothing where the word is no text.
pub fn find<T: FromStr>(word: &[u8]) -> Option<T>
where
    T::Err: Drop,
    ensures { FindsIn T.from_str_gives word.now result }
{
    from_utf8(word).ok()?.parse().ok()
}

// The reserved word that a word is, if it is one.
pub fn find_reserved(word: &[u8]) -> Option<Reserved>
    ensures { result ≡ reserved_in word.now }
{
    find(word)
}

fn is_name_byte(b: u8) -> bool
    ensures { result ≡ name_byte b }
{
    matches!(b as char, 'a'..='z' | '0'..='9')
}

fn name_bytes(word: &[u8]) -> bool
    ensures { result ≡ list_all name_byte word.now }
{
    word.iter().all(|b| is_name_byte(*b))
}

// Whether a word is a name.
pub fn is_name(word: &[u8]) -> bool
    ensures { result ≡ is_name word.now }
{
    1 <= word.len()
        && word.len() <= 8
        && word[0].is_ascii_lowercase()
        && name_bytes(word)
        && find_reserved(word).is_none()
}
