// Kinds, written as letters: n for numbers, w for words.
ghost use Rattle.std.specs.Prelude.{◌≡◌, cond, Some, None};
ghost use Rattle.std.specs.List.{list_all};
ghost use Rattle.std.specs.Option.{option_map};
ghost use Rattle.relation.specs.Few.{items};
ghost use Rattle.words.specs.Kinds.{kind_byte, kind_of, is_kinds, letters_of, kinds_of};

use relation::columns::Kinds;
use relation::few::Few;
use relation::kinds::Kind;

// The kind that a letter is.
pub fn kind_of(letter: u8) -> Option<Kind>
    ensures { result ≡ cond (kind_byte letter) (Some (kind_of letter)) None }
{
    match letter as char {
        'n' => Some(Kind::Number),
        'w' => Some(Kind::Word),
        _ => None,
    }
}

fn is_kind_byte(b: u8) -> bool
    ensures { result ≡ kind_byte b }
{
    kind_of(b).is_some()
}

fn kind_bytes(word: &[u8]) -> bool
    ensures { result ≡ list_all kind_byte word.now }
{
    word.iter().all(|b| is_kind_byte(*b))
}

// Whether a word is one letter or more, each n or w.
pub fn is_kinds(word: &[u8]) -> bool
    ensures { result ≡ is_kinds word.now }
{
    1 <= word.len() && kind_bytes(word)
}

// The kinds that at most N letters are.
pub fn read_letters<const N: usize>(word: &[u8]) -> Option<Few<Kind, N>>
    ensures { option_map items result ≡ letters_of N word.now }
{
    if N < word.len() {
        return None;
    }
    let mut kinds = Few::new(Kind::Number);
    for letter in word {
        kinds.push(kind_of(*letter)?);
    }
    Some(kinds)
}

// The kinds that 1 to 6 letters are.
pub fn read_kinds(word: &[u8]) -> Option<Kinds>
    ensures { option_map items result ≡ kinds_of word.now }
{
    if word.is_empty() {
        return None;
    }
    read_letters(word)
}
