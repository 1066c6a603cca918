// The values of a row's line, read as the kinds ask.
ghost use Rattle.std.specs.Prelude.{◌≡◌, Some, None, MatchOption};
ghost use Rattle.std.specs.Option.{option_map};
ghost use Rattle.relation.specs.Few.{items};
ghost use Rattle.words.specs.Rest.{rest};
ghost use Rattle.takers.specs.Take.{means_value};
ghost use Rattle.lists.specs.ListLines.{as_kind, take_as, fitted, bounded_word, all_bounded};

use relation::bounds::MOST_COLUMNS;
use relation::few::Few;
use relation::kinds::Kind;
use relation::values::word_value;
use takers::{read_value, take_end, take_value};
use words::reader::Words;
use words::tokens::Value;

// The values of a row, one for each column.
pub type Values = Few<i64, MOST_COLUMNS>;

// The number that a value of the kind is held as.
fn as_kind(value: Value, kind: Kind) -> Option<i64>
    ensures { result ≡ as_kind kind (means_value value.entry) }
{
    match (kind, value) {
        (Kind::Number, Value::Number(z)) => Some(z),
        (Kind::Word, Value::Word(word)) => word_value(word),
        (Kind::Number, Value::Word(_)) | (Kind::Word, Value::Number(_)) => None,
    }
}

fn take_as<'a>(words: &mut Words<'a>, kind: Kind) -> Option<i64>
    ensures { MatchOption result (take_as kind (rest words.old) ≡ None) (λ z. take_as kind (rest words.old) ≡ Some (z, rest words.new)) }
{
    as_kind(take_value(words)?, kind)
}

// The values, one for each kind.
pub fn read_values(mut words: Words, kinds: &[Kind]) -> Option<Values>
    ensures { option_map items result ≡ fitted kinds.now (rest words.entry) }
{
    if kinds.len() > MOST_COLUMNS {
        return None;
    }
    let mut read = Values::new(0);
    for kind in kinds {
        read.push(take_as(&mut words, *kind)?);
    }
    take_end(&mut words)?;
    Some(read)
}

// Whether the word is no number outside the kind of numbers.
fn is_bounded(word: &[u8]) -> bool
    ensures { result ≡ bounded_word word.now }
{
    match read_value(word) {
        Some(Value::Number(z)) => Kind::Number.holds(z),
        Some(Value::Word(_)) | None => true,
    }
}

// Whether no word that is left is a number outside the kind of numbers.
pub fn all_bounded(mut words: Words) -> bool
    ensures { result ≡ all_bounded (rest words.entry) }
{
    words.all(|word| is_bounded(word.text))
}
