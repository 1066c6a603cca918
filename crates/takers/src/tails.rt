// The open tails of a line, lines that say nothing, and what a row's line says.
ghost use Rattle.std.specs.Prelude.{◌≡◌, length, ◌==◌, nat_le, slice_index};
ghost use Rattle.std.specs.Option.{option_map};
ghost use Rattle.words.specs.Words.{words as words_of};
ghost use Rattle.words.specs.Rest.{rest, texts};
ghost use Rattle.takers.specs.Take.{is_value, all_values, take_row, says_row, is_blank};

use crate::{read_value, take_number};
use words::reader::Words;

// The days of a row's line, and the words that are its values.
#[derive(Clone, Copy, Drop)]
pub struct RowParts<'a> {
    pub from: i64,
    pub until: i64,
    pub values: Words<'a>,
}

// Whether a word is left.
pub fn some_left(mut words: Words) -> bool
    ensures { result ≡ nat_le 1 (length (rest words.entry)) }
{
    words.next().is_some()
}

fn is_value(word: &[u8]) -> bool
    ensures { result ≡ is_value word.now }
{
    read_value(word).is_some()
}

// Whether all words that are left are values.
pub fn all_values(mut words: Words) -> bool
    ensures { result ≡ all_values (rest words.entry) }
{
    words.all(|word| is_value(word.text))
}

// Reads FROM UNTIL VALUE .., with one value or more.
pub fn take_row<'a>(words: &mut Words<'a>) -> Option<RowParts<'a>>
    ensures { option_map says_row result ≡ take_row (rest words.old) }
{
    let from = take_number(words)?;
    let until = take_number(words)?;
    let values = *words;
    (some_left(values) && all_values(values)).then_some(RowParts {
        from,
        until,
        values,
    })
}

fn is_comment(word: &[u8]) -> bool
    ensures { result ≡ (slice_index word.now 0 == 35) }
{
    matches!(word, [b'#', ..])
}

// Whether a line has no word, or its first word begins with #.
pub fn is_blank(line: &[u8]) -> bool
    ensures { result ≡ is_blank (texts (words_of line.now)) }
{
    Words::new(line)
        .next()
        .is_none_or(|first| is_comment(first.text))
}
