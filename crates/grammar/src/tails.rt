// The open tails of a query: columns and pairs of columns.
ghost use Rattle.std.specs.Prelude.{◌≡◌, Bool, List, is_some};
ghost use Rattle.std.specs.Option.{option_map};
ghost use Rattle.words.specs.Rest.{rest};
ghost use Rattle.takers.specs.Take.{Text, column_at};
ghost use Rattle.grammar.specs.Said.{pair_at, Tells};
ghost use Rattle.grammar.specs.Grammar.{all_columns, all_pairs, filled, optionally, take_reserved, take_pairs, take_groups};

use crate::parts::take_if;
use takers::tails::some_left;
use takers::{read_column, take_end};
use words::names::Reserved;
use words::reader::Words;

// The columns that two words are.
pub fn read_pair(left: &[u8], right: &[u8]) -> Option<(usize, usize)>
    ensures { result ≡ pair_at left.now right.now }
{
    Some((read_column(left)?, read_column(right)?))
}

fn is_column(word: &[u8]) -> bool
    ensures { result ≡ is_some (column_at word.now) }
{
    read_column(word).is_some()
}

// Whether all words that are left are columns.
fn all_columns(mut words: Words) -> bool
    ensures { result ≡ all_columns (rest words.entry) }
{
    words.all(|word| is_column(word.text))
}

fn is_pair(left: &[u8], right: &[u8]) -> bool
    ensures { result ≡ is_some (pair_at left.now right.now) }
{
    read_pair(left, right).is_some()
}

// Whether the words that are left are pairs of columns.
fn all_pairs(mut words: Words) -> bool
    ensures { result ≡ all_pairs (rest words.entry) }
{
    // A turn takes two words: no iterator of the library gives two items at a time and tells of one that is left over.
    while let Some(one) = words.next() {
        let Some(two) = words.next() else {
            return false;
        };
        if !is_pair(one.text, two.text) {
            return false;
        }
    }
    true
}

// One word or more, all as wanted.
fn take_filled<'a, F: Fn(Words<'a>) -> bool>(words: Words<'a>, wanted: F) -> Option<Words<'a>>
    requires { F.IsAlwaysCallable wanted }
    ensures { (h : List Text → Bool) → Tells (F.post wanted) h → option_map rest result ≡ filled h (rest words.entry) }
{
    (some_left(words) && wanted(words)).then_some(words)
}

// Nothing, or the reserved word and one word or more, all as wanted.
fn take_optional<'a, F: Fn(Words<'a>) -> bool>(
    words: &mut Words<'a>,
    word: Reserved,
    wanted: F,
) -> Option<Words<'a>>
    requires { F.IsAlwaysCallable wanted }
    ensures { (h : List Text → Bool) → Tells (F.post wanted) h → option_map rest result ≡ optionally h (rest words.old) (take_reserved word (rest words.old)) }
{
    if take_if(words, word) {
        return take_filled(*words, wanted);
    }
    let none = *words;
    take_end(words)?;
    Some(none)
}

// One column or more, and nothing after them.
pub(crate) fn take_columns<'a>(words: &mut Words<'a>) -> Option<Words<'a>>
    ensures { option_map rest result ≡ filled all_columns (rest words.old) }
{
    take_filled(*words, |columns| all_columns(columns))
}

// Nothing, or `on` and pairs of columns.
pub(crate) fn take_pairs<'a>(words: &mut Words<'a>) -> Option<Words<'a>>
    ensures { option_map rest result ≡ take_pairs (rest words.old) }
{
    take_optional(words, Reserved::On, |pairs| all_pairs(pairs))
}

// Nothing, or `by` and columns.
pub(crate) fn take_groups<'a>(words: &mut Words<'a>) -> Option<Words<'a>>
    ensures { option_map rest result ≡ take_groups (rest words.old) }
{
    take_optional(words, Reserved::By, |columns| all_columns(columns))
}
