// The forms of a line.
ghost use Rattle.std.specs.Prelude.{◌≡◌, Some};
ghost use Rattle.std.specs.Option.{option_map};
ghost use Rattle.words.specs.Words.{words as words_of};
ghost use Rattle.words.specs.Rest.{rest, texts};
ghost use Rattle.grammar.specs.Said.{says};
ghost use Rattle.grammar.specs.Grammar.{only_name, form, worded, line_of};
ghost use Rattle.grammar.specs.Language.{Reads, OneReading};

use crate::keywords::{Keyword, Verb, find_keyword};
use crate::lines::Line;
use crate::queries::read_query;
use takers::tails::{is_blank, take_row};
use takers::{take_end, take_equals, take_kinds, take_name};
use words::reader::Words;

fn load_form<'a>(words: &mut Words<'a>) -> Option<Line<'a>>
    ensures { option_map says result ≡ form (Some Keyword.Load) (rest words.old) }
{
    let name = take_name(words)?;
    let kinds = take_kinds(words)?;
    take_end(words)?;
    Some(Line::Load(name, kinds))
}

fn end_form<'a>(words: &mut Words<'a>) -> Option<Line<'a>>
    ensures { option_map says result ≡ form (Some Keyword.End) (rest words.old) }
{
    take_end(words)?;
    Some(Line::End)
}

// A name, and nothing after it.
fn only_name<'a>(words: &mut Words<'a>) -> Option<&'a [u8]>
    ensures { option_map (λ n. n.now) result ≡ only_name (rest words.old) }
{
    let name = take_name(words)?;
    take_end(words)?;
    Some(name)
}

fn query_form<'a>(verb: Verb, words: &mut Words<'a>) -> Option<Line<'a>>
    ensures { option_map says result ≡ form (Some (Keyword.Query verb)) (rest words.old) }
{
    let new = take_name(words)?;
    take_equals(words)?;
    let query = read_query(verb, words)?;
    Some(Line::Query(new, query))
}

// The form that the first word of the line decides.
fn read_form<'a>(keyword: Keyword, words: &mut Words<'a>) -> Option<Line<'a>>
    ensures { option_map says result ≡ form (Some keyword) (rest words.old) }
{
    match keyword {
        Keyword::Load => load_form(words),
        Keyword::Row => Some(Line::Row(take_row(words)?)),
        Keyword::End => end_form(words),
        Keyword::Drop => Some(Line::Drop(only_name(words)?)),
        Keyword::Show => Some(Line::Show(only_name(words)?)),
        Keyword::Query(verb) => query_form(verb, words),
    }
}

fn read_words<'a>(line: &'a [u8]) -> Option<Line<'a>>
    ensures { option_map says result ≡ worded (texts (words_of line.now)) }
{
    let mut words = Words::new(line);
    let first = words.next()?;
    let keyword = find_keyword(first.text)?;
    read_form(keyword, &mut words)
}

// What a line says, if it has one of the forms.
pub fn read_line<'a>(line: &'a [u8]) -> Option<Line<'a>>
    ensures value { option_map says result ≡ line_of (texts (words_of line.now)) }
    ensures reads { Reads (texts (words_of line.now)) (option_map says result) }
{
    if is_blank(line) {
        Some(Line::Skip)
    } else {
        read_words(line)
    }
}

// The words of a line write at most one line.
pub fn one_reading()
    ensures { OneReading }
{}
