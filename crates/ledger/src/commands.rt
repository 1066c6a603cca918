// The commands of the program's lines.
use crate::desk::Which;
use relation::bounds::MOST_COLUMNS;
use relation::few::Few;
use relation::kinds::Kind;
use relation::rows::Row;
use relation::values::word_value;
use takers::{read_value, take_end};
use words::kinds::read_letters;
use words::numbers::signed;
use words::reader::Words;
use words::tokens::Value;

// The most letters of kinds that a line may have: more than a relation takes, so that a call can refuse them.
const MOST_LETTERS: usize = 8;

// The kinds that a line's letters say.
pub type Letters = Few<Kind, MOST_LETTERS>;

#[derive(Clone, Copy, Drop)]
pub enum Command<'a> {
    // use 1, use 2: the register that takes the calls from here on.
    Use(Which),
    // work N: how many entries of each work area are handed to publish.
    Work(usize),
    // output N: how many bytes of output are handed to show.
    Output(usize),
    // draft NAME KINDS
    Draft(&'a [u8], Letters),
    // put NAME KINDS FROM UNTIL VALUE ..: a row, its kinds, and the slip of the draft NAME.
    Put(&'a [u8], Letters, Row),
    // publish NAME
    Publish(&'a [u8]),
    // abandon NAME
    Abandon(&'a [u8]),
    // drop NAME
    Drop(&'a [u8]),
    // show NAME
    Show(&'a [u8]),
}

// A number that fits its type: a size, or a day.
fn take_number<T: TryFrom<i64>>(words: &mut Words<'_>) -> Option<T>
where
    T::Error: Drop,
{
    T::try_from(signed(words.next()?.text)?).ok()
}

// The register of a number: 2 is the second, and each other number the first.
fn take_register(words: &mut Words<'_>) -> Option<Which> {
    let number: usize = take_number(words)?;
    if number == 2 {
        Some(Which::Second)
    } else {
        Some(Which::First)
    }
}

// Letters n and w; a hyphen stands for none.
fn take_letters(words: &mut Words<'_>) -> Option<Letters> {
    let text = words.next()?.text;
    if text == b"-".as_slice() {
        return Some(Letters::new(Kind::Number));
    }
    read_letters(text)
}

// The number that a value is held as.
fn held(word: &[u8]) -> Option<i64> {
    match read_value(word)? {
        Value::Number(z) => Some(z),
        Value::Word(bytes) => word_value(bytes),
    }
}

// FROM UNTIL VALUE .., with six values at the most; the others are 0.
fn take_row(words: &mut Words<'_>) -> Option<Row> {
    let first = take_number(words)?;
    let end = take_number(words)?;
    let mut values = [0; MOST_COLUMNS];
    for value in &mut values {
        if let Some(word) = words.next() {
            *value = held(word.text)?;
        }
    }
    Some(Row { first, end, values })
}

// The command of a line's first word, with the words behind it.
fn take_command<'a>(words: &mut Words<'a>) -> Option<Command<'a>> {
    let command = match words.next()?.text {
        b"use" => Command::Use(take_register(words)?),
        b"work" => Command::Work(take_number(words)?),
        b"output" => Command::Output(take_number(words)?),
        b"draft" => Command::Draft(words.next()?.text, take_letters(words)?),
        b"put" => Command::Put(words.next()?.text, take_letters(words)?, take_row(words)?),
        b"publish" => Command::Publish(words.next()?.text),
        b"abandon" => Command::Abandon(words.next()?.text),
        b"drop" => Command::Drop(words.next()?.text),
        b"show" => Command::Show(words.next()?.text),
        _ => return None,
    };
    Some(command)
}

// What a line asks for; none where it is no command.
pub fn read_command<'a>(line: &'a [u8]) -> Option<Command<'a>> {
    let mut words = Words::new(line);
    let command = take_command(&mut words)?;
    take_end(&mut words)?;
    Some(command)
}
