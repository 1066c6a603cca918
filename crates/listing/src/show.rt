// The same texts for a formatter.
ghost use Rattle.std.specs.Prelude.{⊤};

use crate::list::{put_letters, put_list};
use crate::rows::{put_line, put_value};
use crate::sinks::{NumberSink, Sink};
use relation::columns::Kinds;
use relation::kinds::Kind;
use relation::rows::Row;
use std::fmt;

// A formatter, and whether it has taken all parts so far. What a formatter takes is not said: a part may fail.
#[derive(Drop)]
struct Shown<'f, W> {
    formatter: &'f mut fmt::Formatter<W>,
    result: fmt::Result,
}

impl<'f, W: fmt::Write> Shown<'f, W> {
    fn new(formatter: &'f mut fmt::Formatter<W>) -> Shown<'f, W> {
        Shown {
            formatter,
            result: Ok(()),
        }
    }
}

impl<W: fmt::Write> Sink for Shown<'_, W> {
    ghost takes = { λ _ _ _. ⊤ };

    ghost nothing = { λ _. tt };

    ghost both = { λ _ _ _ _ _ _ _. tt };

    fn put(&mut self, part: &[u8]) {
        for b in part {
            if self.result.is_ok() {
                self.result = self.formatter.write_char(*b as char);
            }
        }
    }
}

// By the library, which hands all digits over at once.
impl<W: fmt::Write> NumberSink for Shown<'_, W> {
    fn put_decimal(&mut self, n: u64) {
        if self.result.is_ok() {
            self.result = write!(self.formatter, "{n}");
        }
    }
}

// The letters of a relation's kinds.
#[derive(Clone, Copy)]
pub struct KindLetters(pub Kinds);

impl fmt::Display for KindLetters {
    fn fmt<W: fmt::Write>(&self, f: &mut fmt::Formatter<W>) -> fmt::Result {
        let mut shown = Shown::new(f);
        put_letters(&mut shown, self.0.as_slice());
        shown.result
    }
}

// A value of a kind: a number, or a word in single quotes.
#[derive(Clone, Copy)]
pub struct ValueText {
    pub kind: Kind,
    pub value: i64,
}

impl fmt::Display for ValueText {
    fn fmt<W: fmt::Write>(&self, f: &mut fmt::Formatter<W>) -> fmt::Result {
        let mut shown = Shown::new(f);
        put_value(&mut shown, self.kind, self.value);
        shown.result
    }
}

// The line of a row, without its end.
#[derive(Clone, Copy)]
pub struct RowLine {
    pub row: Row,
    pub kinds: Kinds,
}

impl fmt::Display for RowLine {
    fn fmt<W: fmt::Write>(&self, f: &mut fmt::Formatter<W>) -> fmt::Result {
        let mut shown = Shown::new(f);
        put_line(&mut shown, self.kinds.as_slice(), &self.row);
        shown.result
    }
}

// A whole list.
#[derive(Clone, Copy)]
pub struct ListText<'a> {
    pub name: &'a [u8],
    pub kinds: Kinds,
    pub rows: &'a [Row],
}

impl fmt::Display for ListText<'_> {
    fn fmt<W: fmt::Write>(&self, f: &mut fmt::Formatter<W>) -> fmt::Result {
        let mut shown = Shown::new(f);
        put_list(&mut shown, self.name, self.kinds.as_slice(), self.rows);
        shown.result
    }
}
