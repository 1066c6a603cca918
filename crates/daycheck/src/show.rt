// What the lines of a text say, as text.
use grammar::lines::{Line, Operand, Query};
use lists::show::{KindLetters, ValueText};
use relation::conditions::{Sign, Term};
use relation::kinds::Kind;
use relation::values::word_value;
use std::fmt;
use std::str::from_utf8;
use takers::tails::some_left;
use takers::{read_column, read_value};
use tallies::rules::Tally;
use words::reader::Words;
use words::tokens::Value;

// The bytes as text. Names always are.
fn shown(bytes: &[u8]) -> &str {
    from_utf8(bytes).unwrap_or("?")
}

#[derive(Clone, Copy)]
struct OperandText<'a>(Operand<'a>);

impl fmt::Display for OperandText<'_> {
    fn fmt<W: fmt::Write>(&self, f: &mut fmt::Formatter<W>) -> fmt::Result {
        f.write_str(shown(self.0.name))?;
        match self.0.during {
            Some((from, until)) => write!(f, " during {from} {until}"),
            None => Ok(()),
        }
    }
}

#[derive(Clone, Copy)]
struct SignText(Sign);

impl fmt::Display for SignText {
    fn fmt<W: fmt::Write>(&self, f: &mut fmt::Formatter<W>) -> fmt::Result {
        f.write_str(match self.0 {
            Sign::Equal => "=",
            Sign::NotEqual => "!=",
            Sign::Less => "<",
            Sign::LessEqual => "<=",
            Sign::Greater => ">",
            Sign::GreaterEqual => ">=",
        })
    }
}

#[derive(Clone, Copy)]
struct TermText(Term);

impl fmt::Display for TermText {
    fn fmt<W: fmt::Write>(&self, f: &mut fmt::Formatter<W>) -> fmt::Result {
        match self.0 {
            Term::Number(z) => write!(f, "{z}"),
            Term::Word(value) => {
                let kind = Kind::Word;
                write!(f, "{}", ValueText { kind, value })
            }
            Term::Column(k) => write!(f, "c{k}"),
        }
    }
}

// The word that begins a tail, and its columns, if it has any.
#[derive(Clone, Copy)]
struct ColumnsText<'a> {
    before: &'a str,
    columns: Words<'a>,
}

impl fmt::Display for ColumnsText<'_> {
    fn fmt<W: fmt::Write>(&self, f: &mut fmt::Formatter<W>) -> fmt::Result {
        let before = self.before;
        if some_left(self.columns) {
            write!(f, " {before}")?;
        }
        for word in self.columns {
            if let Some(k) = read_column(word.text) {
                write!(f, " c{k}")?;
            }
        }
        Ok(())
    }
}

fn value_text(value: Value) -> Option<ValueText> {
    Some(match value {
        Value::Number(value) => ValueText {
            kind: Kind::Number,
            value,
        },
        Value::Word(word) => ValueText {
            kind: Kind::Word,
            value: word_value(word)?,
        },
    })
}

#[derive(Clone, Copy)]
struct ValuesText<'a>(Words<'a>);

impl fmt::Display for ValuesText<'_> {
    fn fmt<W: fmt::Write>(&self, f: &mut fmt::Formatter<W>) -> fmt::Result {
        for word in self.0 {
            match read_value(word.text).and_then(|value| value_text(value)) {
                Some(text) => write!(f, " {text}")?,
                None => f.write_str(" ?")?,
            }
        }
        Ok(())
    }
}

// The verb of a tally and the new name, and the column that is tallied, if there is one.
#[derive(Clone, Copy)]
struct TallyText<'a> {
    tally: Tally,
    new: &'a str,
}

impl fmt::Display for TallyText<'_> {
    fn fmt<W: fmt::Write>(&self, f: &mut fmt::Formatter<W>) -> fmt::Result {
        let new = self.new;
        match self.tally {
            Tally::Count => write!(f, "count {new}"),
            Tally::Sum(k) => write!(f, "sum {new} of c{k}"),
            Tally::Min(k) => write!(f, "min {new} of c{k}"),
            Tally::Max(k) => write!(f, "max {new} of c{k}"),
        }
    }
}

// A new relation and the two that it is made of.
#[derive(Clone, Copy)]
struct BothText<'a> {
    new: &'a str,
    a: Operand<'a>,
    b: Operand<'a>,
}

impl fmt::Display for BothText<'_> {
    fn fmt<W: fmt::Write>(&self, f: &mut fmt::Formatter<W>) -> fmt::Result {
        let (a, b) = (OperandText(self.a), OperandText(self.b));
        write!(f, "{} of {a} and {b}", self.new)
    }
}

#[derive(Clone, Copy)]
struct QueryText<'a> {
    new: &'a str,
    query: Query<'a>,
}

impl fmt::Display for QueryText<'_> {
    fn fmt<W: fmt::Write>(&self, f: &mut fmt::Formatter<W>) -> fmt::Result {
        let new = self.new;
        match self.query {
            Query::Select(a, condition) => write!(
                f,
                "select {new} of {} where c{} {} {}",
                OperandText(a),
                condition.column,
                SignText(condition.sign),
                TermText(condition.term)
            ),
            Query::Project(a, columns) => {
                let before = "on";
                let on = ColumnsText { before, columns };
                write!(f, "project {new} of {}{on}", OperandText(a))
            }
            Query::Union(a, b) => write!(f, "union {}", BothText { new, a, b }),
            Query::Except(a, b) => write!(f, "except {}", BothText { new, a, b }),
            Query::Join(a, b, columns) => {
                let before = "on";
                let on = ColumnsText { before, columns };
                write!(f, "join {}{on}", BothText { new, a, b })
            }
            Query::Tally(tally, a, columns) => {
                let before = "by";
                let by = ColumnsText { before, columns };
                write!(f, "{} of {}{by}", TallyText { tally, new }, OperandText(a))
            }
        }
    }
}

// The form of a line and its parts.
#[derive(Clone, Copy)]
pub struct LineText<'a>(pub Line<'a>);

impl fmt::Display for LineText<'_> {
    fn fmt<W: fmt::Write>(&self, f: &mut fmt::Formatter<W>) -> fmt::Result {
        match self.0 {
            Line::Skip => Ok(()),
            Line::Load(name, kinds) => {
                let letters = KindLetters(kinds);
                write!(f, "load {} of kinds {letters}", shown(name))
            }
            Line::Row(parts) => {
                let values = ValuesText(parts.values);
                write!(
                    f,
                    "row from {} until {} of{values}",
                    parts.from, parts.until
                )
            }
            Line::End => f.write_str("end"),
            Line::Drop(name) => write!(f, "drop {}", shown(name)),
            Line::Show(name) => write!(f, "show {}", shown(name)),
            Line::Query(name, query) => {
                let new = shown(name);
                write!(f, "{}", QueryText { new, query })
            }
        }
    }
}
