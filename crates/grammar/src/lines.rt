// What a line says. Its names and tails are parts of the script.
use relation::columns::Kinds;
use relation::conditions::Condition;
use takers::tails::RowParts;
use tallies::rules::Tally;
use words::reader::Words;

// A relation that a query reads, whole or during the days from one number up to another.
#[derive(Clone, Copy, Drop)]
pub struct Operand<'a> {
    pub name: &'a [u8],
    pub during: Option<(i64, i64)>,
}

#[derive(Clone, Copy, Drop)]
pub enum Query<'a> {
    Select(Operand<'a>, Condition),
    // the words that are the columns
    Project(Operand<'a>, Words<'a>),
    Union(Operand<'a>, Operand<'a>),
    Except(Operand<'a>, Operand<'a>),
    // the words that are the pairs of columns, left and right
    Join(Operand<'a>, Operand<'a>, Words<'a>),
    // the words that are the grouping columns
    Tally(Tally, Operand<'a>, Words<'a>),
}

#[derive(Clone, Copy, Drop)]
pub enum Line<'a> {
    // no word, or a comment
    Skip,
    Load(&'a [u8], Kinds),
    Row(RowParts<'a>),
    End,
    Drop(&'a [u8]),
    Show(&'a [u8]),
    // the new name
    Query(&'a [u8], Query<'a>),
}
