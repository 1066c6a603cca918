// The condition by which a selection keeps tuples.
ghost use Rattle.std.specs.Prelude.{◌≡◌};
ghost use Rattle.relation.specs.Operations.{compares};

#[derive(Clone, Copy, PartialEq, Eq, Debug)]
pub enum Sign {
    Equal,
    NotEqual,
    Less,
    LessEqual,
    Greater,
    GreaterEqual,
}

impl Sign {
    // Whether x stands in this relation to y.
    pub fn compares(self, x: i64, y: i64) -> bool
        ensures { result ≡ compares self x y }
    {
        match self {
            Sign::Equal => x == y,
            Sign::NotEqual => x != y,
            Sign::Less => x < y,
            Sign::LessEqual => x <= y,
            Sign::Greater => x > y,
            Sign::GreaterEqual => x >= y,
        }
    }
}

// What a column is compared with: a number, a word (held as a number), or another column.
#[derive(Clone, Copy, PartialEq, Eq, Debug)]
pub enum Term {
    Number(i64),
    Word(i64),
    Column(usize),
}

// A column, counted from 1, that is compared with a term.
#[derive(Clone, Copy, PartialEq, Eq, Debug)]
pub struct Condition {
    pub column: usize,
    pub sign: Sign,
    pub term: Term,
}
