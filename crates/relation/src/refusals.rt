// When a call says no: the reason, and what the refusal carries.
ghost use Rattle.std.specs.Prelude.{◌≡◌};
ghost use Rattle.relation.specs.Refusals.{number, plain};

use std::error::Error;
use std::fmt;

// The reasons for which a call is refused. `number` has the number of each.
#[derive(Clone, Copy, PartialEq, Eq, Debug)]
pub enum Reason {
    // A script is over its size.
    ScriptSize,
    // A line has none of the forms.
    Form,
    // A name is malformed or taken, or not published where it is read or dropped.
    Name,
    // A column is missing, a join's right column is repeated, or kinds or counts do not fit.
    Misfit,
    // First day and end are no period.
    NoPeriod,
    // A value is out of its kind's bounds.
    OutOfBounds,
    // The directory has no free entry.
    NoEntry,
    // A work area is shorter than needed.
    ShortWork,
    // There is no free row.
    NoRow,
    // On some day a group's sum lies outside the kind of numbers.
    SumOutside,
    // An unused value of a row is not 0.
    UnusedValue,
    // The output does not fit whole.
    ShortOutput,
    // A layer would have too many places.
    TooManyPlaces,
    // The slip does not fit the register.
    SlipMisfit,
}

impl Reason {
    // A table, as the rules have it; as discriminants of the cases the numbers would say the same.
    pub fn number(self) -> u32
        ensures { result ≡ number self }
    {
        match self {
            Reason::ScriptSize => 1,
            Reason::Form => 2,
            Reason::Name => 3,
            Reason::Misfit => 4,
            Reason::NoPeriod => 5,
            Reason::OutOfBounds => 6,
            Reason::NoEntry => 7,
            Reason::ShortWork => 8,
            Reason::NoRow => 9,
            Reason::SumOutside => 10,
            Reason::UnusedValue => 11,
            Reason::ShortOutput => 12,
            Reason::TooManyPlaces => 13,
            Reason::SlipMisfit => 14,
        }
    }
}

// A refusal: the reason, the line of the script that it came from (0 outside scripts),
// and the bytes that the earlier lines of a stopped run wrote.
#[derive(Clone, Copy, PartialEq, Eq, Debug)]
pub struct Refusal {
    pub reason: Reason,
    pub line: usize,
    pub written: usize,
}

impl Refusal {
    // The refusal of a call outside scripts.
    pub fn plain(reason: Reason) -> Refusal
        ensures { result ≡ plain reason }
    {
        Refusal {
            reason,
            line: 0,
            written: 0,
        }
    }
}

impl From<Reason> for Refusal {
    ghost from_gives = { λ reason refusal. refusal ≡ plain reason };

    fn from(reason: Reason) -> Refusal {
        Refusal::plain(reason)
    }
}

impl fmt::Display for Refusal {
    fn fmt<W: fmt::Write>(&self, f: &mut fmt::Formatter<W>) -> fmt::Result {
        let number = self.reason.number();
        let line = self.line;
        let written = self.written;
        write!(f, "refused {number} {line} {written}")
    }
}

impl Error for Refusal {}
