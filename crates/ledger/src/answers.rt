// What a line is answered with.
use relation::refusals::Refusal;
use std::error::Error;
use std::fmt;

#[derive(Clone, Copy, Debug)]
pub enum Answer {
    // A draft was begun, and its slip lies on the desk.
    Slip,
    // The rows that a relation has.
    Rows(usize),
    // The rows that were freed.
    Freed(usize),
    // The bytes that were written.
    Bytes(usize),
    // A setting of the program's own was changed.
    Set,
}

// Why a line is not done.
#[derive(Clone, Copy, Debug)]
pub enum Failure {
    Refused(Refusal),
    // No slip of that name lies on the desk.
    NoSlip,
    // The line is no command.
    NoCommand,
    // A slip found no place on the desk, and was spent.
    DeskFull,
}

impl fmt::Display for Answer {
    fn fmt<W: fmt::Write>(&self, f: &mut fmt::Formatter<W>) -> fmt::Result {
        match self {
            Answer::Slip => write!(f, "slip"),
            Answer::Rows(n) => write!(f, "{n} rows"),
            Answer::Freed(n) => write!(f, "{n} freed"),
            Answer::Bytes(n) => write!(f, "{n} bytes"),
            Answer::Set => write!(f, "set"),
        }
    }
}

impl fmt::Display for Failure {
    fn fmt<W: fmt::Write>(&self, f: &mut fmt::Formatter<W>) -> fmt::Result {
        match self {
            Failure::Refused(refusal) => write!(f, "{refusal}"),
            Failure::NoSlip => write!(f, "no slip"),
            Failure::NoCommand => write!(f, "no command"),
            Failure::DeskFull => write!(f, "desk full"),
        }
    }
}

impl Error for Failure {}

impl From<Refusal> for Failure {
    fn from(refusal: Refusal) -> Failure {
        Failure::Refused(refusal)
    }
}

// Bytes as text, each of them a character: a line may be typed that is no UTF-8.
#[derive(Clone, Copy)]
pub struct Typed<'a>(pub &'a [u8]);

impl fmt::Display for Typed<'_> {
    fn fmt<W: fmt::Write>(&self, f: &mut fmt::Formatter<W>) -> fmt::Result {
        for b in self.0 {
            f.write_char(*b as char)?;
        }
        Ok(())
    }
}
