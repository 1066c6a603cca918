// The first word of a line, which decides its form.
ghost use Rattle.std.specs.Prelude.{◌≡◌};
ghost use Rattle.std.specs.Result.{result_ok};
ghost use Rattle.grammar.specs.Keywords.{keyword};

use std::str::FromStr;
use words::names::{UnknownWord, find};

// The nine queries.
#[derive(Clone, Copy, Drop)]
pub enum Verb {
    Select,
    Project,
    Union,
    Except,
    Join,
    Count,
    Sum,
    Min,
    Max,
}

#[derive(Clone, Copy, Drop)]
pub enum Keyword {
    Load,
    Row,
    End,
    Drop,
    Show,
    Query(Verb),
}

impl FromStr for Keyword {
    type Err = UnknownWord;

    ghost from_str_gives = { λ text r. result_ok r ≡ keyword text };

    fn from_str(text: &str) -> Result<Keyword, UnknownWord> {
        match text {
            "load" => Ok(Keyword::Load),
            "row" => Ok(Keyword::Row),
            "end" => Ok(Keyword::End),
            "drop" => Ok(Keyword::Drop),
            "show" => Ok(Keyword::Show),
            "select" => Ok(Keyword::Query(Verb::Select)),
            "project" => Ok(Keyword::Query(Verb::Project)),
            "union" => Ok(Keyword::Query(Verb::Union)),
            "except" => Ok(Keyword::Query(Verb::Except)),
            "join" => Ok(Keyword::Query(Verb::Join)),
            "count" => Ok(Keyword::Query(Verb::Count)),
            "sum" => Ok(Keyword::Query(Verb::Sum)),
            "min" => Ok(Keyword::Query(Verb::Min)),
            "max" => Ok(Keyword::Query(Verb::Max)),
            _ => Err(UnknownWord),
        }
    }
}

// The keyword that a word is, if it is one.
pub fn find_keyword(word: &[u8]) -> Option<Keyword>
    ensures { result ≡ keyword word.now }
{
    find(word)
}
