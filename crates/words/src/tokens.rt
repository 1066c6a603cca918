// What a word is.
ghost use Rattle.std.specs.Prelude.{◌≡◌};
ghost use Rattle.std.specs.Option.{option_map};
ghost use Rattle.words.specs.Token.{means, token, column_of, quotation, short_sign, long_sign, sign_of};

use crate::names::is_name;
use crate::numbers::signed;
use relation::conditions::Sign;
use relation::values::is_word;

// What a word would be where it could be a name or a column. An enum and no closure: contracts say a token by its position.
#[derive(Clone, Copy, Drop)]
pub enum Position {
    Name,
    Column,
}

// A word of the text, whose bytes are the text's.
#[derive(Clone, Copy, Drop)]
pub enum Token<'a> {
    Name(&'a [u8]),
    Number(i64),
    Quoted(&'a [u8]),
    Column(usize),
    Sign(Sign),
}

// A token, and the place of its first byte in the line.
#[derive(Clone, Copy, Drop)]
pub struct Placed<'a> {
    pub token: Token<'a>,
    pub place: usize,
}

// A number, or the word that stood in single quotes.
#[derive(Clone, Copy, Drop)]
pub enum Value<'a> {
    Number(i64),
    Word(&'a [u8]),
}

fn read_quoted<'a>(after: &'a [u8]) -> Option<Token<'a>>
    ensures { option_map means result ≡ quotation after.now }
{
    let inner = after.strip_suffix(b"'")?;
    is_word(inner).then_some(Token::Quoted(inner))
}

fn read_column<'a>(word: &'a [u8]) -> Option<Token<'a>>
    ensures { option_map means result ≡ column_of word.now }
{
    match word {
        [b'c', digit @ b'1'..=b'6'] => Some(Token::Column((*digit - b'0') as usize)),
        _ => None,
    }
}

// Signs of one byte and of two, a function each, as the rules have them: a match on one char.
fn short_sign(b: u8) -> Option<Sign>
    ensures { result ≡ short_sign b }
{
    match b as char {
        '=' => Some(Sign::Equal),
        '<' => Some(Sign::Less),
        '>' => Some(Sign::Greater),
        _ => None,
    }
}

fn long_sign(b: u8) -> Option<Sign>
    ensures { result ≡ long_sign b }
{
    match b as char {
        '!' => Some(Sign::NotEqual),
        '<' => Some(Sign::LessEqual),
        '>' => Some(Sign::GreaterEqual),
        _ => None,
    }
}

fn read_sign(word: &[u8]) -> Option<Sign>
    ensures { result ≡ sign_of word.now }
{
    match word {
        [b] => short_sign(*b),
        [b, b'='] => long_sign(*b),
        _ => None,
    }
}

// The token that a word is. Its position in the line decides between a name and a column.
pub fn read_token<'a>(word: &'a [u8], position: Position) -> Option<Token<'a>>
    ensures { option_map means result ≡ token position word.now }
{
    let [first, rest @ ..] = word else {
        return None;
    };
    match *first as char {
        '\'' => read_quoted(rest),
        '-' | '0'..='9' => Some(Token::Number(signed(word)?)),
        '=' | '!' | '<' | '>' => Some(Token::Sign(read_sign(word)?)),
        _ => match position {
            Position::Name => is_name(word).then_some(Token::Name(word)),
            Position::Column => read_column(word),
        },
    }
}
