// Takes what is wanted from the front of a line's words: names, numbers, values, columns, signs, kinds, whole rows.
#![tactic(auto)]

ghost use Rattle.std.specs.Prelude.{◌≡◌, ℕ, List, ◌∷◌, IfSome, Some, None, MatchOption};
ghost use Rattle.std.specs.Option.{option_map};
ghost use Rattle.relation.specs.Few.{items};
ghost use Rattle.words.specs.Rest.{rest, words_left};
ghost use Rattle.words.specs.Token.{means, token};
ghost use Rattle.takers.specs.Take.{take_token, name_in, number_in, value_in, column_in, sign_in, means_value, value_of, column_at, take_name, take_number, take_value, take_column, take_sign, take_equals, take_kinds, nothing};

use relation::columns::Kinds;
use relation::conditions::Sign;
use words::kinds::read_kinds;
use words::reader::Words;
use words::tokens::{Placed, Position, Token, Value, read_token};

pub mod tails;

// Each of these asks for a variant of Token: variants are no types, so that a type parameter could not name the one.
fn as_name<'a>(token: Token<'a>) -> Option<&'a [u8]>
    ensures { option_map (λ x. x.now) result ≡ name_in (means token.entry) }
{
    match token {
        Token::Name(name) => Some(name),
        _ => None,
    }
}

fn as_number(token: Token) -> Option<i64>
    ensures { result ≡ number_in (means token.entry) }
{
    match token {
        Token::Number(z) => Some(z),
        _ => None,
    }
}

fn as_value<'a>(token: Token<'a>) -> Option<Value<'a>>
    ensures { option_map means_value result ≡ value_in (means token.entry) }
{
    match token {
        Token::Number(z) => Some(Value::Number(z)),
        Token::Quoted(q) => Some(Value::Word(q)),
        _ => None,
    }
}

fn as_column(token: Token) -> Option<usize>
    ensures { result ≡ column_in (means token.entry) }
{
    match token {
        Token::Column(k) => Some(k),
        _ => None,
    }
}

fn as_sign(token: Token) -> Option<Sign>
    ensures { result ≡ sign_in (means token.entry) }
{
    match token {
        Token::Sign(s) => Some(s),
        _ => None,
    }
}

// The value that a word is.
pub fn read_value<'a>(word: &'a [u8]) -> Option<Value<'a>>
    ensures { option_map means_value result ≡ value_of word.now }
{
    as_value(read_token(word, Position::Name)?)
}

// The column that a word is.
pub fn read_column(word: &[u8]) -> Option<usize>
    ensures { result ≡ column_at word.now }
{
    as_column(read_token(word, Position::Column)?)
}

// The next word as a token, with the place where it stands.
pub fn take_token<'a>(words: &mut Words<'a>, position: Position) -> Option<Placed<'a>>
    ensures taken { MatchOption result (take_token position (rest words.old) ≡ None) (λ t. take_token position (rest words.old) ≡ Some (means t.token, rest words.new)) }
    ensures placed { IfSome result (λ t. (w : List ℕ) × (words_left words.old ≡ (t.place, w) ∷ words_left words.new) × (token position w ≡ Some (means t.token))) }
{
    let word = words.next()?;
    let token = read_token(word.text, position)?;
    Some(Placed {
        token,
        place: word.place,
    })
}

// Each taker is one line: one for all would take a position and a closure, and say its result by the closure's relation.
pub fn take_name<'a>(words: &mut Words<'a>) -> Option<&'a [u8]>
    ensures { MatchOption result (take_name (rest words.old) ≡ None) (λ n. take_name (rest words.old) ≡ Some (n.now, rest words.new)) }
{
    as_name(take_token(words, Position::Name)?.token)
}

pub fn take_number<'a>(words: &mut Words<'a>) -> Option<i64>
    ensures { MatchOption result (take_number (rest words.old) ≡ None) (λ z. take_number (rest words.old) ≡ Some (z, rest words.new)) }
{
    as_number(take_token(words, Position::Name)?.token)
}

pub fn take_value<'a>(words: &mut Words<'a>) -> Option<Value<'a>>
    ensures { MatchOption result (take_value (rest words.old) ≡ None) (λ v. take_value (rest words.old) ≡ Some (means_value v, rest words.new)) }
{
    as_value(take_token(words, Position::Name)?.token)
}

pub fn take_column<'a>(words: &mut Words<'a>) -> Option<usize>
    ensures { MatchOption result (take_column (rest words.old) ≡ None) (λ k. take_column (rest words.old) ≡ Some (k, rest words.new)) }
{
    as_column(take_token(words, Position::Column)?.token)
}

pub fn take_sign<'a>(words: &mut Words<'a>) -> Option<Sign>
    ensures { MatchOption result (take_sign (rest words.old) ≡ None) (λ s. take_sign (rest words.old) ≡ Some (s, rest words.new)) }
{
    as_sign(take_token(words, Position::Name)?.token)
}

pub fn take_equals<'a>(words: &mut Words<'a>) -> Option<()>
    ensures { MatchOption result (take_equals (rest words.old) ≡ None) (λ _. take_equals (rest words.old) ≡ Some (rest words.new)) }
{
    (take_sign(words)? == Sign::Equal).then_some(())
}

pub fn take_kinds<'a>(words: &mut Words<'a>) -> Option<Kinds>
    ensures { MatchOption result (take_kinds (rest words.old) ≡ None) (λ ks. take_kinds (rest words.old) ≡ Some (items ks, rest words.new)) }
{
    read_kinds(words.next()?.text)
}

// Nothing, if nothing follows.
pub fn take_end<'a>(words: &mut Words<'a>) -> Option<()>
    ensures { result ≡ nothing (rest words.old) }
{
    words.next().is_none().then_some(())
}
