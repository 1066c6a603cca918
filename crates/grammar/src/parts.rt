// The parts of a query: reserved words, operands, terms.
ghost use Rattle.std.specs.Prelude.{◌≡◌, true, false, if◌then◌else◌, Some, None, MatchOption};
ghost use Rattle.words.specs.Rest.{rest};
ghost use Rattle.words.specs.Token.{means};
ghost use Rattle.grammar.specs.Grammar.{take_reserved, window, operand as operand_in, term_in, take_term};
ghost use Rattle.grammar.specs.Said.{says_operand};

use crate::lines::Operand;
use relation::conditions::Term;
use relation::values::word_value;
use takers::{take_name, take_number, take_token};
use words::names::{Reserved, find_reserved};
use words::reader::Words;
use words::tokens::{Position, Token};

// Takes the reserved word.
pub(crate) fn take_reserved<'a>(words: &mut Words<'a>, wanted: Reserved) -> Option<()>
    ensures { MatchOption result (take_reserved wanted (rest words.old) ≡ None) (λ _. take_reserved wanted (rest words.old) ≡ Some (rest words.new)) }
{
    (find_reserved(words.next()?.text)? == wanted).then_some(())
}

// Whether the next word is the reserved one, which is then taken.
pub(crate) fn take_if<'a>(words: &mut Words<'a>, wanted: Reserved) -> bool
    ensures taken { take_reserved wanted (rest words.old) ≡ (if result then Some (rest words.new) else None) }
    ensures kept { result ≡ false → words.new ≡ words.old }
{
    let mut ahead = *words;
    let found = take_reserved(&mut ahead, wanted).is_some();
    if found {
        *words = ahead;
    }
    found
}

// Nothing, or `during FROM UNTIL`.
fn take_window<'a>(words: &mut Words<'a>) -> Option<Option<(i64, i64)>>
    ensures { MatchOption result (window (rest words.old) ≡ None) (λ d. window (rest words.old) ≡ Some (d, rest words.new)) }
{
    if !take_if(words, Reserved::During) {
        return Some(None);
    }
    let from = take_number(words)?;
    let until = take_number(words)?;
    Some(Some((from, until)))
}

// A name, perhaps followed by `during FROM UNTIL`.
pub fn take_operand<'a>(words: &mut Words<'a>) -> Option<Operand<'a>>
    ensures { MatchOption result (operand_in (rest words.old) ≡ None) (λ a. operand_in (rest words.old) ≡ Some (says_operand a, rest words.new)) }
{
    let name = take_name(words)?;
    let during = take_window(words)?;
    Some(Operand { name, during })
}

fn as_term(token: Token) -> Option<Term>
    ensures { result ≡ term_in (means token.entry) }
{
    match token {
        Token::Number(z) => Some(Term::Number(z)),
        Token::Quoted(q) => word_value(q).map(Term::Word),
        Token::Column(k) => Some(Term::Column(k)),
        _ => None,
    }
}

// A value or a column.
pub fn take_term<'a>(words: &mut Words<'a>) -> Option<Term>
    ensures { MatchOption result (take_term (rest words.old) ≡ None) (λ x. take_term (rest words.old) ≡ Some (x, rest words.new)) }
{
    as_term(take_token(words, Position::Column)?.token)
}
