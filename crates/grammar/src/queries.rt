// The nine queries: what stands after `NEW =`.
ghost use Rattle.std.specs.Prelude.{◌≡◌};
ghost use Rattle.std.specs.Option.{option_map};
ghost use Rattle.words.specs.Rest.{rest};
ghost use Rattle.grammar.specs.Said.{says_operand, says_query};
ghost use Rattle.grammar.specs.Grammar.{both, query_of, measured, says_measured, tallied};

use crate::keywords::Verb;
use crate::lines::{Operand, Query};
use crate::parts::{take_operand, take_reserved, take_term};
use crate::tails::{take_columns, take_groups, take_pairs};
use relation::conditions::Condition;
use takers::{take_column, take_end, take_sign};
use tallies::rules::Tally;
use words::names::Reserved;
use words::reader::Words;

fn select_query<'a>(words: &mut Words<'a>) -> Option<Query<'a>>
    ensures { option_map says_query result ≡ query_of Verb.Select (rest words.old) }
{
    let operand = take_operand(words)?;
    take_reserved(words, Reserved::Where)?;
    let column = take_column(words)?;
    let sign = take_sign(words)?;
    let term = take_term(words)?;
    take_end(words)?;
    Some(Query::Select(operand, Condition { column, sign, term }))
}

fn project_query<'a>(words: &mut Words<'a>) -> Option<Query<'a>>
    ensures { option_map says_query result ≡ query_of Verb.Project (rest words.old) }
{
    let operand = take_operand(words)?;
    take_reserved(words, Reserved::On)?;
    let columns = take_columns(words)?;
    Some(Query::Project(operand, columns))
}

// Two operands, and nothing after them.
fn take_both<'a>(words: &mut Words<'a>) -> Option<(Operand<'a>, Operand<'a>)>
    ensures { option_map (λ p. (says_operand p.0, says_operand p.1)) result ≡ both (rest words.old) }
{
    let a = take_operand(words)?;
    let b = take_operand(words)?;
    take_end(words)?;
    Some((a, b))
}

fn join_query<'a>(words: &mut Words<'a>) -> Option<Query<'a>>
    ensures { option_map says_query result ≡ query_of Verb.Join (rest words.old) }
{
    let a = take_operand(words)?;
    let b = take_operand(words)?;
    let pairs = take_pairs(words)?;
    Some(Query::Join(a, b, pairs))
}

fn count_query<'a>(words: &mut Words<'a>) -> Option<Query<'a>>
    ensures { option_map says_query result ≡ query_of Verb.Count (rest words.old) }
{
    let operand = take_operand(words)?;
    let groups = take_groups(words)?;
    Some(Query::Tally(Tally::Count, operand, groups))
}

// What stands after `sum NEW =`.
#[derive(Clone, Copy, Drop)]
pub(crate) struct Measure<'a> {
    operand: Operand<'a>,
    column: usize,
    groups: Words<'a>,
}

fn take_measure<'a>(words: &mut Words<'a>) -> Option<Measure<'a>>
    ensures { option_map says_measured result ≡ measured (rest words.old) }
{
    let operand = take_operand(words)?;
    take_reserved(words, Reserved::Of)?;
    let column = take_column(words)?;
    let groups = take_groups(words)?;
    Some(Measure {
        operand,
        column,
        groups,
    })
}

impl<'a> Measure<'a> {
    fn tally(self, tally: Tally) -> Query<'a>
        ensures { says_query result ≡ tallied tally (says_measured self.entry) }
    {
        Query::Tally(tally, self.operand, self.groups)
    }
}

// The query that its verb and the words after `NEW =` are.
pub(crate) fn read_query<'a>(verb: Verb, words: &mut Words<'a>) -> Option<Query<'a>>
    ensures { option_map says_query result ≡ query_of verb (rest words.old) }
{
    match verb {
        Verb::Select => select_query(words),
        Verb::Project => project_query(words),
        Verb::Union => take_both(words).map(|(a, b)| Query::Union(a, b)),
        Verb::Except => take_both(words).map(|(a, b)| Query::Except(a, b)),
        Verb::Join => join_query(words),
        Verb::Count => count_query(words),
        Verb::Sum => take_measure(words).map(|m| m.tally(Tally::Sum(m.column))),
        Verb::Min => take_measure(words).map(|m| m.tally(Tally::Min(m.column))),
        Verb::Max => take_measure(words).map(|m| m.tally(Tally::Max(m.column))),
    }
}
