// The line of a row.
ghost use Rattle.std.specs.Prelude.{◌≡◌};
ghost use Rattle.words.specs.Words.{words as words_of};
ghost use Rattle.words.specs.Rest.{texts};
ghost use Rattle.takers.specs.Take.{says_row};
ghost use Rattle.lists.specs.ListLines.{is_period, row_of, row_line, padded};
ghost use Rattle.lists.specs.ListLanguage.{ReadsRow};
ghost use Rattle.relation.specs.Few.{items};

use crate::values::{Values, all_bounded, read_values};
use relation::bounds::{END_OF_DAYS, MOST_COLUMNS};
use relation::kinds::Kind;
use relation::refusals::Reason;
use relation::rows::Row;
use takers::tails::{RowParts, take_row};
use words::reader::Words;

fn is_period(from: i64, until: i64) -> bool
    ensures { result ≡ is_period from until }
{
    0 <= from && from < until && until <= END_OF_DAYS as i64
}

// The values as a row stores them: unused ones are 0.
pub fn stored_values(values: &Values) -> [i64; MOST_COLUMNS]
    ensures { result ≡ padded (items values.now) }
{
    let values = values.as_slice();
    let mut stored = [0; MOST_COLUMNS];
    stored[..values.len()].copy_from_slice(values);
    stored
}

// The row that a line's parts say, the values as the kinds ask.
pub fn row_of(parts: RowParts, kinds: &[Kind]) -> Result<Row, Reason>
    ensures { result ≡ row_of kinds.now (says_row parts.entry) }
{
    let values = read_values(parts.values, kinds).ok_or(Reason::Misfit)?;
    if !is_period(parts.from, parts.until) {
        return Err(Reason::NoPeriod);
    }
    if !all_bounded(parts.values) {
        return Err(Reason::OutOfBounds);
    }
    Ok(Row {
        first: parts.from as u32,
        end: parts.until as u32,
        values: stored_values(&values),
    })
}

// Reads `FROM UNTIL VALUE ..`.
pub fn read_row(line: &[u8], kinds: &[Kind]) -> Result<Row, Reason>
    ensures value { result ≡ row_line kinds.now (texts (words_of line.now)) }
    ensures reads { ReadsRow kinds.now (texts (words_of line.now)) result }
{
    let parts = take_row(&mut Words::new(line)).ok_or(Reason::Form)?;
    row_of(parts, kinds)
}
