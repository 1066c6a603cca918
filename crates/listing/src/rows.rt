// The line of a row.
ghost use Rattle.std.specs.Prelude.{◌≡◌, length};
ghost use Rattle.relation.specs.Stored.{meant};
ghost use Rattle.relation.specs.Values.{word_text};
ghost use Rattle.listing.specs.Text.{spelled, value_text, values_text, line_text, row_text};

use crate::numbers::put_number;
use crate::sinks::{NumberSink, Sink};
use relation::kinds::Kind;
use relation::rows::Row;
use relation::values::word_text;

// The bytes of the word that the value is, if it is one.
fn put_spelling<S: Sink>(sink: &mut S, value: i64)
    ensures { S.takes sink.old (spelled (word_text value)) sink.new }
{
    if let Some(text) = word_text(value) {
        sink.put(text.as_slice());
    }
}

// A number, or a word in single quotes.
pub(crate) fn put_value<S: NumberSink>(sink: &mut S, kind: Kind, value: i64)
    ensures { S.takes sink.old (value_text kind value) sink.new }
{
    match kind {
        Kind::Number => put_number(sink, value),
        Kind::Word => {
            sink.put(b"'");
            put_spelling(sink, value);
            sink.put(b"'");
        }
    }
}

// The row's values, a space before each.
fn put_values<S: NumberSink>(sink: &mut S, kinds: &[Kind], row: &Row)
    ensures { S.takes sink.old (values_text kinds.now (meant (length kinds.now) row.now).tuple) sink.new }
{
    // Not a zip, which would end at the sixth value: a kind past it has 0.
    for (column, kind) in kinds.iter().enumerate() {
        sink.put(b" ");
        put_value(sink, *kind, row.column(column + 1));
    }
}

// FROM UNTIL VALUE .., without the end of the line.
pub(crate) fn put_line<S: NumberSink>(sink: &mut S, kinds: &[Kind], row: &Row)
    ensures { S.takes sink.old (line_text kinds.now (meant (length kinds.now) row.now)) sink.new }
{
    sink.put_decimal(row.first as u64);
    sink.put(b" ");
    sink.put_decimal(row.end as u64);
    put_values(sink, kinds, row);
}

// The line of a row.
pub(crate) fn put_row<S: NumberSink>(sink: &mut S, kinds: &[Kind], row: &Row)
    ensures { S.takes sink.old (row_text kinds.now (meant (length kinds.now) row.now)) sink.new }
{
    put_line(sink, kinds, row);
    sink.put(b"\n");
}
