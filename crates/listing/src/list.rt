// A whole list as text.
ghost use Rattle.std.specs.Prelude.{◌≡◌, map, length};
ghost use Rattle.std.specs.List.{flat_map};
ghost use Rattle.relation.specs.Stored.{meant};
ghost use Rattle.listing.specs.Text.{letter, header_text, row_text, list_text, Writes};

use crate::rows::put_row;
use crate::sinks::{NumberSink, Output, Room, Sink};
use relation::kinds::Kind;
use relation::refusals::{Reason, Refusal};
use relation::rows::Row;

// n for numbers, w for words.
fn letter_of(kind: Kind) -> u8
    ensures { result ≡ letter kind }
{
    match kind {
        Kind::Number => b'n',
        Kind::Word => b'w',
    }
}

// A letter for each kind.
pub(crate) fn put_letters<S: Sink>(sink: &mut S, kinds: &[Kind])
    ensures { S.takes sink.old (map letter kinds.now) sink.new }
{
    for kind in kinds {
        sink.put(&[letter_of(*kind)]);
    }
}

// NAME KINDS ROWS
fn put_header<S: NumberSink>(sink: &mut S, name: &[u8], kinds: &[Kind], count: usize)
    ensures { S.takes sink.old (header_text name.now kinds.now count) sink.new }
{
    sink.put(name);
    sink.put(b" ");
    put_letters(sink, kinds);
    sink.put(b" ");
    sink.put_decimal(count as u64);
    sink.put(b"\n");
}

fn put_rows<S: NumberSink>(sink: &mut S, kinds: &[Kind], rows: &[Row])
    ensures { S.takes sink.old (flat_map (row_text kinds.now) (map (meant (length kinds.now)) rows.now)) sink.new }
{
    for row in rows {
        put_row(sink, kinds, row);
    }
}

// The whole text.
pub(crate) fn put_list<S: NumberSink>(sink: &mut S, name: &[u8], kinds: &[Kind], rows: &[Row])
    ensures { S.takes sink.old (list_text name.now kinds.now (map (meant (length kinds.now)) rows.now)) sink.new }
{
    put_header(sink, name, kinds, rows.len());
    put_rows(sink, kinds, rows);
}

// Writes the text of the rows: a line `NAME KINDS ROWS`, then a line `FROM UNTIL VALUE ..` for each, in their order.
// A value past the sixth is 0. Refused by `Reason::ShortOutput`, with nothing written, where the text does not fit whole.
pub fn write_list(
    name: &[u8],
    kinds: &[Kind],
    rows: &[Row],
    output: &mut [u8],
) -> Result<usize, Refusal>
    ensures { Writes (list_text name.now kinds.now (map (meant (length kinds.now)) rows.now)) result output.old output.new }
{
    let mut room = Room(Some(output.len()));
    put_list(&mut room, name, kinds, rows);
    let left = room.0.ok_or(Reason::ShortOutput)?;
    let size = output.len() - left;
    let mut written = Output {
        bytes: output,
        at: 0,
    };
    put_list(&mut written, name, kinds, rows);
    Ok(size)
}
