// Numbers in plain decimal, by hand: they go into any sink, whose contract says which bytes; which bytes a formatter is given is not said.
ghost use Rattle.std.specs.Prelude.{◌≡◌, ◌+◌, ◌<◌, [], ◌∷◌, decimal};
ghost use Rattle.std.specs.Fmt.{signed_decimal};
ghost use Rattle.listing.specs.Text.{sign};

use crate::sinks::{NumberSink, Sink};

fn put_digit<S: Sink>(sink: &mut S, digit: u64)
    requires { digit < 10 }
    ensures { S.takes sink.old ((48 + digit) ∷ []) sink.new }
{
    sink.put(&[b'0' + digit as u8]);
}

pub(crate) fn put_digits<S: Sink>(sink: &mut S, n: u64)
    ensures { S.takes sink.old (decimal n) sink.new }
{
    if n < 10 {
        put_digit(sink, n);
    } else {
        put_digits(sink, n / 10);
        put_digit(sink, n % 10);
    }
}

// The minus sign of a number below 0.
fn put_sign<S: Sink>(sink: &mut S, z: i64)
    ensures { S.takes sink.old (sign z) sink.new }
{
    if z < 0 {
        sink.put(b"-");
    }
}

pub(crate) fn put_number<S: NumberSink>(sink: &mut S, z: i64)
    ensures { S.takes sink.old (signed_decimal z) sink.new }
{
    put_sign(sink, z);
    sink.put_decimal(z.unsigned_abs());
}
