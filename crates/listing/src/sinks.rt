// What takes a text, part by part: one sink finds whether there is room for the whole, one writes it to lent bytes, and one, in `show`, to a formatter.
ghost use Rattle.std.specs.Prelude.{◌≡◌, List, ℕ, [], ◌++◌, decimal};
ghost use Rattle.listing.specs.Sinks.{left_of, Extends};
ghost use Rattle.listing.specs.SinkLaws.{left_nothing, left_both, extends_nothing, extends_both};

use crate::numbers::put_digits;

pub(crate) trait Sink {
    // Relates the sink before, the text that it takes, and the sink after.
    ghost takes: { Self → List ℕ → Self → Type 0 };

    fn put(&mut self, part: &[u8])
        ensures { takes self.old part.now self.new };

    // A text without a byte changes nothing.
    ghost nothing: { (p : Self) → takes p [] p };

    // To take two texts is to take the text that they are together.
    ghost both: { (p q r : Self) (s t : List ℕ) → takes p s q → takes q t r → takes p (s ++ t) r };
}

// A sink that takes a number too, in plain decimal: digit by digit, but where it has a shorter way. A trait of its own, since
// `put_digits` asks for a sink.
pub(crate) trait NumberSink: Sink {
    fn put_decimal(&mut self, n: u64)
        ensures { Self.takes self.old (decimal n) self.new };
}

// How many bytes are left for a text; none once it does not fit.
#[derive(Clone, Copy)]
pub(crate) struct Room(pub(crate) Option<usize>);

impl Sink for Room {
    ghost takes = { λ p text q. q.0 ≡ left_of p.0 text };

    ghost nothing = { left_nothing };

    ghost both = { left_both };

    fn put(&mut self, part: &[u8]) {
        self.0 = self.0.and_then(|left| left.checked_sub(part.len()));
    }
}

impl NumberSink for Room {
    fn put_decimal(&mut self, n: u64) {
        put_digits(self, n);
    }
}

// Lent bytes, and where the next part begins. What does not fit is not written. A place and no rest of the bytes: contracts say what all
// of them hold, those written before too.
#[derive(Drop)]
pub(crate) struct Output<'a> {
    pub(crate) bytes: &'a mut [u8],
    pub(crate) at: usize,
}

impl Sink for Output<'_> {
    ghost takes = { Extends };

    ghost nothing = { extends_nothing };

    ghost both = { extends_both };

    fn put(&mut self, part: &[u8]) {
        let size = self.bytes.len();
        if part.len() <= size && self.at <= size - part.len() {
            let end = self.at + part.len();
            self.bytes[self.at..end].copy_from_slice(part);
            self.at = end;
        }
    }
}

impl NumberSink for Output<'_> {
    fn put_decimal(&mut self, n: u64) {
        put_digits(self, n);
    }
}
