// A text's lines. Byte 10 ends each, and the last may lack it.
ghost use Rattle.std.specs.Prelude.{◌≡◌};

use crate::search::length_before;

const LINE_END: u8 = b'\n';

// The lines of a text from the start of a line on.
#[derive(Clone, Copy, Drop)]
pub struct Lines<'a> {
    rest: &'a [u8],
}

impl<'a> Lines<'a> {
    ghost use Rattle.words.specs.Rest.{lines_left};
    ghost use Rattle.words.specs.Lines.{lines as lines_of};

    pub fn new(text: &'a [u8]) -> Lines<'a>
        ensures { lines_left result ≡ lines_of text.now }
    {
        Lines { rest: text }
    }
}

// The next line, if there is one.
impl<'a> Iterator for Lines<'a> {
    ghost use Rattle.std.specs.Iterator.{YieldsFirstRef, item_count};
    ghost use Rattle.words.specs.Rest.{lines_left};

    type Item = &'a [u8];

    ghost next_gives = { YieldsFirstRef lines_left };

    ghost remaining = { item_count lines_left };

    fn next(&mut self) -> Option<&'a [u8]> {
        if self.rest.is_empty() {
            return None;
        }
        let length = length_before(self.rest, LINE_END);
        let (line, rest) = self.rest.split_at(length);
        self.rest = rest.get(1..).unwrap_or(rest);
        Some(line)
    }
}
