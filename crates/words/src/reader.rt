// A line's words. Spaces part them.
ghost use Rattle.std.specs.Prelude.{◌≡◌, not, ◌==◌, ⊤};
ghost use Rattle.std.specs.List.{position};

use crate::search::length_before;

const SPACE: u8 = b' ';

// A word, and the place of its first byte in the line.
#[derive(Clone, Copy, Drop)]
pub struct Word<'a> {
    pub text: &'a [u8],
    pub place: usize,
}

// The words of a line from a place on that is in no word.
#[derive(Clone, Copy, Drop)]
pub struct Words<'a> {
    line: &'a [u8],
    at: usize,
}

// How many spaces stand before the first other byte, if there is one.
fn leading_spaces(bytes: &[u8]) -> Option<usize>
    ensures { result ≡ position (λ b. not (b == 32)) bytes.now }
{
    bytes.iter().position(|b| *b != SPACE)
}

impl<'a> Words<'a> {
    ghost use Rattle.words.specs.Words.{words as words_of};
    ghost use Rattle.words.specs.Rest.{words_left};

    pub fn new(line: &'a [u8]) -> Words<'a>
        ensures { words_left result ≡ words_of line.now }
    {
        Words { line, at: 0 }
    }
}

// The next word, if there is one.
impl<'a> Iterator for Words<'a> {
    ghost use Rattle.std.specs.Iterator.{YieldsFirstBy, MakesProgress, item_count};
    ghost use Rattle.words.specs.Rest.{words_left};

    type Item = Word<'a>;

    ghost next_gives = { YieldsFirstBy (λ w. (w.place, w.text.now)) words_left };

    ghost remaining = { item_count words_left };

    fn next(&mut self) -> Option<Word<'a>>
        ensures steps { (self.new.line ≡ self.old.line) × YieldsFirstBy (λ w. (w.place, w.text.now)) words_left self.old result self.new }
        ensures goes { MakesProgress (λ _. ⊤) (item_count words_left) self.old result self.new }
    {
        let ahead = self.line.get(self.at..)?;
        let Some(spaces) = leading_spaces(ahead) else {
            // To the end, so that a further question does not go over these spaces again.
            self.at = self.line.len();
            return None;
        };
        let place = self.at + spaces;
        let word = &self.line[place..];
        let text = &word[..length_before(word, SPACE)];
        self.at = place + text.len();
        Some(Word { text, place })
    }
}
