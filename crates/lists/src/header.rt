// The first line of a list: its name and kinds.
ghost use Rattle.std.specs.Prelude.{◌≡◌};
ghost use Rattle.std.specs.Option.{option_map as mapped_some};
ghost use Rattle.std.specs.Result.{result_map_both};
ghost use Rattle.words.specs.Words.{words as words_of};
ghost use Rattle.words.specs.Rest.{texts};
ghost use Rattle.lists.specs.ListLines.{header_line, header_of, says_header, two_words};
ghost use Rattle.lists.specs.ListLanguage.{ReadsHeader};

use relation::columns::Kinds;
use relation::refusals::Reason;
use takers::take_end;
use words::kinds::{is_kinds, read_kinds};
use words::names::is_name;
use words::reader::Words;

#[derive(Clone, Copy, Drop)]
pub struct Header<'a> {
    pub name: &'a [u8],
    pub kinds: Kinds,
}

// The two words of a line that has two.
fn two_words<'a>(line: &'a [u8]) -> Option<(&'a [u8], &'a [u8])>
    ensures { mapped_some (λ p. (p.0.now, p.1.now)) result ≡ two_words (texts (words_of line.now)) }
{
    let mut words = Words::new(line);
    let one = words.next()?;
    let two = words.next()?;
    take_end(&mut words)?;
    Some((one.text, two.text))
}

// The header of a name and the letters of its kinds.
fn header_of<'a>(name: &'a [u8], letters: &'a [u8]) -> Result<Header<'a>, Reason>
    ensures { result_map_both says_header (λ e. e) result ≡ header_of (name.now, letters.now) }
{
    if !is_kinds(letters) {
        return Err(Reason::Form);
    }
    if !is_name(name) {
        return Err(Reason::Name);
    }
    let kinds = read_kinds(letters).ok_or(Reason::Misfit)?;
    Ok(Header { name, kinds })
}

// Reads `NAME KINDS`.
pub fn read_header<'a>(line: &'a [u8]) -> Result<Header<'a>, Reason>
    ensures value { result_map_both says_header (λ e. e) result ≡ header_line (texts (words_of line.now)) }
    ensures reads { ReadsHeader (texts (words_of line.now)) (result_map_both says_header (λ e. e) result) }
{
    let (name, letters) = two_words(line).ok_or(Reason::Form)?;
    header_of(name, letters)
}
