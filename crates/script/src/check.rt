// The check of a text.
ghost use Rattle.std.specs.Prelude.{◌≡◌, ◌≤◌, length, Some, None, MatchResult, nat_lt};
ghost use Rattle.words.specs.Lines.{lines as lines_of};
ghost use Rattle.grammar.specs.Said.{says};
ghost use Rattle.script.specs.Faults.{stands, step as stepped, fault, most_lines, refusal};
ghost use Rattle.script.specs.Scripts.{Script, Refused};

use crate::script::CheckedScript;
use grammar::forms::read_line;
use grammar::lines::Line;
use relation::refusals::{Reason, Refusal};
use words::lines::Lines;

// A script has at most so many bytes and lines.
pub const MOST_BYTES: usize = 16_384;

pub const MOST_LINES: usize = 256;

// After line `n`: no place in the language, or the line at which the load began that is open then, if one is.
fn next_load(n: usize, load: Option<usize>, line: Line) -> Option<Option<usize>>
    ensures { result ≡ stands n load (says line.entry) }
{
    match line {
        Line::Skip => Some(load),
        Line::Load(_, _) => load.is_none().then_some(Some(n)),
        Line::Row(_) => load.is_some().then_some(load),
        Line::End => load.is_some().then_some(None),
        Line::Drop(_) | Line::Show(_) | Line::Query(_, _) => load.is_none().then_some(None),
    }
}

fn step(n: usize, load: Option<usize>, line: &[u8]) -> Option<Option<usize>>
    ensures { result ≡ stepped n load line.now }
{
    next_load(n, load, read_line(line)?)
}

// Whether a text has more lines than a script may have.
fn many_lines(text: &[u8]) -> bool
    ensures { result ≡ nat_lt most_lines (length (lines_of text.now)) }
{
    Lines::new(text).nth(MOST_LINES).is_some()
}

// The first bad line, or else the line of a load that is not ended.
fn first_fault(text: &[u8]) -> Option<usize>
    requires { length (lines_of text.now) ≤ most_lines }
    ensures { result ≡ fault 1 None (lines_of text.now) }
{
    let mut load = None;
    for (i, line) in Lines::new(text).enumerate() {
        let Some(after) = step(i + 1, load, line) else {
            return Some(i + 1);
        };
        load = after;
    }
    load
}

// Checks a text, and if it is a script, puts it where the caller holds one.
pub fn check<'a>(text: &'a [u8], into: &mut CheckedScript<'a>) -> Result<(), Refusal>
    ensures answer { MatchResult result (λ _. refusal text.now ≡ None) (λ e. refusal text.now ≡ Some e) }
    ensures held { MatchResult result (λ _. into.new.text.now ≡ text.now) (λ _. into.new ≡ into.old) }
    ensures language { MatchResult result (λ _. Script text.now) (Refused text.now) }
{
    if text.len() > MOST_BYTES || many_lines(text) {
        return Err(Reason::ScriptSize.into());
    }
    if let Some(line) = first_fault(text) {
        return Err(Refusal {
            reason: Reason::Form,
            line,
            written: 0,
        });
    }
    *into = CheckedScript { text };
    Ok(())
}
