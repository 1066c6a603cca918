// Reads a script from standard input, prints what its lines say, and whether it is accepted.
#![tactic(auto)]

mod show;

use grammar::forms::read_line;
use grammar::lines::Line;
use script::check::{MOST_BYTES, check};
use script::script::CheckedScript;
use show::LineText;
use std::io::{self, Read};
use words::lines::Lines;

// A line for each line that is not skipped: its number, its form and its parts.
fn print_lines(rt: &HostRuntime, text: &[u8]) -> io::Result<()> {
    for (i, line) in Lines::new(text).enumerate() {
        let number = i + 1;
        match read_line(line) {
            Some(Line::Skip) => {}
            Some(said) => println!(rt; "{number} {}", LineText(said))?,
            None => println!(rt; "{number} no form")?,
        }
    }
    Ok(())
}

// Prints a script that the check accepted.
fn print_script(rt: &HostRuntime, script: &CheckedScript<'_>) -> anyhow::Result<()> {
    print_lines(rt, script.text())?;
    println!(rt; "accepted")?;
    Ok(())
}

fn run(rt: &HostRuntime) -> anyhow::Result<()> {
    let mut text = Vec::new(rt.alloc());
    rt.stdin()
        .take(MOST_BYTES as u64 + 1)
        .read_to_end(&mut text)?;
    let mut script = CheckedScript::new();
    match check(text.as_slice(), &mut script) {
        Ok(()) => print_script(rt, &script)?,
        Err(refusal) => {
            if refusal.line != 0 {
                print_lines(rt, text.as_slice())?;
            }
            println!(rt; "{refusal}")?;
        }
    }
    Ok(())
}

fn main(rt: HostRuntime) -> anyhow::Result<()> {
    run(&rt)
}
