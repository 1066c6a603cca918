// A workshop's day at two registers: each line of standard input is a call, and each is printed with its answer.
#![tactic(auto)]

ghost use Rattle.ledger.specs.Histories.{GoesOn};

mod answers;
mod calls;
mod commands;
mod desk;
mod workshop;

use answers::{Answer, Failure, Typed};
use relation::rows::Row;
use std::io::Read;
use takers::tails::is_blank;
use words::lines::Lines;
use workshop::Workshop;

// How many rows each register has.
const ROWS: usize = 12;

// Prints a line as it was typed, and its answer.
fn print_answer(
    rt: &HostRuntime,
    line: &[u8],
    answer: Result<Answer, Failure>,
) -> anyhow::Result<()> {
    let line = Typed(line);
    match answer {
        Ok(done) => println!(rt; "{line}: {done}")?,
        Err(failure) => println!(rt; "{line}: {failure}")?,
    }
    Ok(())
}

// Does the lines one after the other. Whatever they are, both registers then have what their calls made.
fn serve_lines<'a>(
    rt: &HostRuntime,
    shop: &mut Workshop<'_, 'a>,
    text: &'a [u8],
) -> anyhow::Result<()>
    ensures first { GoesOn shop.old.first.store shop.new.first.store }
    ensures second { GoesOn shop.old.second.store shop.new.second.store }
{
    for line in Lines::new(text) {
        if is_blank(line) {
            continue;
        }
        let answer = shop.answer(line);
        print_answer(rt, line, answer)?;
        shop.print_shown(rt, answer)?;
    }
    Ok(())
}

fn run(rt: &HostRuntime) -> anyhow::Result<()> {
    let mut text = Vec::new(rt.alloc());
    rt.stdin().read_to_end(&mut text)?;
    let mut rows = [Row::blank(); ROWS];
    let mut more = [Row::blank(); ROWS];
    let mut shop = Workshop::new(rt.alloc(), &mut rows, &mut more)?;
    let done = serve_lines(rt, &mut shop, text.as_slice());
    let left = shop.clear();
    shop.close();
    done?;
    println!(rt; "slips left and abandoned: {left}")?;
    Ok(())
}

fn main(rt: HostRuntime) -> anyhow::Result<()> {
    run(&rt)
}
