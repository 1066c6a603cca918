// Two registers, and what lies beside them.
ghost use Rattle.std.specs.Prelude.{◌≡◌, vec_len};
ghost use Rattle.ledger.specs.Histories.{GoesOn};

use crate::answers::{Answer, Failure};
use crate::calls::{Areas, Bench};
use crate::commands::read_command;
use crate::desk::{Paper, Which};
use register::registers::Register;
use relation::rows::Row;
use std::alloc::{AllocError, Global};

pub struct Workshop<'r, 'a> {
    pub first: Register<'r>,
    pub second: Register<'r>,
    pub bench: Bench<'a>,
}

impl<'r, 'a> Workshop<'r, 'a> {
    // Two registers over rows, of which the first is in use.
    pub fn new(
        heap: Global,
        rows: &'r mut [Row],
        more: &'r mut [Row],
    ) -> Result<Workshop<'r, 'a>, AllocError> {
        let areas = Areas::new(heap)?;
        Ok(Workshop {
            first: Register::new(1, rows),
            second: Register::new(2, more),
            bench: Bench {
                in_use: Which::First,
                desk: Vec::new(heap),
                areas,
            },
        })
    }

    // Does the call of a line at the register in use.
    pub fn answer(&mut self, line: &'a [u8]) -> Result<Answer, Failure>
        ensures first { GoesOn self.old.first.store self.new.first.store }
        ensures second { GoesOn self.old.second.store self.new.second.store }
    {
        let command = read_command(line).ok_or(Failure::NoCommand)?;
        match self.bench.in_use {
            Which::First => self.bench.serve(&mut self.first, command),
            Which::Second => self.bench.serve(&mut self.second, command),
        }
    }

    // Prints the text that a call wrote.
    pub fn print_shown(
        &self,
        rt: &HostRuntime,
        answer: Result<Answer, Failure>,
    ) -> anyhow::Result<()> {
        if let Ok(done) = answer {
            self.bench.areas.print_shown(rt, done)?;
        }
        Ok(())
    }

    // Abandons every slip that is left, and answers how many.
    pub fn clear(&mut self) -> usize
        ensures first { GoesOn self.old.first.store self.new.first.store }
        ensures second { GoesOn self.old.second.store self.new.second.store }
        ensures empty { vec_len self.new.bench.desk ≡ 0 }
    {
        let count = self.bench.desk.len();
        // Each slip must be spent, so the papers are taken off the desk one by one.
        while let Some(paper) = self.bench.desk.pop() {
            let Paper {
                name: _,
                from,
                slip,
            } = paper;
            let _ = match from {
                Which::First => self.first.abandon(slip),
                Which::Second => self.second.abandon(slip),
            };
        }
        count
    }

    // Closes the workshop, with no slip left on the desk.
    pub fn close(self)
        requires { vec_len self.bench.desk ≡ 0 }
    {
        let Workshop {
            first: _,
            second: _,
            bench,
        } = self;
        let Bench {
            in_use: _,
            desk,
            areas: _,
        } = bench;
        desk.destroy_empty();
    }
}
