// Each command as a call of a register, which goes on from what it had.
ghost use Rattle.ledger.specs.Histories.{GoesOn};

use crate::answers::{Answer, Failure, Typed};
use crate::commands::Command;
use crate::desk::{Paper, Which, find, lay};
use register::registers::Register;
use register::slips::Slip;
use relation::kinds::Kind;
use relation::refusals::Refusal;
use relation::rows::Row;
use std::alloc::{AllocError, Global};
use workspace::Workspace;

// How many entries the work areas and the output have.
const WORK: usize = 64;

const OUTPUT: usize = 1024;

// The areas that calls are handed, and how much of each.
#[derive(Drop)]
pub struct Areas {
    work: Workspace,
    output: Vec<u8>,
    work_handed: usize,
    output_handed: usize,
}

// What lies beside the registers: which of them is in use, the slips that they gave, and the areas.
pub struct Bench<'a> {
    pub in_use: Which,
    pub desk: Vec<Paper<'a>>,
    pub areas: Areas,
}

impl Areas {
    pub fn new(heap: Global) -> Result<Areas, AllocError> {
        Ok(Areas {
            work: Workspace::new(heap, WORK)?,
            output: vec![in heap; 0; OUTPUT]?,
            work_handed: WORK,
            output_handed: OUTPUT,
        })
    }

    // Prints the text that a call wrote.
    pub fn print_shown(&self, rt: &HostRuntime, answer: Answer) -> anyhow::Result<()> {
        if let Answer::Bytes(count) = answer {
            let shown = self.output.as_slice().get(..count).unwrap_or(&[]);
            print!(rt; "{}", Typed(shown))?;
        }
        Ok(())
    }

    fn publish(&mut self, register: &mut Register<'_>, slip: Slip) -> Result<usize, (Refusal, Slip)>
        ensures { GoesOn register.old.store register.new.store }
    {
        let (rows, index) = self.work.lend();
        let upto = self.work_handed.min(rows.len()).min(index.len());
        register.publish(slip, &mut rows[..upto], &mut index[..upto])
    }

    fn show(&mut self, register: &Register<'_>, name: &[u8]) -> Result<Answer, Failure> {
        let upto = self.output_handed.min(self.output.len());
        let count = register.show(name, &mut self.output.as_mut_slice()[..upto])?;
        Ok(Answer::Bytes(count))
    }
}

impl<'a> Bench<'a> {
    fn draft(
        &mut self,
        register: &mut Register<'_>,
        name: &'a [u8],
        kinds: &[Kind],
    ) -> Result<Answer, Failure>
        ensures { GoesOn register.old.store register.new.store }
    {
        let slip = register.draft(name, kinds)?;
        let from = self.in_use;
        lay(register, &mut self.desk, Paper { name, from, slip })?;
        Ok(Answer::Slip)
    }

    fn put(
        &self,
        register: &mut Register<'_>,
        name: &[u8],
        kinds: &[Kind],
        row: Row,
    ) -> Result<Answer, Failure>
        ensures { GoesOn register.old.store register.new.store }
    {
        let i = find(&self.desk, name, self.in_use).ok_or(Failure::NoSlip)?;
        let count = register.put(&self.desk[i].slip, row, kinds)?;
        Ok(Answer::Rows(count))
    }

    fn publish(&mut self, register: &mut Register<'_>, name: &[u8]) -> Result<Answer, Failure>
        ensures { GoesOn register.old.store register.new.store }
    {
        let i = find(&self.desk, name, self.in_use).ok_or(Failure::NoSlip)?;
        let Paper { name, from, slip } = self.desk.remove(i);
        // A slip that is handed back must be laid down again.
        match self.areas.publish(register, slip) {
            Ok(count) => Ok(Answer::Rows(count)),
            Err((refusal, slip)) => {
                lay(register, &mut self.desk, Paper { name, from, slip })?;
                Err(refusal.into())
            }
        }
    }

    fn abandon(&mut self, register: &mut Register<'_>, name: &[u8]) -> Result<Answer, Failure>
        ensures { GoesOn register.old.store register.new.store }
    {
        let i = find(&self.desk, name, self.in_use).ok_or(Failure::NoSlip)?;
        let Paper {
            name: _,
            from: _,
            slip,
        } = self.desk.remove(i);
        let count = register.abandon(slip)?;
        Ok(Answer::Freed(count))
    }

    // Does a command at the register in use.
    pub fn serve(
        &mut self,
        register: &mut Register<'_>,
        command: Command<'a>,
    ) -> Result<Answer, Failure>
        ensures { GoesOn register.old.store register.new.store }
    {
        match command {
            Command::Use(which) => {
                self.in_use = which;
                Ok(Answer::Set)
            }
            Command::Work(count) => {
                self.areas.work_handed = count;
                Ok(Answer::Set)
            }
            Command::Output(count) => {
                self.areas.output_handed = count;
                Ok(Answer::Set)
            }
            Command::Draft(name, letters) => self.draft(register, name, letters.as_slice()),
            Command::Put(name, letters, row) => {
                self.put(register, name, letters.as_slice(), row)
            }
            Command::Publish(name) => self.publish(register, name),
            Command::Abandon(name) => self.abandon(register, name),
            Command::Drop(name) => Ok(Answer::Freed(register.drop(name)?)),
            Command::Show(name) => self.areas.show(register, name),
        }
    }
}
