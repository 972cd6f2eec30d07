// The script as it is read: what needs no sheet is answered here, and the rest is handed on.
use crate::answer::Answer;
use crate::help::HELP;
use crate::input::Input;
use crate::output::Output;
use crate::table::load;
use script::command::{Call, Command, read_line};
use table_end::weigh;

#[derive(Drop)]
pub struct Session<'a> {
    rt: &'a HostRuntime,
    input: Input,
    output: Output,
    // The bytes of the table that was given last, unless a sheet has them.
    table: Option<Vec<u8>>,
}

/// What a line asks of a sheet.
#[derive(Clone, Copy)]
pub enum Step {
    Open,
    Call(Call),
}

impl<'a> Session<'a> {
    pub fn new(rt: &'a HostRuntime) -> anyhow::Result<Session<'a>> {
        Ok(Session {
            rt,
            input: Input::new(rt, rt.alloc())?,
            output: Output::new(rt.alloc()),
            table: None,
        })
    }

    pub fn answer(&mut self, answer: Answer) -> anyhow::Result<()> {
        self.output.line(answer)
    }

    pub fn flush(&mut self) -> anyhow::Result<()> {
        Ok(self.output.flush(self.rt)?)
    }

    pub fn bad_line(&mut self) -> anyhow::Result<()> {
        let number = self.input.number();
        self.answer(Answer::BadLine(number))
    }

    pub fn take_table(&mut self) -> Option<Vec<u8>> {
        self.table.take()
    }

    /// Puts back the table that a sheet had, unless a later one was given.
    pub fn put_back(&mut self, bytes: Vec<u8>) {
        if self.table.is_none() {
            self.table = Some(bytes);
        }
    }

    // Keeps a table that is granted; a refused one leaves what stood before.
    fn give_table(&mut self, bytes: Vec<u8>) -> anyhow::Result<()> {
        match weigh(bytes.as_slice()) {
            Err(fault) => self.answer(Answer::RefusedTable(fault)),
            Ok(counts) => {
                self.table = Some(bytes);
                self.answer(Answer::Table(counts))
            }
        }
    }

    // Answers the line if it needs no sheet, and else says what it asks of one.
    fn step(&mut self) -> anyhow::Result<Option<Step>> {
        if self.input.is_too_long() {
            self.bad_line()?;
            return Ok(None);
        }
        match read_line(self.input.line()) {
            None => self.bad_line()?,
            Some(Command::Help) => self.output.line(HELP)?,
            Some(Command::Table(table)) => {
                let bytes = load(self.rt, table)?;
                self.give_table(bytes)?;
            }
            Some(Command::Open) => return Ok(Some(Step::Open)),
            Some(Command::Call(call)) => return Ok(Some(Step::Call(call))),
        }
        Ok(None)
    }

    /// Goes on to the next line that asks something of a sheet; None is the end of the script.
    pub fn next_step(&mut self) -> anyhow::Result<Option<Step>> {
        // A bound that no script reaches: a loop that waits for input has no other measure.
        for _ in 0..u64::MAX {
            if !self.input.next_line(self.rt, &mut self.output)? {
                return Ok(None);
            }
            // Here and not in `step`, so that a comment does not pay for the room that an answer takes.
            if self.input.is_passed_over() {
                continue;
            }
            let step = self.step()?;
            if step.is_some() {
                return Ok(step);
            }
        }
        Ok(None)
    }
}
