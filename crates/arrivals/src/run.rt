// A script from its first line to its last: the sheets that it opens, one after the other.
use crate::answer::Answer;
use crate::session::{Session, Step};
use provider::Provider;
use script::command::Call;
use sheet::book::Sheet;
use table_end::RawTable;

// The answer to a call on the sheet.
fn answer<P: Provider>(sheet: &mut Sheet<P>, call: Call) -> Answer {
    match call {
        Call::Set { berth, request } => sheet
            .set(berth, request)
            .map_or_else(Answer::Refused, Answer::Arrival),
        Call::Read { berth } => sheet
            .read(berth)
            .map_or_else(Answer::Refused, Answer::Reading),
        Call::Clear { berth } => sheet
            .clear(berth)
            .map_or_else(Answer::Refused, Answer::Cleared),
    }
}

impl<'a> Session<'a> {
    // Answers calls until the next `open`, and tells whether there is one.
    fn serve<P: Provider>(&mut self, sheet: &mut Sheet<P>) -> anyhow::Result<bool> {
        // A bound that no script reaches, here and below: a loop that waits for input has no other measure.
        for _ in 0..u64::MAX {
            match self.next_step()? {
                None => return Ok(false),
                Some(Step::Open) => return Ok(true),
                Some(Step::Call(call)) => self.answer(answer(sheet, call))?,
            }
        }
        Ok(false)
    }

    // Goes to the next `open`, and tells whether there is one; no call has a sheet before it. Beside `serve`, since one function
    // would have to be given what to do with a call.
    fn find_open(&mut self) -> anyhow::Result<bool> {
        for _ in 0..u64::MAX {
            match self.next_step()? {
                None => return Ok(false),
                Some(Step::Open) => return Ok(true),
                Some(Step::Call(_)) => self.bad_line()?,
            }
        }
        Ok(false)
    }

    // Refuses an `open` that has no table, and goes to the next one.
    fn refuse_open(&mut self) -> anyhow::Result<bool> {
        self.bad_line()?;
        self.find_open()
    }

    // Serves a sheet over a table whose bytes were checked when they were given.
    fn serve_table(&mut self, bytes: &[u8]) -> anyhow::Result<bool> {
        let raw = RawTable::load(bytes);
        if raw.check().is_err() {
            let _ = raw.take_back();
            return self.refuse_open();
        }
        let mut sheet = Sheet::open(raw.proof());
        let served = self
            .answer(Answer::Opened)
            .and_then(|()| self.serve(&mut sheet));
        let _ = sheet.close().take_back();
        served
    }

    /// Runs the script to its end.
    pub fn run(&mut self) -> anyhow::Result<()> {
        let mut opens = self.find_open()?;
        for _ in 0..u64::MAX {
            if !opens {
                break;
            }
            opens = match self.take_table() {
                None => self.refuse_open()?,
                Some(bytes) => {
                    let opens = self.serve_table(bytes.as_slice())?;
                    self.put_back(bytes);
                    opens
                }
            };
        }
        Ok(())
    }
}
