// The answers, one line to each call, held until they are written out together.
use anyhow::anyhow;
use std::alloc::Global;
use std::fmt::{Display, Write as WriteText};
use std::io;
use std::io::Write;

#[derive(Drop)]
pub struct Output {
    text: String,
}

impl Output {
    pub fn new(heap: Global) -> Output {
        Output {
            text: String::new(heap),
        }
    }

    /// Writes out what is held.
    pub fn flush(&mut self, rt: &HostRuntime) -> io::Result<()> {
        if self.text.is_empty() {
            return Ok(());
        }
        let mut out = rt.stdout();
        out.write_all(self.text.as_bytes())?;
        self.text.clear();
        Ok(())
    }

    /// Text is refused only where no memory is left for it.
    pub fn line(&mut self, answer: impl Display + Drop) -> anyhow::Result<()> {
        writeln!(self.text, "{answer}").map_err(|_| anyhow!("no memory is left for the answers"))
    }
}
