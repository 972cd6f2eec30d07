// The lines of standard input, one after the other.
use crate::output::Output;
use std::alloc::{AllocError, Global};
use std::io;
use std::io::{BufRead, BufReader, ErrorKind, Read, Stdin, Take};

// A longer line has no form.
const LONGEST: usize = 131_072;

#[derive(Drop)]
pub struct Input {
    // Its limit is how much is still read of a line.
    reader: Take<BufReader<Stdin>>,
    // How many bytes of whole lines were read ahead.
    whole: usize,
    // The end was seen, so that a terminal is not asked again.
    ended: bool,
    // The line, of which no more is kept than shows that it is too long.
    line: Vec<u8>,
    number: u64,
}

// A line that finds no memory is told of as a table in hexadecimal is.
#[cold]
fn told(error: io::Error) -> anyhow::Error {
    match error.kind() {
        ErrorKind::OutOfMemory if error.raw_os_error().is_none() => AllocError.into(),
        _ => error.into(),
    }
}

impl Input {
    pub fn new(rt: &HostRuntime, heap: Global) -> io::Result<Input> {
        Ok(Input {
            reader: BufReader::new(heap, rt.stdin())?.take(0),
            whole: 0,
            ended: false,
            line: Vec::new(heap),
            number: 0,
        })
    }

    pub fn line(&self) -> &[u8] {
        self.line.as_slice()
    }

    /// Counted from 1 over all lines.
    pub fn number(&self) -> u64 {
        self.number
    }

    pub fn is_too_long(&self) -> bool {
        self.line.len() > LONGEST
    }

    /// Nothing is called for an empty line or a comment.
    pub fn is_passed_over(&self) -> bool {
        match self.line.as_slice() {
            [] => true,
            [first, ..] => *first == b'#',
        }
    }

    // Passes over what is left of a line that is too long, and tells whether it has an end. Not by `skip_until`, which tells an end of the
    // line and one of the input alike.
    fn skip_rest(&mut self) -> io::Result<bool> {
        self.reader.set_limit(u64::MAX);
        // A bound that no line reaches: a loop that waits for input has no other measure.
        for _ in 0..u64::MAX {
            let ahead = match self.reader.fill_buf() {
                Err(error) if error.kind() == ErrorKind::Interrupted => continue,
                ahead => ahead?,
            };
            let end = ahead.iter().position(|byte| *byte == b'\n');
            let size = end.map_or(ahead.len(), |at| at + 1);
            self.reader.consume(size);
            if end.is_some() || size == 0 {
                return Ok(end.is_some());
            }
        }
        Ok(false)
    }

    // Counted once for each time that more input came, and not for each line.
    fn whole_ahead(&self) -> usize {
        let ahead = self.reader.get_ref().buffer();
        let end = ahead.iter().rposition(|byte| *byte == b'\n');
        end.map_or(0, |at| at + 1)
    }

    /// Goes to the next line, and tells whether there is one.
    /// Before it waits for more input it writes out the answers so far, for whoever is at a terminal.
    pub fn next_line(&mut self, rt: &HostRuntime, output: &mut Output) -> anyhow::Result<bool> {
        self.line.clear();
        self.number = self.number.saturating_add(1);
        if self.ended {
            return Ok(false);
        }
        if self.whole == 0 {
            output.flush(rt)?;
        }
        // `u64` has no `from` of a `usize`.
        self.reader.set_limit(LONGEST as u64 + 1);
        let read = match self.reader.read_until(b'\n', &mut self.line) {
            Ok(read) => read,
            Err(error) => return Err(told(error)),
        };
        if self.line.last() == Some(&b'\n') {
            self.line.pop();
        } else {
            self.ended = !self.is_too_long() || !self.skip_rest()?;
        }
        self.whole = match self.whole.checked_sub(read) {
            Some(left) => left,
            None => self.whole_ahead(),
        };
        Ok(read > 0)
    }
}
