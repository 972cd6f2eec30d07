// A line of a script as a command.
ghost use Rattle.std.specs.Prelude.{◌≡◌, true, false, Some, codes};
ghost use Rattle.script.specs.declared.command.Command.TheVariants.{Help, Open};
ghost use Rattle.script.specs.Requests.{OptionsRead, request_of, last_berth, call_of, call_line};
ghost use Rattle.std.specs.Option.{option_map};
ghost use Rattle.script.specs.Tables.{is_hex, is_path, table_text, text_of, text_word, text_at_end, text_line, table_in};
ghost use Rattle.script.specs.Cuts.{alike, halves};
ghost use Rattle.script.specs.Words.{front, next_word, next_rest};

use crate::bytes::after;
use crate::date_time::date;
use crate::number::read;
use crate::options::{optional_disambiguation, optional_offset, optional_policy, optional_time};
use crate::words::Words;
use crate::zone::zone;
use calendar::IsoDate;
use time_zone::TimeZone;
use zoned::Request;

/// Where the bytes of a table come from.
#[derive(Clone, Copy, Debug, PartialEq, Eq)]
pub enum Table<'a> {
    // The path of a file.
    File(&'a [u8]),
    // The bytes themselves, two hexadecimal digits to a byte.
    Hex(&'a [u8]),
}

/// A call on the sheet.
#[derive(Clone, Copy, Debug, PartialEq, Eq)]
pub enum Call {
    Set { berth: u8, request: Request },
    Read { berth: u8 },
    Clear { berth: u8 },
}

#[derive(Clone, Copy, Debug, PartialEq, Eq)]
pub enum Command<'a> {
    Help,
    Table(Table<'a>),
    Open,
    Call(Call),
}

// Two digits to a byte.
fn is_hex(text: &[u8]) -> bool
    ensures { result ≡ is_hex text.now }
{
    text.len() % 2 == 0 && text.iter().all(|byte| byte.is_ascii_hexdigit())
}

// A path has a byte, no zero byte, and only ASCII.
fn is_path(text: &[u8]) -> bool
    ensures { result ≡ is_path text.now }
{
    !text.is_empty() && text.iter().all(|byte| *byte != 0 && byte.is_ascii())
}

fn table_word(word: &[u8]) -> Option<Table<'_>>
    ensures { option_map table_text result ≡ text_of word.now }
{
    match after(word, b"hex:") {
        Some(digits) => is_hex(digits).then_some(Table::Hex(digits)),
        None => is_path(word).then_some(Table::File(word)),
    }
}

fn last_berth(words: &mut Words<'_>) -> Option<u8>
    ensures { result ≡ last_berth words.old }
{
    let berth = read(words.next()?)?;
    words.is_done().then_some(berth)
}

// The request of a `set`, behind its berth.
fn request(words: &mut Words<'_>) -> Option<Request>
    ensures { result ≡ request_of words.old }
{
    let zone = zone(words.next()?)?;
    let date = date(words.next()?)?;
    with_options(zone, date, words)
}

// The optional words of a `set`, behind its zone and its date.
fn with_options(zone: TimeZone, date: IsoDate, words: &mut Words<'_>) -> Option<Request>
    ensures { OptionsRead zone date words.old result }
{
    let time = optional_time(words)?;
    let exact = words.take_word(b"exact");
    let offset = optional_offset(words)?;
    let policy = optional_policy(words)?;
    let disambiguation = optional_disambiguation(words)?;
    let match_minutes = words.take_word(b"match=minutes");
    words.is_done().then_some(Request {
        zone,
        date,
        time,
        exact,
        offset,
        policy,
        disambiguation,
        match_minutes,
    })
}

#[tactic(auto, using(crate::proofs::Alike::told_apart))]
fn read_call(word: &[u8], words: &mut Words<'_>) -> Option<Call>
    ensures { result ≡ call_of word.now words.old }
{
    match word {
        b"set" => {
            let berth = read(words.next()?)?;
            let request = request(words)?;
            Some(Call::Set { berth, request })
        }
        b"read" => Some(Call::Read {
            berth: last_berth(words)?,
        }),
        b"clear" => Some(Call::Clear {
            berth: last_berth(words)?,
        }),
        _ => None,
    }
}

// The table of a line, behind its first word.
fn read_table<'a>(words: &mut Words<'a>) -> Option<Command<'a>>
    ensures { option_map table_in result ≡ option_map Some (text_at_end (next_rest words.old) (text_word (next_word words.old))) }
{
    let table = table_word(words.next()?)?;
    words.is_done().then_some(Command::Table(table))
}

#[tactic(auto, using(crate::proofs::Alike::told_apart))]
fn is_table(word: &[u8]) -> bool
    ensures { result ≡ alike word.now (codes "table") }
{
    matches!(word, b"table")
}

// A table or a call, by the line's first word, which is looked for once.
fn read_words(line: &[u8]) -> Option<Command<'_>>
    ensures tables { alike (front (halves 32 line.now) line.now) (codes "table") ≡ true → option_map table_in result ≡ option_map Some (text_line line.now) }
    ensures calls { alike (front (halves 32 line.now) line.now) (codes "table") ≡ false → result ≡ call_line line.now }
{
    let mut words = Words::new(line);
    let word = words.next()?;
    if is_table(word) {
        return read_table(&mut words);
    }
    Some(Command::Call(read_call(word, &mut words)?))
}

/// The command of a line, or None where the line has no such form.
#[tactic(auto, using(crate::proofs::Alike::told_apart))]
pub fn read_line(line: &[u8]) -> Option<Command<'_>>
    ensures help { alike line.now (codes "help") ≡ true → result ≡ Some Help }
    ensures opens { alike line.now (codes "help") ≡ false → alike line.now (codes "open") ≡ true → result ≡ Some Open }
    ensures tables { alike line.now (codes "help") ≡ false → alike line.now (codes "open") ≡ false → alike (front (halves 32 line.now) line.now) (codes "table") ≡ true → option_map table_in result ≡ option_map Some (text_line line.now) }
    ensures calls { alike line.now (codes "help") ≡ false → alike line.now (codes "open") ≡ false → alike (front (halves 32 line.now) line.now) (codes "table") ≡ false → result ≡ call_line line.now }
{
    match line {
        b"help" => Some(Command::Help),
        b"open" => Some(Command::Open),
        _ => read_words(line),
    }
}
