// The bytes of a table, from a file or from a line.
ghost use Rattle.std.specs.Prelude.{◌<◌};

use anyhow::anyhow;
use script::command::Table;
use std::alloc::{AllocError, Global};
use std::fs::File;
use std::io;
use std::io::Read;
use std::str::from_utf8;

// Not `to_digit`, which answers an `Option` of a `u32`: other bytes do not come here.
fn hex_digit(byte: u8) -> u8
    ensures { result < 16 }
{
    match byte {
        b'0'..=b'9' => byte - b'0',
        b'a'..=b'f' => byte - b'a' + 10,
        b'A'..=b'F' => byte - b'A' + 10,
        _ => 0,
    }
}

// Two digits to a byte, the higher one first.
fn from_hex(heap: Global, digits: &[u8]) -> Result<Vec<u8>, AllocError> {
    let mut bytes = Vec::new(heap);
    let (pairs, _) = digits.as_chunks::<2>();
    for [high, low] in pairs {
        bytes.push(hex_digit(*high) * 16 + hex_digit(*low))?;
    }
    Ok(bytes)
}

// No table is larger: 64 zones and 4,096 rows.
const LARGEST: u64 = 49_284;

// The bytes of a file, of which no more are read than show that they are too many for a table.
fn read_some(rt: &HostRuntime, path: &str) -> io::Result<Vec<u8>> {
    let mut bytes = Vec::new(rt.alloc());
    let mut file = File::open(rt, path)?.take(LARGEST + 1);
    file.read_to_end(&mut bytes)?;
    Ok(bytes)
}

fn from_file(rt: &HostRuntime, path: &[u8]) -> anyhow::Result<Vec<u8>> {
    let path = from_utf8(path)?;
    read_some(rt, path).map_err(|error| anyhow!("the table {path} cannot be read: {error}"))
}

pub fn load(rt: &HostRuntime, table: Table<'_>) -> anyhow::Result<Vec<u8>> {
    match table {
        Table::File(path) => from_file(rt, path),
        Table::Hex(digits) => Ok(from_hex(rt.alloc(), digits)?),
    }
}
