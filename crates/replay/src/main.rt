// Runs the program's answer on every recorded file, and prints a line for each. It allocates nothing.
#![tactic(auto)]

use file::bytes::LENGTH_BYTES;
use file::input::{BUFFER_BYTES, read_full};
use std::fs::File;
use std::io;
use std::io::{Read, Write};

// Reads a record, two bytes of length and then a file of that length, into the buffer, and gives the file.
// None where there is no whole record.
fn read_record<'a>(records: &mut impl Read, buffer: &'a mut [u8]) -> io::Result<Option<&'a [u8]>> {
    let mut length = [0u8; LENGTH_BYTES];
    if read_full(records, &mut length)? < LENGTH_BYTES {
        return Ok(None);
    }
    let size = file::bytes::length(&length);
    if buffer.len() < size {
        return Ok(None);
    }
    let bytes = &mut buffer[..size];
    if read_full(records, bytes)? < size {
        return Ok(None);
    }
    Ok(Some(bytes))
}

// The loop has a bound that no run comes to, since nothing says that a file ends.
fn replay_all(records: &mut impl Read, buffer: &mut [u8], to: &mut impl Write) -> io::Result<()> {
    for _ in 0..u64::MAX {
        let Some(bytes) = read_record(records, buffer)? else {
            break;
        };
        file::line::print(to, file::program_answer(bytes))?;
    }
    Ok(())
}

fn main(rt: HostRuntime) -> io::Result<()> {
    let mut records = File::open(&rt, "vectors")?;
    let mut buffer = [0u8; BUFFER_BYTES];
    replay_all(&mut records, &mut buffer, &mut io::writer(&rt))
}
