// Simplifies the file on standard input, and prints number, place, root and count.
#![tactic(auto)]

ghost use Rattle.std.specs.Prelude.{IfSome, OnOk};
ghost use Rattle.std.specs.Io.KnownBytes.{Appends};
ghost use Rattle.file.specs.File.{program_reply};
ghost use Rattle.file.specs.Line.{line_of};

use file::input::{BUFFER_BYTES, read_full};
use std::io;
use std::io::{Read, Write};

// Reads a file and writes the line that answers it.
// The buffer is longer than the longest good file, so that a longer one is seen to be bad, and fixed: the program allocates nothing.
fn answer_file<R: Read, W: Write>(from: &mut R, to: &mut W) -> io::Result<()>
    ensures { OnOk result (IfSome (R.remaining from.old) (λ bytes.
        Appends (W.contents to.old) (W.contents to.new) (line_of (program_reply bytes)))) }
{
    let mut buffer = [0u8; BUFFER_BYTES];
    let n = read_full(from, &mut buffer)?;
    file::line::print(to, file::program_answer(&buffer[..n]))
}

fn main(rt: HostRuntime) -> io::Result<()> {
    answer_file(&mut rt.reader(), &mut io::writer(&rt))
}
