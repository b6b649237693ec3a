// Reading from what may give fewer bytes at a time than are asked for.
ghost use Rattle.std.specs.Prelude.{◌<◌, ◌≤◌, length, take, IfOk};
ghost use Rattle.std.specs.Io.KnownBytes.{Consumes, IsAtEnd};

use std::io;
use std::io::Read;

/// How many bytes are read at most: more than the longest good file has, so that a longer one is seen to be bad.
pub const BUFFER_BYTES: usize = 65536;

/// Reads until the buffer is full or the input ends, and says how many bytes stand at the buffer's start. The loop is written out:
/// std's `read_exact` says nothing of an input that is shorter, and `read_to_end` allocates.
pub fn read_full<R: Read>(reader: &mut R, buffer: &mut [u8]) -> io::Result<usize>
    ensures within { IfOk result (λ n. n ≤ length buffer.new) }
    ensures bytes { IfOk result (λ n. Consumes (R.remaining reader.old) (R.remaining reader.new) (take n buffer.new)) }
    ensures end { IfOk result (λ n. n < length buffer.new → IsAtEnd (R.remaining reader.new)) }
{
    let mut done = 0;
    while done < buffer.len() {
        let n = reader.read(&mut buffer[done..])?;
        if n == 0 {
            break;
        }
        done += n;
    }
    Ok(done)
}
