// The line that the program prints.
ghost use Rattle.std.specs.Prelude.{OnOk};
ghost use Rattle.std.specs.Io.KnownBytes.{Appends};
ghost use Rattle.file.specs.Line.{line_of};

use simplifier::exports::SimplifyReply;
use std::io;
use std::io::Write;

/// Number, place, root and count, as one line of four decimals.
pub fn print<W: Write>(to: &mut W, reply: SimplifyReply) -> io::Result<()>
    ensures { OnOk result (Appends (W.contents to.old) (W.contents to.new) (line_of reply)) }
{
    writeln!(to, "{reply}")
}
