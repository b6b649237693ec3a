// Or: a constant on the left is swapped to the right (`swaps` in beside.rt), and two fold (decide.rt). Equal trees give the left one
// (`equals` in beside.rt). Beside a constant, here: 0 gives the other child, and all ones of the size give that constant.
ghost use Rattle.std.specs.Prelude.{◌≡◌};
ghost use Rattle.rules.specs.Rules.{or_beside};

use arith::width::Width;
use rules::Beside;

pub fn or_beside(width: Width, n: u64) -> Beside
    ensures { result ≡ or_beside width.bytes n }
{
    // (e | #0) -> e
    if n == 0 {
        return Beside::Itself;
    }
    // (e | #ones) -> #ones
    if n == width.mask() {
        return Beside::Make(n);
    }
    Beside::Stay
}
