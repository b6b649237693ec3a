// Mul: a constant on the left is swapped to the right (`swaps` in beside.rt), and two fold (decide.rt). Beside a constant, here: 1
// gives the other child, and 0 gives 0.
ghost use Rattle.std.specs.Prelude.{◌≡◌};
ghost use Rattle.rules.specs.Rules.{mul_beside};

use rules::Beside;

pub fn mul_beside(n: u64) -> Beside
    ensures { result ≡ mul_beside n }
{
    match n {
        // (e * #1) -> e
        1 => Beside::Itself,
        // (e * #0) -> #0
        0 => Beside::Make(0),
        _ => Beside::Stay,
    }
}
