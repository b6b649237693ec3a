// Xor, IntLeftShift, IntRightShift and IntSignedRightShift: two constants fold (decide.rt). Xor alone swaps a constant on the left to
// the right (`swaps` in beside.rt), and gives 0 for equal trees (`equals` there). Beside a constant, for a shift its amount, here:
// 0 gives the other child.
ghost use Rattle.std.specs.Prelude.{◌≡◌};
ghost use Rattle.rules.specs.Rules.{xor_beside, shift_beside};

use rules::Beside;

pub fn xor_shift_beside(n: u64) -> Beside
    ensures xor { result ≡ xor_beside n }
    ensures shift { result ≡ shift_beside n }
{
    // (e ^ #0) -> e, (e shifted by #0) -> e
    if n == 0 { Beside::Itself } else { Beside::Stay }
}
