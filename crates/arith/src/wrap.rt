// Multiply, negation and shifts that wrap at 64 bits, written here, which is a form that the project asks for (docs/DECISIONS.md). Add
// and subtract are std's.
ghost use Rattle.std.specs.Prelude.{◌≡◌, ◌%◌};
ghost use Rattle.manual.specs.Operations.{int_mult, int_2comp, int_left, int_right};

pub fn wrapping_neg(a: u64) -> u64
    ensures { result ≡ int_2comp 64 a }
{
    if a == 0 { 0 } else { (u64::MAX - a) + 1 }
}

/// By halves of 32 bits: the product of the high halves lies past the 64.
#[tactic(auto, using(crate::proofs::Product::by_halves))]
pub fn wrapping_mul(a: u64, b: u64) -> u64
    ensures { result ≡ int_mult 64 a b }
{
    let a_low = a & 0xffff_ffff;
    let a_high = a >> 32;
    let b_low = b & 0xffff_ffff;
    let b_high = b >> 32;
    let middle = (a_high * b_low).wrapping_add(a_low * b_high);
    (a_low * b_low).wrapping_add(middle << 32)
}

/// As Rust's wrapping shifts, these take the count modulo 64.
pub fn wrapping_shl(a: u64, n: u64) -> u64
    ensures { result ≡ int_left 64 a (n % 64) }
{
    a << (n & 63)
}

pub fn wrapping_shr(a: u64, n: u64) -> u64
    ensures { result ≡ int_right 64 a (n % 64) }
{
    a >> (n & 63)
}
