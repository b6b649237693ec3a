// How wide a number is.
ghost use Rattle.std.specs.Prelude.{◌≡◌, ◌-◌, ◌*◌, ◌%◌, ◌^◌};
ghost use Rattle.arith.specs.Operands.{Size};

/// A size in bytes that a u64 can hold: 1 to 8.
#[derive(Clone, Copy, Debug, PartialEq, Eq)]
pub struct Width {
    pub bytes: u64,
    ghost known: { Size bytes },
}

impl Width {
    pub fn bits(self) -> u64
        ensures { result ≡ 8 * self.bytes }
    {
        8 * self.bytes
    }

    /// As many ones as there are bits. A shift by 64 is no shift, so the widest mask is written out.
    pub fn mask(self) -> u64
        ensures { result ≡ 2 ^ (8 * self.bytes) - 1 }
    {
        if self.bytes >= 8 {
            u64::MAX
        } else {
            (1u64 << self.bits()) - 1
        }
    }

    /// The top bit.
    pub fn sign_bit(self) -> u64
        ensures { result ≡ 2 ^ (8 * self.bytes - 1) }
    {
        1u64 << (self.bits() - 1)
    }

    /// The low bits: what a constant of this width keeps of a 64-bit number.
    #[tactic(auto, using(std::proofs::lemmas::Nat::and_mask))]
    pub fn cut(self, v: u64) -> u64
        ensures { result ≡ v % 2 ^ (8 * self.bytes) }
    {
        v & self.mask()
    }
}
