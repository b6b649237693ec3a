// The header's fields, most significant first: kind 8 bits, size 8, left 16, right 16, space 16.
ghost use Rattle.std.specs.Prelude.{◌≡◌, ◌<◌};
ghost use Rattle.format.specs.Header.{field as field_of, header, kind_of, size_of, left_of, right_of, space_of, InFields};

// `bits` bits of a word, from bit `at` up.
fn field(word: u64, at: u64, bits: u64) -> u64
    requires { (at < 64) × (bits < 64) }
    ensures { result ≡ field_of word at bits }
{
    (word >> at) & ((1 << bits) - 1)
}

pub fn kind_of(word: u64) -> usize
    ensures { result ≡ kind_of word }
{
    field(word, 56, 8) as usize
}

pub fn size_of(word: u64) -> u64
    ensures { result ≡ size_of word }
{
    field(word, 48, 8)
}

pub fn left_of(word: u64) -> usize
    ensures { result ≡ left_of word }
{
    field(word, 32, 16) as usize
}

pub fn right_of(word: u64) -> usize
    ensures { result ≡ right_of word }
{
    field(word, 16, 16) as usize
}

pub fn space_of(word: u64) -> u64
    ensures { result ≡ space_of word }
{
    field(word, 0, 16)
}

pub fn pack(kind: u64, size: u64, left: u64, right: u64, space: u64) -> u64
    requires { InFields kind size left right space }
    ensures { result ≡ header kind size left right space }
{
    (kind << 56) | ((size << 48) | ((left << 32) | ((right << 16) | space)))
}
