// Numbers in bytes, the most significant one first: a word in the file, and a file's length in the records that are replayed.
ghost use Rattle.std.specs.Prelude.{◌≡◌, ◌^◌, ◌<◌};
ghost use Rattle.file.specs.Bytes.{number_at};

/// How many bytes a word takes.
pub const WORD_BYTES: usize = 8;
/// And a record's length.
pub const LENGTH_BYTES: usize = 2;

#[tactic(auto, using(crate::specs::Bytes::eight_bytes))]
pub fn word(bytes: &[u8; WORD_BYTES]) -> u64
    ensures { result ≡ number_at bytes.now 0 8 }
{
    u64::from_be_bytes(*bytes)
}

#[tactic(auto, using(crate::specs::Bytes::two_bytes))]
pub fn length(bytes: &[u8; LENGTH_BYTES]) -> usize
    ensures { (result ≡ number_at bytes.now 0 2) × (result < 2 ^ 16) }
{
    usize::from(u16::from_be_bytes(*bytes))
}
