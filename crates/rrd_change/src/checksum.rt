//! The checksum of a change.
ghost use Rattle.std.specs.Prelude.{◌≡◌, ◌<◌, length};
ghost use Rattle.std.specs.Int.{w64, from_be_bytes};
ghost use Rattle.rrd_change.specs.Checksum as sums;

/// The start value of each checksum.
pub(crate) const SEED: u64 = 0x9e37_79b9_7f4a_7c15;

// Odd numbers with bits everywhere: no two words give the same product.
const FIRST_FACTOR: u64 = 0xd6e8_feb8_6659_fd93;

const SECOND_FACTOR: u64 = 0xbf58_476d_1ce4_e5b9;

// Adds a word to a checksum.
fn mix(sum: u64, word: u64) -> u64
    ensures { result ≡ sums.mix sum word }
{
    let product = (sum ^ word).wrapping_mul(FIRST_FACTOR);
    (product ^ (product >> 32)).wrapping_mul(SECOND_FACTOR)
}

// Reads a word from fewer than eight bytes and the zeros that follow them.
fn short_word(bytes: &[u8]) -> u64
    requires { length bytes.now < 8 }
    ensures { result ≡ from_be_bytes w64 bytes.now }
{
    let mut word = [0; 8];
    word[..bytes.len()].copy_from_slice(bytes);
    u64::from_be_bytes(word)
}

/// Adds the words of `bytes` to a checksum.
pub(crate) fn mix_bytes(start: u64, bytes: &[u8]) -> u64
    ensures { result ≡ sums.mix_bytes start bytes.now }
{
    let (words, rest) = bytes.as_chunks::<8>();
    let mut sum = start;
    for word in words {
        sum = mix(sum, u64::from_be_bytes(*word));
    }
    if rest.is_empty() {
        sum
    } else {
        mix(sum, short_word(rest))
    }
}
