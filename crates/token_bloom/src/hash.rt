//! The hash of a word.

ghost use Rattle.std.specs.Prelude.{◌≡◌};
ghost use Rattle.token_bloom.specs.Bits.{fnv, stride};

/// The hash of a word by which a filter finds its bits: FNV-1a of 64 bits.
pub fn hash_of(word: &[u8]) -> u64
    ensures { result ≡ fnv word.now }
{
    let mut hash = 14_695_981_039_346_656_037;
    for byte in word {
        hash = (hash ^ *byte as u64).wrapping_mul(1_099_511_628_211);
    }
    hash
}

/// How far the next bit of a word is from the one before.
pub(crate) fn stride_of(hash: u64) -> u64
    ensures { result ≡ stride hash }
{
    hash.rotate_right(17) | 1
}
