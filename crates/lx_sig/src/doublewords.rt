//! Little-endian doublewords in bytes.

ghost use Rattle.std.specs.Prelude.{◌≡◌, ◌+◌, ◌*◌, ◌≤◌, ◌++◌, take, drop, length};
ghost use Rattle.std.specs.Int.{w64, to_le_bytes};
ghost use Rattle.lx_sig.specs.Doublewords.{doublewords, word_of};

/// Puts a number at a place.
fn put(bytes: &mut [u8], place: usize, word: u64)
    requires { place + 8 ≤ length bytes.old }
    ensures { bytes.new ≡ take place bytes.old ++ (to_le_bytes w64 word ++ drop (place + 8) bytes.old) }
{
    bytes[place..place + 8].copy_from_slice(&word.to_le_bytes());
}

/// Writes numbers over bytes, which are as many as theirs.
pub(crate) fn fill(bytes: &mut [u8], words: &[u64])
    requires { length bytes.old ≡ 8 * length words.now }
    ensures { bytes.new ≡ doublewords words.now }
{
    for i in 0..words.len() {
        put(bytes, 8 * i, words[i]);
    }
}

/// The doubleword with this number.
#[tactic(auto, unfolding(crate::specs::Doublewords::word_of))]
pub(crate) fn word(bytes: &[u8], i: usize) -> u64
    requires { 8 * i + 8 ≤ length bytes.now }
    ensures { result ≡ word_of bytes.now i }
{
    let mut word = [0; 8];
    word.copy_from_slice(&bytes[8 * i..8 * i + 8]);
    u64::from_le_bytes(word)
}
