// The 64-bit FNV-1a digest of bytes and of words, each word by its 8 bytes, low byte first.

// The digest of nothing.
const BASIS: u64 = 14695981039346656037;

// 2^40 + 435.
const PRIME: u64 = 1099511628211;

// The digest with one byte more: products are taken modulo 2^64.
fn mix(digest: u64, byte: u8) -> u64 {
    (digest ^ u64::from(byte)).wrapping_mul(PRIME)
}

// The digest of some bytes.
pub fn of_bytes(bytes: &[u8]) -> u64 {
    bytes.iter().fold(BASIS, |digest, byte| mix(digest, *byte))
}

// The digest with a word's 8 bytes more.
fn mix_word(digest: u64, word: u64) -> u64 {
    word.to_le_bytes()
        .iter()
        .fold(digest, |digest, byte| mix(digest, *byte))
}

// The digest of some words.
pub fn of_words(words: &[u64]) -> u64 {
    words
        .iter()
        .fold(BASIS, |digest, word| mix_word(digest, *word))
}
