// Records of the stream, read from standard input.
ghost use Rattle.std.specs.Prelude.{◌≡◌, length};

use std::io;
use std::io::Read;

// A record's head: its op, its length and its number.
#[derive(Clone, Copy)]
pub struct Head {
    pub op: u8,
    pub n: usize,
    pub number: u32,
}

// Fills the part, or answers that the input ended first.
pub fn fill<R: Read>(reader: &mut R, part: &mut [u8]) -> io::Result<bool> {
    match reader.read_exact(part) {
        Ok(()) => Ok(true),
        Err(error) if error.kind() == io::ErrorKind::UnexpectedEof => Ok(false),
        Err(error) => Err(error),
    }
}

// A buffer for counts, each byte 238.
pub fn filled() -> [u8; 65536] {
    [238u8; 65536]
}

// The next record's head; none where the input has ended, or the byte after the op is not zero.
pub fn next_head<R: Read>(reader: &mut R) -> io::Result<Option<Head>> {
    let mut bytes = [0u8; 8];
    if !fill(reader, &mut bytes)? || bytes[1] != 0 {
        return Ok(None);
    }
    Ok(Some(Head {
        op: bytes[0],
        n: header::field_at(&bytes, 2, 2),
        number: header::field_at(&bytes, 4, 4) as u32,
    }))
}

// The word in 8 bytes, high byte first.
fn word_in(bytes: &[u8]) -> u64
    requires { length bytes.now ≡ 8 }
{
    let high = header::field_at(bytes, 0, 4) as u64;
    let low = header::field_at(bytes, 4, 4) as u64;
    high * 4294967296 + low
}

// Puts the first words of the raw bytes in their places.
pub fn decode(raw: &[u8; 8800], words: &mut [u64]) {
    for (word, bytes) in words.iter_mut().zip(raw.chunks_exact(8)) {
        *word = word_in(bytes);
    }
}
