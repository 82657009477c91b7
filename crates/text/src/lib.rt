// Pieces of a text, written into a lent buffer: bytes, words, decimal numbers, fields, lines. Each answers the position past its piece.
#![tactic(auto)]

ghost use Rattle.std.specs.Prelude.{[], ◌∷◌};
ghost use Rattle.model.specs.Listing.{decimal, number_field, fields, line};
ghost use Rattle.text.specs.Pasted.{Room, PiecesAsked, Put};

// Puts one byte.
pub fn put_byte(text: &mut [u8], at: usize, byte: u8) -> usize
    requires { Room at (byte ∷ []) text.old }
    ensures { Put at (byte ∷ []) text.old text.new result }
{
    text[at] = byte;
    at + 1
}

// Puts the bytes of a word, one by one: a copy of a slice whose length the compiler does not see would call `memmove`, which the archive
// does not ask for.
pub fn put_word(text: &mut [u8], at: usize, word: &[u8]) -> usize
    requires { Room at word.now text.old }
    ensures { Put at word.now text.old text.new result }
{
    for i in 0..word.len() {
        text[at + i] = word[i];
    }
    at + word.len()
}

// Puts a number in decimal: the digits of n / 10 first, where it has any.
pub fn put_decimal(text: &mut [u8], at: usize, n: u64) -> usize
    requires { Room at (decimal n) text.old }
    ensures { Put at (decimal n) text.old text.new result }
{
    let digit = b'0' + (n % 10) as u8;
    if n < 10 {
        return put_byte(text, at, digit);
    }
    let next = put_decimal(text, at, n / 10);
    put_byte(text, next, digit)
}

// Puts a space and a number.
pub fn put_field(text: &mut [u8], at: usize, n: u64) -> usize
    requires { Room at (number_field n) text.old }
    ensures { Put at (number_field n) text.old text.new result }
{
    let next = put_byte(text, at, b' ');
    put_decimal(text, next, n)
}

// Puts numbers, each after a space.
pub fn put_fields(text: &mut [u8], at: usize, numbers: &[u64]) -> usize
    requires { PiecesAsked at (fields numbers.now) numbers.now text.old }
    ensures { Put at (fields numbers.now) text.old text.new result }
{
    let mut next = at;
    for &number in numbers {
        next = put_field(text, next, number);
    }
    next
}

// Puts a line: its word, its numbers, a line feed.
pub fn put_line(text: &mut [u8], at: usize, word: &[u8], numbers: &[u64]) -> usize
    requires { PiecesAsked at (line word.now numbers.now) numbers.now text.old }
    ensures { Put at (line word.now numbers.now) text.old text.new result }
{
    let named = put_word(text, at, word);
    let listed = put_fields(text, named, numbers);
    put_byte(text, listed, b'\n')
}
