// Standard input, read whole or up to one byte more than any plan has.
#![tactic(auto)]

ghost use Rattle.std.specs.Prelude.{◌≡◌, ◌≢◌, ◌<◌, ◌≤◌, [], None, Some, length, take, option_map, IfOk, IfSome};
ghost use Rattle.std.specs.Io.KnownBytes.{Consumes, IsAtEnd};
ghost use Rattle.std.specs.IoError.{error_kind};
ghost use Rattle.model.specs.Listing.{input_room};
ghost use Rattle.input.specs.Input.{failed_by, InputIs};
ghost use Rattle.input.specs.Source.{source_bytes};

mod source;

pub use source::Source;
use std::io;
use std::io::{ErrorKind, Read};

// One byte more than the largest plan has. Of a longer input no more is read: it is judged as it would be in full.
const INPUT_ROOM: usize = 7185;

// Reads until the part is full or nothing more comes; so many bytes came. The loop stays a `while`: a read gives as many as it has.
fn read_full<R: Read>(reader: &mut R, part: &mut [u8]) -> io::Result<usize>
    ensures within { IfOk result (λ size. size ≤ length part.new) }
    ensures came { IfOk result
        (λ size. Consumes (R.remaining reader.old) (R.remaining reader.new) (take size part.new)) }
    ensures ended { IfOk result (λ size. size < length part.new → IsAtEnd (R.remaining reader.new)) }
{
    let mut size: usize = 0;
    while size < part.len() {
        let more = reader.read(&mut part[size..])?;
        if more == 0 {
            return Ok(size);
        }
        size += more;
    }
    Ok(size)
}

// How many bytes, one at most, the read after so many gives. After a full buffer none is made.
fn read_on<R: Read>(reader: &mut R, size: usize) -> io::Result<Option<usize>>
    ensures within { IfOk result (λ next. IfSome next (λ more. more ≤ 1)) }
    ensures full { IfOk result (λ next. size ≡ input_room → next ≡ None) }
    ensures ended { IfOk result
        (λ next. IfSome (R.remaining reader.old) (λ rest. rest ≡ [] → size ≢ input_room → next ≡ Some 0)) }
{
    if size == INPUT_ROOM {
        return Ok(None);
    }
    let mut next = [0u8; 1];
    let more = reader.read(&mut next)?;
    Ok(Some(more))
}

// Whether the read after so many bytes says that one has failed: it gave more, or it was not made after a short count.
fn has_failed(size: usize, next: Option<usize>) -> bool
    ensures { result ≡ failed_by size next }
{
    match next {
        None => size < INPUT_ROOM,
        Some(more) => more > 0,
    }
}

// Reads until the buffer is full or nothing more comes, then once more to see whether the input has ended. `None` where the reads say that
// one failed, which those of a reader with known bytes never do.
pub fn fill<R: Read>(reader: &mut R) -> io::Result<Option<Source>>
    ensures source { IfOk result (λ came. IfSome came (λ source. length (source_bytes source) ≤ input_room)) }
    ensures whole { IfOk result
        (λ came. IfSome (R.remaining reader.old) (λ whole. InputIs (option_map source_bytes came) whole)) }
{
    let mut buffer = [0u8; INPUT_ROOM];
    let size = read_full(reader, &mut buffer)?;
    let next = read_on(reader, size)?;
    if has_failed(size, next) {
        Ok(None)
    } else {
        Ok(Some(Source { buffer, size, next }))
    }
}

// The error to tell of where the reads say that one failed.
pub fn read_failed() -> io::Error
    ensures { error_kind result ≡ ErrorKind.Other }
{
    io::Error::other("a read after its end gave more")
}
