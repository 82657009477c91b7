// What came of the input, as far as the buffer holds it.
ghost use Rattle.std.specs.Prelude.{◌≡◌, ◌≤◌, false, length};
ghost use Rattle.input.specs.Input.{failed_by};

use crate::INPUT_ROOM;

// The bytes that came, the first `size` of the buffer, and what the read after them gave: nothing, or none was made after a full buffer.
#[derive(Clone, Copy)]
pub struct Source {
    pub(crate) buffer: [u8; INPUT_ROOM],
    pub(crate) size: usize,
    pub(crate) next: Option<usize>,
    ghost within: { size ≤ length buffer },
    ghost ended: { failed_by size next ≡ false },
}

impl Source {
    ghost use Rattle.input.specs.Source.{source_bytes};

    // The bytes that came.
    pub fn bytes(&self) -> &[u8]
        ensures { result.now ≡ source_bytes self.now }
    {
        &self.buffer[..self.size]
    }
}
