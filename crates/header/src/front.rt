// The header's fields in the bytes that hold them.
ghost use Rattle.std.specs.Prelude.{◌≡◌, ◌≤◌, length};
ghost use Rattle.model.specs.Plan.{common_length, format_in, feeds_in};
ghost use Rattle.header.specs.Format.{as_format};

use crate::formats::{COMMON_LENGTH, Format};
use crate::{Header, field_at};
use cluster::Cluster;

// Bytes that hold what every version's header has, with their format.
#[derive(Clone, Copy)]
pub struct Fields<'a> {
    pub bytes: &'a [u8],
    pub format: Format,
    ghost long: { common_length ≤ length bytes.now },
    ghost format_is: { as_format format ≡ format_in bytes.now },
}

impl<'a> Fields<'a> {
    ghost use Rattle.header.specs.Header.{counted_blocks, header_counted, Narrow};

    // F, which is R where the file does not have it.
    fn feeds(self) -> usize
        ensures { result ≡ feeds_in self.entry.bytes.now }
    {
        if self.format.feeds_width == 0 {
            return field_at(self.bytes, 5, 1);
        }
        field_at(self.bytes, 7, self.format.feeds_width)
    }

    // B, which is 0 where one of its bytes is missing: row 6 is not judged on the other one.
    fn count(self) -> usize
        ensures { result ≡ counted_blocks self.entry.bytes.now }
    {
        if self.bytes.len() < COMMON_LENGTH + self.format.feeds_width {
            return 0;
        }
        field_at(self.bytes, 13 + self.format.feeds_width, 2)
    }

    // The header.
    pub fn header(self) -> Header
        ensures { (result ≡ header_counted (counted_blocks self.entry.bytes.now) self.entry.bytes.now) × Narrow result }
    {
        let bytes = self.bytes;
        let shift = self.format.feeds_width;
        let cluster = Cluster {
            racks: field_at(bytes, 5, 1),
            rack_size: field_at(bytes, 6, 1),
            feeds: self.feeds(),
            capacity: field_at(bytes, 7 + shift, 2),
            blocks: self.count(),
        };
        Header {
            version: field_at(bytes, 3, 2),
            cluster,
            budget: field_at(bytes, 9 + shift, 4),
        }
    }
}
