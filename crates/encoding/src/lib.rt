// A plan's fields as bytes, put into a lent buffer: numbers in their widths, a header, a record. Each answers the position past its piece.
#![tactic(auto)]

ghost use Rattle.std.specs.Prelude.{◌≡◌, ◌<◌};
ghost use Rattle.model.specs.Plan.{block_in};
ghost use Rattle.model.specs.Writing.{bytes_of, record_bytes};
ghost use Rattle.text.specs.Pasted.{Room, Put};
ghost use Rattle.header.specs.Format.{as_format};
ghost use Rattle.encoding.specs.Pieces.{numbers_bytes, header_with, NumbersAsked};
ghost use Rattle.encoding.specs.Widths.{as_widths};

use header::{Format, Header};
use records::Records;

// The mark.
const MARK: u64 = 0x42504C;

// The widths that a new file's fields are written in: any, and not those of a version's format alone.
#[derive(Clone, Copy)]
pub struct Widths {
    pub feeds_width: usize,
    pub popularity_width: usize,
    pub min_replicas_width: usize,
    pub min_domains_width: usize,
    pub pair_byte_width: usize,
}

// Those of a format.
pub fn widths_of(format: Format) -> Widths
    ensures { as_widths result ≡ as_format format }
{
    Widths {
        feeds_width: format.feeds_width,
        popularity_width: format.popularity_width,
        min_replicas_width: format.min_replicas_width,
        min_domains_width: format.min_domains_width,
        pair_byte_width: format.pair_byte_width,
    }
}

// Puts a number in `width` bytes, high byte first: those of n / 256 before the last one.
fn put_number(buffer: &mut [u8], at: usize, width: usize, n: u64) -> usize
    requires { Room at (bytes_of width n) buffer.old }
    ensures { Put at (bytes_of width n) buffer.old buffer.new result }
{
    if width == 0 {
        return at;
    }
    let last = (n % 256) as u8;
    let next = put_number(buffer, at, width - 1, n / 256);
    text::put_byte(buffer, next, last)
}

// Puts numbers one after the other, each in its width.
fn put_numbers(buffer: &mut [u8], at: usize, widths: &[usize], numbers: &[u64]) -> usize
    requires { NumbersAsked at widths.now numbers.now buffer.old }
    ensures { Put at (numbers_bytes widths.now numbers.now) buffer.old buffer.new result }
{
    let mut next = at;
    for (&width, &number) in widths.iter().zip(numbers) {
        next = put_number(buffer, next, width, number);
    }
    next
}

// Puts the header's fields, with a version and in its widths.
pub fn put_header(h: Header, version: usize, new: Widths, buffer: &mut [u8]) -> usize
    requires { Room 0 (header_with version (as_widths new) h) buffer.old }
    ensures { Put 0 (header_with version (as_widths new) h) buffer.old buffer.new result }
{
    let cluster = h.cluster;
    let widths = [3, 2, 1, 1, new.feeds_width, 2, 4, 2];
    let numbers = [
        MARK,
        version as u64,
        cluster.racks as u64,
        cluster.rack_size as u64,
        cluster.feeds as u64,
        cluster.capacity as u64,
        h.budget as u64,
        cluster.blocks as u64,
    ];
    put_numbers(buffer, 0, &widths, &numbers)
}

// Puts block i of the records as a record in the new widths.
pub fn put_record(records: &Records, new: Widths, i: usize, buffer: &mut [u8], at: usize) -> usize
    requires { (i < records.now.blocks)
        × Room at (record_bytes (as_widths new) (block_in (as_format records.now.format) records.now.bytes.now i)) buffer.old }
    ensures { Put at (record_bytes (as_widths new) (block_in (as_format records.now.format) records.now.bytes.now i)) buffer.old
        buffer.new result }
{
    let widths = [
        new.popularity_width,
        new.min_replicas_width,
        new.min_domains_width,
        new.pair_byte_width,
    ];
    let numbers = [
        records.popularity(i),
        records.min_replicas(i) as u64,
        records.min_domains(i) as u64,
        records.pair_byte(i) as u64,
    ];
    put_numbers(buffer, at, &widths, &numbers)
}
