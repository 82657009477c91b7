// The header of a plan file: its fields, and the checks 1 to 7 and 22; the format that its version gives.
#![tactic(auto)]

ghost use Rattle.std.specs.Prelude.{◌≡◌, ◌+◌, ◌<◌, ◌≤◌, ◌^◌, length};
ghost use Rattle.model.specs.Plan.{field, common_length, format_of, format_in, header_length};
ghost use Rattle.model.specs.Refusal.{max_blocks};
ghost use Rattle.refusal.specs.Rows.{code_of};
ghost use Rattle.header.specs.Format.{as_format};
ghost use Rattle.header.specs.Header.{HallRows, SizeRows, MarkChecked, HeaderChecked};

mod formats;
mod front;

use cluster::{Cluster, MAX_BLOCKS, MAX_MACHINES};
use formats::COMMON_LENGTH;
pub use formats::Format;
use front::Fields;
use refusal::Refusal;

// The mark, the latest version, and the most copies that a machine can be said to hold.
const MARK: usize = 0x42504C;

const LATEST_VERSION: usize = 4;

const MAX_CAPACITY: usize = 1024;

// The header's fields: the version, R, S, F, C and B, and the budget.
#[derive(Clone, Copy)]
pub struct Header {
    pub version: usize,
    pub cluster: Cluster,
    pub budget: usize,
}

// The number in the `width` bytes from `at` on, high byte first.
// It counts an index: with a loop over the part of the slice, taking a plan apart took 4 to 23 % longer.
pub fn field_at(bytes: &[u8], at: usize, width: usize) -> usize
    requires { (at + width ≤ length bytes.now) × (width ≤ 4) }
    ensures { (result ≡ field bytes.now at width) × (result < 256 ^ width) }
{
    let mut value: usize = 0;
    for k in 0..width {
        value = value * 256 + usize::from(bytes[at + k]);
    }
    value
}

// The same for a field of one byte or none, without a loop: with one, choosing counts took up to a tenth longer.
pub fn byte_at(bytes: &[u8], at: usize, width: usize) -> usize
    requires { (at + width ≤ length bytes.now) × (width ≤ 1) }
    ensures { (result ≡ field bytes.now at width) × (result < 256 ^ width) }
{
    if width == 0 {
        return 0;
    }
    usize::from(bytes[at])
}

// The format of a version's file: F from version 4 on, a popularity of three bytes before version 3, and a pair byte from version 2 on.
pub fn format_of(version: usize) -> Format
    ensures { as_format result ≡ format_of version }
{
    Format {
        feeds_width: usize::from(version >= 4),
        popularity_width: if version < 3 { 3 } else { 4 },
        min_replicas_width: 1,
        min_domains_width: 1,
        pair_byte_width: usize::from(version >= 2),
    }
}

// The format of these bytes.
pub fn format_in(bytes: &[u8]) -> Format
    requires { common_length ≤ length bytes.now }
    ensures { as_format result ≡ format_in bytes.now }
{
    format_of(field_at(bytes, 3, 2))
}

// Checks 1 to 3, where versions 1 to `latest` are read.
pub fn check_mark(bytes: &[u8], latest: usize) -> Result<(), Refusal>
    ensures { MarkChecked latest bytes.now (code_of result) }
{
    if bytes.len() < COMMON_LENGTH {
        return Err(Refusal::ShortFile);
    }
    if field_at(bytes, 0, 3) != MARK {
        return Err(Refusal::Mark);
    }
    let version = field_at(bytes, 3, 2);
    if version == 0 || version > latest {
        return Err(Refusal::Version);
    }
    Ok(())
}

// Checks 4, 22 and 5.
fn check_hall(racks: usize, rack_size: usize, feeds: usize, capacity: usize) -> Result<(), Refusal>
    requires { (racks < 256) × (rack_size < 256) }
    ensures { HallRows racks rack_size feeds capacity (code_of result) }
{
    if racks == 0 || rack_size == 0 || racks * rack_size > MAX_MACHINES {
        return Err(Refusal::Machines);
    }
    if feeds == 0 || racks % feeds != 0 {
        return Err(Refusal::Feeds);
    }
    if capacity == 0 || capacity > MAX_CAPACITY {
        return Err(Refusal::Capacity);
    }
    Ok(())
}

// Checks 6 and 7.
fn check_size(format: Format, blocks: usize, size: usize) -> Result<(), Refusal>
    requires { size < header_length (as_format format) → blocks ≤ max_blocks }
    ensures { SizeRows (as_format format) blocks size (code_of result) }
{
    if blocks > MAX_BLOCKS {
        return Err(Refusal::Blocks);
    }
    if size != format.record_at(blocks) {
        return Err(Refusal::FileLength);
    }
    Ok(())
}

// Checks 1 to 4, 22 and 5 to 7, in this order, or the header.
pub fn read(bytes: &[u8]) -> Result<Header, Refusal>
    ensures { HeaderChecked bytes.now result }
{
    check_mark(bytes, LATEST_VERSION)?;
    let format = format_in(bytes);
    let h = Fields { bytes, format }.header();
    let c = h.cluster;
    check_hall(c.racks, c.rack_size, c.feeds, c.capacity)?;
    check_size(format, c.blocks, bytes.len())?;
    Ok(h)
}
