// Records, read where they lie in their bytes: a block's fields, its link, and check 17 of one block.
ghost use Rattle.std.specs.Prelude.{◌≡◌, ◌<◌, ◌≤◌, length};
ghost use Rattle.model.specs.Plan.{Plan, block_count, record_at, block_in};
ghost use Rattle.model.specs.Refusal.{max_blocks, alike, pair_refusal};
ghost use Rattle.theory.specs.Widths.{popularity_bound};
ghost use Rattle.refusal.specs.Rows.{code_of};
ghost use Rattle.cluster.specs.Blocks.{link_of};
ghost use Rattle.header.specs.Format.{as_format};
ghost use Rattle.records.specs.Records.{RecordsOf};

use header::Format;
use refusal::Refusal;

// So many records in a format, which all lie in the bytes: of any bytes, whatever their header says.
#[derive(Clone, Copy)]
pub struct Records<'a> {
    pub bytes: &'a [u8],
    pub format: Format,
    pub blocks: usize,
    ghost blocks_max: { blocks ≤ max_blocks },
    ghost room: { record_at (as_format format) blocks ≤ length bytes.now },
}

impl<'a> Records<'a> {
    // The popularity of block i. With the widths that versions have named here, the compiler reads the bytes without a loop.
    pub fn popularity(&self, i: usize) -> u64
        requires { i < self.now.blocks }
        ensures { (result ≡ (block_in (as_format self.now.format) self.now.bytes.now i).popularity) × (result < popularity_bound) }
    {
        let at = self.format.record_at(i);
        if self.format.popularity_width == 3 {
            return header::field_at(self.bytes, at, 3) as u64;
        }
        if self.format.popularity_width == 4 {
            return header::field_at(self.bytes, at, 4) as u64;
        }
        header::field_at(self.bytes, at, self.format.popularity_width) as u64
    }

    // The least copies of block i.
    pub fn min_replicas(&self, i: usize) -> usize
        requires { i < self.now.blocks }
        ensures { (result ≡ (block_in (as_format self.now.format) self.now.bytes.now i).min_replicas) × (result < 256) }
    {
        let at = self.format.record_at(i) + self.format.popularity_width;
        header::byte_at(self.bytes, at, self.format.min_replicas_width)
    }

    // The spread of block i.
    pub fn min_domains(&self, i: usize) -> usize
        requires { i < self.now.blocks }
        ensures { (result ≡ (block_in (as_format self.now.format) self.now.bytes.now i).min_domains) × (result < 256) }
    {
        let at = self.format.record_at(i)
            + self.format.popularity_width
            + self.format.min_replicas_width;
        header::byte_at(self.bytes, at, self.format.min_domains_width)
    }

    // The pair byte of block i: 0 where the format has none.
    pub fn pair_byte(&self, i: usize) -> usize
        requires { i < self.now.blocks }
        ensures { result ≡ (block_in (as_format self.now.format) self.now.bytes.now i).pair_byte }
    {
        let at = self.format.record_at(i)
            + self.format.popularity_width
            + self.format.min_replicas_width
            + self.format.min_domains_width;
        header::byte_at(self.bytes, at, self.format.pair_byte_width)
    }

    // The link of block i to its partner: 2 to the next block, 0 to the preceding one, 1 where it has none.
    // It stays a number: a demand's word keeps it in two bits, and the partner is block i + link - 1.
    pub fn link(&self, i: usize) -> usize
        requires { i < self.now.blocks }
        ensures { ((p : Plan) → RecordsOf p (as_format self.now.format) self.now.bytes.now → i < block_count p
            → result ≡ link_of p i) × (result < 4) }
    {
        if self.format.pair_byte_width == 0 {
            return 1;
        }
        if self.pair_byte(i) == 1 {
            return 2;
        }
        if i == 0 {
            return 1;
        }
        if self.pair_byte(i - 1) == 1 {
            return 0;
        }
        1
    }

    // Whether blocks i and j have the same popularity, least copies and spread.
    fn are_alike(&self, i: usize, j: usize) -> bool
        requires { (i < self.now.blocks) × (j < self.now.blocks) }
        ensures { result ≡ alike (block_in (as_format self.now.format) self.now.bytes.now i) (block_in (as_format self.now.format) self.now.bytes.now j) }
    {
        self.popularity(i) == self.popularity(j)
            && self.min_replicas(i) == self.min_replicas(j)
            && self.min_domains(i) == self.min_domains(j)
    }

    // Check 17 of block i.
    pub fn check_pair(&self, i: usize) -> Result<(), Refusal>
        requires { i < self.now.blocks }
        ensures { (p : Plan) → RecordsOf p (as_format self.now.format) self.now.bytes.now → self.now.blocks ≡ block_count p
            → code_of result ≡ pair_refusal p i }
    {
        let byte = self.pair_byte(i);
        if byte == 0 {
            return Ok(());
        }
        let next = i + 1;
        if byte > 1
            || next == self.blocks
            || self.pair_byte(next) == 1
            || !self.are_alike(i, next)
        {
            return Err(Refusal::PairByte);
        }
        Ok(())
    }
}
