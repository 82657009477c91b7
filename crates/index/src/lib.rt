// The index of a placement: each machine's blocks as bit sets, by number and by rank, the blocks in order of their shares, and the
// machines' loads.
#![tactic(auto)]

ghost use Rattle.std.specs.Prelude.{List, ℕ};
ghost use Rattle.cluster.specs.Blocks.{ProfilesFit};
ghost use Rattle.index.specs.Index.{Ordered, Cleared, Indexed, Kept, MarkAsked, MarkedAt, EnterAsked, Entered, FillAsked, NextAsked, NextOf, AboveAsked, AboveOf};

use cluster::{Cluster, MAX_BLOCKS, MAX_MACHINES};

// The words of a set for each machine: sixteen words for each of 64 machines.
pub const SET_WORDS: usize = 1024;

// Each machine's blocks by number and by rank, the keys of the blocks by rising share, each block's rank, and each machine's load.
#[derive(Drop)]
pub struct Index {
    pub by_number: [u64; SET_WORDS],
    pub by_rank: [u64; SET_WORDS],
    pub keys: [u64; MAX_BLOCKS],
    pub ranks: [u64; MAX_BLOCKS],
    pub loads: [u64; MAX_MACHINES],
}

// Place i entered at machine m, which has no entry there.
fn mark(part: &mut [u64; SET_WORDS], m: usize, i: usize)
    requires { MarkAsked part.old m i }
    ensures { MarkedAt part.old m i part.new }
{
    let at = m * 16 + i / 64;
    part[at] = bits::with_bit(part[at], i % 64);
}

impl Index {
    // No bit sets and no order yet.
    pub fn empty() -> Index
        ensures { Cleared result }
    {
        Index {
            by_number: [0; SET_WORDS],
            by_rank: [0; SET_WORDS],
            keys: [0; MAX_BLOCKS],
            ranks: [0; MAX_BLOCKS],
            loads: [0; MAX_MACHINES],
        }
    }

    // Puts the blocks in order of their shares into an index that has no bit sets yet. It does not return a new index: all parts of a
    // returned one are copied once (measured: 0.6 µs longer).
    pub fn start(&mut self, profiles: &[u64], cluster: Cluster)
        requires { ProfilesFit cluster profiles.now × Cleared self.old }
        ensures { Ordered cluster profiles.now self.new × Cleared self.new }
    {
        ranking::rank(profiles, cluster, &mut self.keys[..]);
        ranking::ranks(&self.keys[..], cluster, &mut self.ranks[..]);
    }

    // The bit sets emptied; the order stays.
    pub fn clear(&mut self)
        ensures { Cleared self.new × Kept self.old self.new }
    {
        self.by_number.fill(0);
        self.by_rank.fill(0);
    }

    // Block i entered at the machines that its word names, by number and by rank.
    fn enter(&mut self, word: u64, i: usize)
        requires { EnterAsked self.old i }
        ensures { Entered self.old word i self.new }
    {
        let r = self.ranks[i] as usize;
        for m in bits::ones(word) {
            mark(&mut self.by_number, m, i);
            mark(&mut self.by_rank, m, r);
        }
    }

    // The bit sets of a placement, in an index that has none; the order stays.
    pub fn fill(&mut self, words: &[u64], cluster: Cluster)
        requires { FillAsked cluster words.now self.old }
        ensures { (profiles : List ℕ) → Ordered cluster profiles self.old
            → Indexed cluster words.now profiles self.new }
    {
        for i in 0..cluster.blocks {
            self.enter(words[i], i);
        }
    }

    // The first rank whose share is above `bound`; past the last block where there is none, and no `Option`: the ranks from it on are
    // the answer.
    pub fn first_above(&self, bound: u64, cluster: Cluster) -> usize
        requires { AboveAsked self.now cluster }
        ensures { AboveOf self.now bound cluster result }
    {
        let keys = &self.keys[..cluster.blocks];
        keys.partition_point(|key| ranking::key_share(*key) <= bound)
    }
}

// The first place from `from` on, by number or by rank, of a block that m holds and n does not; none where there is no such block.
// The loop stays a `while`: it goes on by words of 64 places.
pub fn next(
    part: &[u64; SET_WORDS],
    m: usize,
    n: usize,
    from: usize,
    cluster: Cluster,
) -> Option<usize>
    requires { NextAsked m n from cluster }
    ensures { NextOf part.now m n from cluster result }
{
    let mut k = from;
    while k < cluster.blocks {
        let free = bits::and_not(part[m * 16 + k / 64], part[n * 16 + k / 64]) >> (k % 64);
        if free != 0 {
            let at = k + bits::lowest(free);
            return if at < cluster.blocks { Some(at) } else { None };
        }
        k = (k / 64 + 1) * 64;
    }
    None
}
