// Bits of a 64-bit word. Bit m of a placement's word says whether machine m holds the block.
#![tactic(auto)]

ghost use Rattle.std.specs.Prelude.{◌≡◌, Bool, ◌↔◌, ℕ, ◌+◌, ◌*◌, ◌-◌, ◌%◌, ◌<◌, ◌≤◌, ◌^◌, min, ltb};
ghost use Rattle.order.specs.Sum.{sum};
ghost use Rattle.model.specs.Plan.{Plan};
ghost use Rattle.model.specs.Placement.{bit, domains_used};
ghost use Rattle.model.specs.Steps.{shifted};
ghost use Rattle.cluster.specs.Cluster.{InRange, ClusterOf};
ghost use Rattle.std.specs.Iterator.{at_most};
ghost use Rattle.bits.specs.Words.{Lowest, NextOne, FoldedTo};

use cluster::Cluster;

// Bit m of the word, 0 or 1.
pub fn bit_at(word: u64, m: usize) -> u64
    requires { m < 64 }
    ensures { result ≡ bit word m }
{
    (word >> m) % 2
}

// The word with bit m set, which was clear.
pub fn with_bit(word: u64, m: usize) -> u64
    requires { (m < 64) × (bit word m ≡ 0) }
    ensures { result ≡ word + 2 ^ m }
{
    word + (1u64 << m)
}

// The word with bit m clear, which was set.
pub fn without_bit(word: u64, m: usize) -> u64
    requires { (m < 64) × (bit word m ≡ 1) }
    ensures { result ≡ word - 2 ^ m }
{
    word - (1u64 << m)
}

// The word with the bit at m, which is set, at n instead, which is clear.
pub fn shift_bit(word: u64, m: usize, n: usize) -> u64
    requires { (m < 64) × (n < 64) × (bit word m ≡ 1) × (bit word n ≡ 0) }
    ensures { result ≡ shifted word m n }
{
    word + (1u64 << n) - (1u64 << m)
}

// The lowest set bit of a word that is not 0.
pub fn lowest(word: u64) -> usize
    requires { 0 < word }
    ensures { Lowest word result }
{
    u64::trailing_zeros(word) as usize
}

// The set bits of a word that are still to come, lowest first.
#[derive(Clone, Copy)]
pub struct SetBits {
    pub rest: u64,
}

impl Iterator for SetBits {
    type Item = usize;

    ghost next_gives = { λ s r t. NextOne s.rest r t.rest };

    ghost remaining = { λ s. at_most s.rest };

    #[inline]
    fn next(&mut self) -> Option<usize> {
        if self.rest == 0 {
            return None;
        }
        let m = lowest(self.rest);
        self.rest = without_bit(self.rest, m);
        Some(m)
    }
}

// The set bits of a word, lowest first.
pub fn ones(word: u64) -> SetBits
    ensures { result.rest ≡ word }
{
    SetBits { rest: word }
}

// The bits of a that b lacks.
pub fn and_not(a: u64, b: u64) -> u64
    ensures { (k : ℕ) → bit result k ≡ bit a k * (1 - bit b k) }
{
    a & !b
}

// The bits that one of a and b has and the other lacks.
pub fn differing(a: u64, b: u64) -> u64
    ensures { (k : ℕ) → bit result k ≡ (bit a k + bit b k) % 2 }
{
    a ^ b
}

// Whether a and b have no set bit in common.
pub fn are_disjoint(a: u64, b: u64) -> bool
    ensures { (result ≡ Bool.true) ↔ ((k : ℕ) → bit a k + bit b k ≤ 1) }
{
    a & b == 0
}

// The number of set bits.
pub fn count_set(word: u64) -> usize
    ensures { result ≡ sum 64 (bit word) }
{
    u64::count_ones(word) as usize
}

// Whether every set bit is below `machines`.
pub fn is_below(word: u64, machines: usize) -> bool
    requires { machines ≤ 64 }
    ensures { result ≡ ltb word (2 ^ machines) }
{
    if machines == 64 {
        return true;
    }
    word < (1u64 << machines)
}

// 1 where a bit of the `size` from `from` on is set, else 0.
fn any_of(word: u64, from: usize, size: usize) -> usize
    requires { (from + size ≤ 64) × (1 ≤ size) }
    ensures { result ≡ min 1 (sum size (λ x. bit word (from + x))) }
{
    if size == 64 {
        return usize::from(word != 0);
    }
    usize::from((word >> from) % (1u64 << size) != 0)
}

// How many of the `groups` ranges of `size` bits each have a bit set.
fn groups_used(word: u64, groups: usize, size: usize) -> usize
    requires { (groups * size ≤ 64) × (1 ≤ size) }
    ensures { result ≡ sum groups (λ d. min 1 (sum size (λ x. bit word (d * size + x)))) }
{
    let mut used: usize = 0;
    for d in 0..groups {
        used += any_of(word, d * size, size);
    }
    used
}

// The pieces of `size` bits that the first `total` bits are made of, laid over one another.
fn fold(word: u64, size: usize, total: usize) -> u64
    requires { (1 ≤ size) × (size ≤ total) × (total ≤ 64) }
    ensures { FoldedTo word size total result }
{
    let mut folded = word;
    for at in (size..total).step_by(size) {
        folded |= word >> at;
    }
    folded
}

// How many failure domains a word lies in. Racks on one feed are a turn of F racks apart.
pub fn domains_used(word: u64, cluster: Cluster) -> usize
    requires { InRange cluster }
    ensures { (p : Plan) → ClusterOf p cluster → result ≡ domains_used p word }
{
    let size = cluster.rack_size;
    let folded = fold(word, cluster.feeds * size, cluster.racks * size);
    groups_used(folded, cluster.feeds, size)
}
