// A cluster's numbers, and those of its blocks in one word each, as they travel from the reader to every inner function.
#![tactic(auto)]

ghost use Rattle.std.specs.Prelude.{◌≡◌, ◌+◌, ◌≤◌, ◌<◌};
ghost use Rattle.model.specs.Refusal.{max_machines, max_blocks};
ghost use Rattle.theory.specs.Widths.{popularity_bound, share_bound};
ghost use Rattle.cluster.specs.Cluster.{machines_in, InRange};
ghost use Rattle.cluster.specs.Blocks.{link_in, linked_to, demand_word, popularity_in, least_in, spread_asked, most_in, profile_word, share_in, count_in, spread_in};

// The most machines and the most blocks of a plan.
pub const MAX_MACHINES: usize = 64;

pub const MAX_BLOCKS: usize = 1024;

// The racks R, the machines in each S, the mains feeds F, the copies that a machine can hold C, and the blocks B.
#[derive(Clone, Copy)]
pub struct Cluster {
    pub racks: usize,
    pub rack_size: usize,
    pub feeds: usize,
    pub capacity: usize,
    pub blocks: usize,
}

impl Cluster {
    // M = R × S.
    pub fn machines(self) -> usize
        requires { InRange self }
        ensures { (result ≡ machines_in self) × (result ≤ max_machines) }
    {
        self.racks * self.rack_size
    }
}

// What the plan demands of a block, in one word.
pub fn demand(popularity: u64, least: usize, spread: usize, most: usize, link: usize) -> u64
    requires { (popularity < popularity_bound) × (least < 256) × (spread < 256) × (most < 256) × (link < 4) }
    ensures { result ≡ demand_word popularity least spread most link }
{
    (((popularity * 256 + least as u64) * 256 + spread as u64) * 256 + most as u64) * 4
        + link as u64
}

pub fn popularity_of(demand: u64) -> u64
    ensures { result ≡ popularity_in demand }
{
    demand / 67108864
}

pub fn least_of(demand: u64) -> usize
    ensures { result ≡ least_in demand }
{
    (demand / 262144 % 256) as usize
}

pub fn spread_asked(demand: u64) -> usize
    ensures { result ≡ spread_asked demand }
{
    (demand / 1024 % 256) as usize
}

pub fn most_of(demand: u64) -> usize
    ensures { result ≡ most_in demand }
{
    (demand / 4 % 256) as usize
}

// The link to its partner, of a demand or a profile.
pub fn link_of(word: u64) -> usize
    ensures { (result ≡ link_in word) × (result < 4) }
{
    (word % 4) as usize
}

// The block that the link of block i names: its partner, or i itself where it has none.
pub fn linked_to(word: u64, i: usize) -> usize
    requires { (1 ≤ i + link_in word) × (i < max_blocks) }
    ensures { result ≡ linked_to word i }
{
    i + link_of(word) - 1
}

// A block's share, count, spread and link, in one word.
pub fn profile(share: u64, count: usize, spread: usize, link: usize) -> u64
    requires { (share < share_bound) × (count < 256) × (spread < 256) × (link < 4) }
    ensures { result ≡ profile_word share count spread link }
{
    ((share * 256 + count as u64) * 256 + spread as u64) * 4 + link as u64
}

pub fn share_of(profile: u64) -> u64
    ensures { result ≡ share_in profile }
{
    profile / 262144
}

pub fn count_of(profile: u64) -> usize
    ensures { result ≡ count_in profile }
{
    (profile / 1024 % 256) as usize
}

pub fn spread_of(profile: u64) -> usize
    ensures { result ≡ spread_in profile }
{
    (profile / 4 % 256) as usize
}
