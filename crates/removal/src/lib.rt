// A block deleted from a placement's words: which blocks go, and the later ones close up.
#![tactic(auto)]

ghost use Rattle.std.specs.Prelude.{◌≡◌, ℕ, ◌+◌, ◌<◌, ◌≤◌};
ghost use Rattle.model.specs.Plan.{Plan};
ghost use Rattle.cluster.specs.Blocks.{link_in, PlacementFits, ProfilesOf};
ghost use Rattle.removal.specs.Removal.{GoneWith, CloseAsked, closed_up, Removed};

use cluster::Cluster;

// The first of the blocks that go together, and how many they are.
#[derive(Clone, Copy)]
pub struct Gone {
    pub first: usize,
    pub count: usize,
}

// The blocks that go with block i, by the link of its profile or demand: both of a pair, else the block alone.
pub fn gone_with(word: u64, i: usize) -> Gone
    requires { 1 ≤ i + link_in word }
    ensures { GoneWith word i result }
{
    match cluster::link_of(word) {
        0 => Gone {
            first: i - 1,
            count: 2,
        },
        1 => Gone { first: i, count: 1 },
        _ => Gone { first: i, count: 2 },
    }
}

// The `count` words from `first` on go: the later ones of the first `blocks` move down, the vacated ones become 0, the others stay.
pub fn close_up(words: &mut [u64], blocks: usize, first: usize, count: usize)
    requires { CloseAsked words.old blocks first count }
    ensures { words.new ≡ closed_up blocks first count words.old }
{
    let end = blocks - count;
    words.copy_within(first + count..blocks, first);
    words[end..blocks].fill(0);
}

// A block deleted, with its partner where it has one. Answers which blocks went.
pub fn remove(words: &mut [u64], profiles: &[u64], cluster: Cluster, block: usize) -> Gone
    requires { PlacementFits cluster words.old profiles.now × (block < cluster.blocks) }
    ensures { (p : Plan) (count : ℕ → ℕ) → ProfilesOf p count cluster profiles.now
        → Removed p block words.old words.new result }
{
    let gone = gone_with(profiles[block], block);
    close_up(words, cluster.blocks, gone.first, gone.count);
    gone
}
