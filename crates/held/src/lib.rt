// A placement with what its blocks count: each block's word and profile, and the cluster.
#![tactic(auto)]

ghost use Rattle.std.specs.Prelude.{◌≡◌, ◌<◌, get_or};
ghost use Rattle.cluster.specs.Blocks.{share_in, linked_to, PlacementFits};

use cluster::Cluster;

// The words and the profiles have room and range for the cluster's blocks.
#[derive(Clone, Copy)]
pub struct Held<'a> {
    pub words: &'a [u64],
    pub profiles: &'a [u64],
    pub cluster: Cluster,
    ghost fits: { PlacementFits cluster words.now profiles.now },
}

impl<'a> Held<'a> {
    // The share of each copy of block i.
    #[inline]
    pub fn share(&self, i: usize) -> u64
        requires { i < self.now.cluster.blocks }
        ensures { result ≡ share_in (get_or self.now.profiles.now i 0) }
    {
        cluster::share_of(self.profiles[i])
    }

    // The block that the link of block i names: its partner, or i itself where it has none.
    #[inline]
    pub fn linked(&self, i: usize) -> usize
        requires { i < self.now.cluster.blocks }
        ensures { result ≡ linked_to (get_or self.now.profiles.now i 0) i }
    {
        cluster::linked_to(self.profiles[i], i)
    }
}
