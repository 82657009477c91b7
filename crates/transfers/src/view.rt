// What a search reads.
#![tactic(auto)]

ghost use Rattle.index.specs.Index.{Indexed};

use held::Held;
use index::Index;

// What a search reads: a placement held, and its index, which has the machines' blocks and every block's rank.
#[derive(Clone, Copy)]
pub struct Scene<'a> {
    pub held: Held<'a>,
    pub index: &'a Index,
    ghost indexed: { Indexed held.cluster held.words.now held.profiles.now index.now },
}
