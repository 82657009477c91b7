// The first placement: copies laid down in file order, each on the next position.
#![tactic(auto)]

ghost use Rattle.std.specs.Prelude.{◌≡◌, ℕ, ◌<◌};
ghost use Rattle.order.specs.Table.{filled};
ghost use Rattle.model.specs.Plan.{Plan, block_count};
ghost use Rattle.model.specs.Replication.{chosen};
ghost use Rattle.model.specs.Placement.{first_word};
ghost use Rattle.cluster.specs.Cluster.{machines_in};
ghost use Rattle.cluster.specs.Blocks.{ProfilesOf};
ghost use Rattle.layout.specs.Circle.{OnCircle, cursor_at, visit_at, LayAsked, LaidAs, LayAllAsked};

use cluster::Cluster;

// A position on the circle of all machines: position t is `rack` t mod R at `level` t div R.
#[derive(Clone, Copy)]
pub struct Cursor {
    pub cluster: Cluster,
    pub rack: usize,
    pub level: usize,
}

// A machine, and the cursor at the position after it.
#[derive(Clone, Copy)]
pub struct Visit {
    pub machine: usize,
    pub cursor: Cursor,
}

// A block's word, and the cursor past its copies.
#[derive(Clone, Copy)]
pub struct LaidBlock {
    pub word: u64,
    pub cursor: Cursor,
}

impl Cursor {
    // The first position, 0.
    pub fn start(cluster: Cluster) -> Cursor
        ensures { result ≡ cursor_at cluster 0 }
    {
        Cursor {
            cluster,
            rack: 0,
            level: 0,
        }
    }

    // The machine at this position, and the cursor at the next; after the last position comes 0.
    pub fn next(self) -> Visit
        requires { OnCircle self }
        ensures { (t : ℕ) → t < machines_in self.cluster → self ≡ cursor_at self.cluster t → result ≡ visit_at self.cluster t }
    {
        let cluster = self.cluster;
        let machine = self.rack * cluster.rack_size + self.level;
        let mut cursor = self;
        cursor.rack = self.rack + 1;
        if cursor.rack == cluster.racks {
            cursor.rack = 0;
            cursor.level = self.level + 1;
            if cursor.level == cluster.rack_size {
                cursor.level = 0;
            }
        }
        Visit { machine, cursor }
    }
}

// The next `count` positions as a word, and the cursor past them.
pub fn lay(cursor: Cursor, count: usize) -> LaidBlock
    requires { LayAsked cursor count }
    ensures { LaidAs cursor count result }
{
    let mut at = cursor;
    let mut word: u64 = 0;
    for _ in 0..count {
        let visit = at.next();
        word = bits::with_bit(word, visit.machine);
        at = visit.cursor;
    }
    LaidBlock { word, cursor: at }
}

// The first placement of a plan whose blocks' profiles are given; later words stay.
pub fn lay_all(cluster: Cluster, profiles: &[u64], words: &mut [u64])
    requires { LayAllAsked cluster profiles.now words.old }
    ensures { (p : Plan) → ProfilesOf p (chosen p) cluster profiles.now
        → words.new ≡ filled (block_count p) (first_word p) words.old }
{
    let mut cursor = Cursor::start(cluster);
    for i in 0..cluster.blocks {
        let laid = lay(cursor, cluster::count_of(profiles[i]));
        words[i] = laid.word;
        cursor = laid.cursor;
    }
}
