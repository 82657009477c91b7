// Cheap tests that rule out a route between two machines: over the blocks by rising share, no move or no exchange can lower m's load and
// keep n's below it. They never rule out a route that has a step, whatever the spreads.
#![tactic(auto)]

ghost use Rattle.std.specs.Prelude.{◌≡◌, Bool, IfSome};
ghost use Rattle.screen.specs.Screen.{ScreenAsked, NoMove, NoExchange, RuledOut, SweepAsked, BlockSwept, WordAsked, WordSwept};

use cluster::Cluster;
use index::Index;

// The blocks passed by rising share: n's largest share, and below which share of m's it or the next smaller one can be returned
// (0 where there is none, and no `Option`: no share is below it).
#[derive(Clone, Copy)]
struct Sweep {
    top: u64,
    reach: u64,
    under: u64,
}

// No block of m's that n lacks has a share above 0 and below the margin.
fn no_move(index: &Index, cluster: Cluster, m: usize, n: usize, margin: u64) -> bool
    requires { ScreenAsked cluster index.now m n margin }
    ensures { result ≡ Bool.true → NoMove cluster index.now m n margin }
{
    let mut k: usize = 0;
    while let Some(rank) = index::next(&index.by_rank, m, n, k, cluster) {
        let share = ranking::key_share(index.keys[rank]);
        if share != 0 {
            return margin <= share;
        }
        k = rank + 1;
    }
    true
}

// One block more: m's own, to be exchanged for one passed before, or n's own. None where m's can be exchanged.
fn sweep_block(sweep: Sweep, own: bool, share: u64, margin: u64) -> Option<Sweep>
    requires { SweepAsked share margin }
    ensures { IfSome result (BlockSwept sweep own share margin) }
{
    let above = sweep.top < share;
    if own {
        let nearest = if above { sweep.reach } else { sweep.under };
        return if share < nearest { None } else { Some(sweep) };
    }
    let reach = margin + share;
    if above {
        return Some(Sweep {
            top: share,
            reach,
            under: sweep.reach,
        });
    }
    Some(Sweep { reach, ..sweep })
}

// The 64 blocks from rank `base` on that one of the machines has and the other lacks; a and b are the machines' bits.
fn sweep_word(
    a: u64,
    b: u64,
    index: &Index,
    base: usize,
    margin: u64,
    start: Sweep,
) -> Option<Sweep>
    requires { WordAsked index.now base margin }
    ensures { IfSome result (WordSwept a b index.now base margin start) }
{
    let mut sweep = start;
    for t in bits::ones(bits::differing(a, b)) {
        let own = bits::bit_at(a, t) == 1;
        let share = ranking::key_share(index.keys[base + t]);
        sweep = sweep_block(sweep, own, share, margin)?;
    }
    Some(sweep)
}

// No block of m's that n lacks has a share above that of one of n's that m lacks by less than the margin.
fn no_exchange(index: &Index, cluster: Cluster, m: usize, n: usize, margin: u64) -> bool
    requires { ScreenAsked cluster index.now m n margin }
    ensures { result ≡ Bool.true → NoExchange cluster index.now m n margin }
{
    let mut sweep = Sweep {
        top: 0,
        reach: 0,
        under: 0,
    };
    for word in 0..cluster.blocks.div_ceil(64) {
        let a = index.by_rank[m * 16 + word];
        let b = index.by_rank[n * 16 + word];
        let Some(swept) = sweep_word(a, b, index, word * 64, margin, sweep) else {
            return false;
        };
        sweep = swept;
    }
    true
}

// Whether the shares rule out every move from m to n, or every exchange between them, where m has `margin` more load.
pub fn rules_out(
    index: &Index,
    cluster: Cluster,
    m: usize,
    n: usize,
    margin: u64,
    swapping: bool,
) -> bool
    requires { ScreenAsked cluster index.now m n margin }
    ensures { result ≡ Bool.true → RuledOut cluster index.now m n margin swapping }
{
    if swapping {
        no_exchange(index, cluster, m, n, margin)
    } else {
        no_move(index, cluster, m, n, margin)
    }
}
