// The copies that blocks need at a figure: shares as fractions, the least count whose share is within it, and the passes over all blocks.
#![tactic(auto)]

ghost use Rattle.std.specs.Prelude.{◌≡◌, ◌<◌, max, ltb};
ghost use Rattle.model.specs.Plan.{Plan};
ghost use Rattle.theory.specs.Widths.{share_bound};
ghost use Rattle.cluster.specs.Blocks.{DemandsFit, DemandsOf};
ghost use Rattle.needs.specs.Needs.{fraction_share, NextShareAsked, NextAs, ScaleOf, NeedAsked, NeedOf, FigureAsked, TallyFits, TallyOf, ExtentFits, ExtentOf};

mod fractions;

use cluster::Cluster;
pub use fractions::Fraction;

// The units in a read.
pub const UNIT: u64 = 2520;

// Estimates are reckoned in parts of a copy, 2^48 to one copy: these, and the units in a read times these.
const PARTS: u64 = 281474976710656;

const UNIT_PARTS: u64 = UNIT * PARTS;

// The smallest share of a block with one copy less than its need, and how many blocks have it.
#[derive(Clone, Copy)]
struct NextShare {
    share: Fraction,
    blocks: usize,
}

// The needs at a figure: their sum, the next share, and the sum of the needs there.
#[derive(Clone, Copy)]
pub struct Tally {
    pub total: usize,
    pub next: u64,
    pub fewer: usize,
}

// The largest shares at the upper counts and at the least copies; the sums of the popularities and of the least copies.
#[derive(Clone, Copy)]
pub struct Extent {
    pub low: u64,
    pub high: u64,
    pub popularity: u64,
    pub copies: usize,
}

// The share in units: the popularity times the unit's quotient by the count.
pub fn share_at(at: Fraction) -> u64
    ensures { result ≡ fraction_share at }
{
    at.popularity * (UNIT / at.count as u64)
}

// The larger of a share and another one, which is divided only where it is the larger.
fn raised(top: u64, share: Fraction) -> u64
    requires { top < share_bound }
    ensures { result ≡ max top (fraction_share share) }
{
    if top * (share.count as u64) < share.popularity * UNIT {
        return share_at(share);
    }
    top
}

// Shares are compared without a division: by the popularities, each times the other's count. A function: `PartialOrd` would want an
// equality of the shares, which is not that of the fields.
fn is_less(a: Fraction, b: Fraction) -> bool
    ensures { result ≡ ltb (fraction_share a) (fraction_share b) }
{
    a.popularity * (b.count as u64) < b.popularity * (a.count as u64)
}

// The next share with one block's share more that is not above it: of equal shares the blocks of both.
fn next_with(next: Option<NextShare>, share: Fraction) -> NextShare
    requires { NextShareAsked next share }
    ensures { NextAs next share result }
{
    match next {
        Some(next) if !is_less(share, next.share) => {
            let blocks = next.blocks + 1;
            NextShare { share, blocks }
        }
        _ => NextShare { share, blocks: 1 },
    }
}

// What a popularity is multiplied by to estimate the copies, in parts, that keep its share within the figure; rounded down.
pub fn scale_of(figure: u64) -> u64
    requires { figure < share_bound }
    ensures { ScaleOf figure result }
{
    UNIT_PARTS / (figure + 1)
}

// The least count from the least copies on whose share is within the figure: the popularity in units is at most figure × count. The
// estimate is never too large, and at most one too small.
pub fn needed(demand: u64, figure: u64, scale: u64) -> usize
    requires { NeedAsked demand figure scale }
    ensures { NeedOf demand figure result }
{
    let popularity = cluster::popularity_of(demand);
    let estimate = (popularity * scale + (PARTS - 1)) / PARTS;
    let k = estimate.max(cluster::least_of(demand) as u64);
    if figure * k < popularity * UNIT {
        return k as usize + 1;
    }
    k as usize
}

// The needs at a figure that no block is above at its upper count.
pub fn tally_of(demands: &[u64], cluster: Cluster, wanted: u64) -> Tally
    requires { FigureAsked cluster demands.now wanted }
    ensures { TallyFits cluster wanted result × ((p : Plan) → DemandsOf p cluster demands.now → TallyOf p wanted result) }
{
    let scale = scale_of(wanted);
    let mut total: usize = 0;
    let mut next: Option<NextShare> = None;
    for &demand in &demands[..cluster.blocks] {
        let count = needed(demand, wanted, scale);
        total += count;
        if count > cluster::least_of(demand) {
            let popularity = cluster::popularity_of(demand);
            let count = count - 1;
            let share = Fraction { popularity, count };
            if let Some(smallest) = next
                && is_less(smallest.share, share)
            {
                continue;
            }
            next = Some(next_with(next, share));
        }
    }
    // Where all blocks have their least copies, the needs stay the same at any larger figure.
    let Some(next) = next else {
        return Tally {
            total,
            next: wanted + 1,
            fewer: total,
        };
    };
    let share = next.share;
    Tally {
        total,
        next: share_at(share),
        fewer: total - next.blocks,
    }
}

// What the bisection starts from.
pub fn extent_of(demands: &[u64], cluster: Cluster) -> Extent
    requires { DemandsFit cluster demands.now }
    ensures { ExtentFits cluster result × ((p : Plan) → DemandsOf p cluster demands.now → ExtentOf p result) }
{
    let mut low: u64 = 0;
    let mut high: u64 = 0;
    let mut total: u64 = 0;
    let mut copies: usize = 0;
    for &demand in &demands[..cluster.blocks] {
        let popularity = cluster::popularity_of(demand);
        let count = cluster::most_of(demand);
        low = raised(low, Fraction { popularity, count });
        let count = cluster::least_of(demand);
        high = raised(high, Fraction { popularity, count });
        total += popularity;
        copies += count;
    }
    Extent {
        low,
        high,
        popularity: total,
        copies,
    }
}
