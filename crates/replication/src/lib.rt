// Replication factors: how many copies each block gets, and the share of a read that each copy serves.
#![tactic(auto)]

ghost use Rattle.std.specs.Prelude.{◌≡◌, ◌<◌, ◌≤◌, min};
ghost use Rattle.model.specs.Plan.{Plan};
ghost use Rattle.model.specs.Replication.{chosen};
ghost use Rattle.model.specs.Placement.{count_of};
ghost use Rattle.theory.specs.Widths.{share_bound};
ghost use Rattle.cluster.specs.Blocks.{DemandsOf, CountsFit};
ghost use Rattle.needs.specs.Needs.{FigureAsked};
ghost use Rattle.replication.specs.Choice.{BracketAsked, BracketFits, NarrowAsked, NarrowedTo, LimitedDemands, ChooseAsked, FigureOf, ProfileAsked, profile_at, FilledAs};

use cluster::Cluster;
use needs::{Extent, Fraction, Tally, UNIT};

// The most copies over the limit that a probe reckons with.
const MOST_OVER: u64 = 65536;

// Where the bisection stands: no figure below `low` is reachable, and `high` is. For the next probe: by how many copies the needs at
// `low` are over the limit, how many those at `high` leave, and how often the bisection has probed, 6 and 7 in turn after 7.
#[derive(Clone, Copy)]
struct Bracket {
    low: u64,
    high: u64,
    over: u64,
    spare: u64,
    turn: u64,
}

// The bracket before the first probe. At its lower end each block is reckoned to use half of its last copy.
fn bracket_of(extent: Extent, allowed: usize, blocks: usize) -> Bracket
    requires { BracketAsked extent allowed blocks }
    ensures { (result.low ≡ extent.low) × (result.high ≡ extent.high) × BracketFits result }
{
    let copies = extent.popularity * UNIT / (extent.low + 1) + blocks as u64 / 2;
    let over = copies.saturating_sub(allowed as u64).min(MOST_OVER);
    let spare = allowed - extent.copies;
    Bracket {
        low: extent.low,
        high: extent.high,
        over,
        spare: spare as u64,
        turn: 0,
    }
}

// The next figure to try: by interpolation, where the needs would be half a copy over the limit if they went with 1 / figure between both
// ends, since the search ends both at the limit and one copy over it. At turn 7 it is the middle, so that the bracket is halved whatever the
// plan is.
fn probe(bracket: Bracket) -> u64
    requires { BracketFits bracket × (bracket.low < bracket.high) }
    ensures { (bracket.low ≤ result) × (result < bracket.high) }
{
    let range = bracket.high - bracket.low;
    if bracket.turn == 7 {
        return bracket.low + range / 2;
    }
    let over = bracket.low * (2 * bracket.over);
    let both = over + bracket.high * (2 * bracket.spare + 1);
    let weight = over / (both / 65536 + 1);
    bracket.low + range * weight / 65536
}

fn turn_after(turn: u64) -> u64
    requires { turn < 8 }
    ensures { result < 8 }
{
    if turn == 7 { 6 } else { turn + 1 }
}

// The bracket after a probe. The upper end moves to the probe where that is reachable. Else the lower end moves to the next share; where
// that is reachable it is the least figure, and the bracket closes.
fn narrowed(bracket: Bracket, wanted: u64, tally: Tally, allowed: usize) -> Bracket
    requires { NarrowAsked bracket wanted tally allowed }
    ensures { NarrowedTo bracket wanted tally allowed result }
{
    let turn = turn_after(bracket.turn);
    if tally.total <= allowed {
        let spare = allowed - tally.total;
        return Bracket {
            high: wanted,
            spare: spare as u64,
            turn,
            ..bracket
        };
    }
    if tally.fewer <= allowed {
        return Bracket {
            low: tally.next,
            high: tally.next.min(bracket.high),
            over: 0,
            turn,
            ..bracket
        };
    }
    let over = tally.fewer - allowed;
    Bracket {
        low: tally.next,
        over: over as u64,
        turn,
        ..bracket
    }
}

// A figure whose needs are the chosen counts, by bisection: the least that is reachable, or one whose needs use the whole limit. Where the
// least copies do, no other figure is tried. The search stays a `while`: it goes on until its bracket is closed.
pub fn best_figure(demands: &[u64], allowed: usize, cluster: Cluster) -> u64
    requires { ChooseAsked cluster demands.now allowed }
    ensures { ((p : Plan) → LimitedDemands p cluster demands.now allowed → FigureOf p result) × (result < share_bound) }
{
    let extent = needs::extent_of(demands, cluster);
    if extent.copies == allowed {
        return extent.high;
    }
    let mut bracket = bracket_of(extent, allowed, cluster.blocks);
    while bracket.low < bracket.high {
        let wanted = probe(bracket);
        let tally = needs::tally_of(demands, cluster, wanted);
        if tally.total == allowed {
            return wanted;
        }
        bracket = narrowed(bracket, wanted, tally, allowed);
    }
    bracket.high
}

// A block's profile at a count.
fn profile_at(demand: u64, count: usize) -> u64
    requires { ProfileAsked demand count }
    ensures { result ≡ profile_at demand count }
{
    let popularity = cluster::popularity_of(demand);
    let share = needs::share_at(Fraction { popularity, count });
    let spread = cluster::spread_asked(demand);
    cluster::profile(share, count, spread, cluster::link_of(demand))
}

// Puts the blocks' profiles, at the needs within a figure, in the place of their demands, and answers the largest share.
fn fill_needed(items: &mut [u64], cluster: Cluster, wanted: u64) -> u64
    requires { FigureAsked cluster items.old wanted }
    ensures { (p : Plan) → DemandsOf p cluster items.old → FigureOf p wanted
        → FilledAs p (chosen p) cluster items.old items.new result }
{
    let scale = needs::scale_of(wanted);
    let mut top: u64 = 0;
    for i in 0..cluster.blocks {
        let demand = items[i];
        let profile = profile_at(demand, needs::needed(demand, wanted, scale));
        let share = cluster::share_of(profile);
        top = top.max(share);
        items[i] = profile;
    }
    top
}

// Puts the blocks' profiles, at the counts that the words hold, in the place of their demands, and answers the largest share.
pub fn fill_held(items: &mut [u64], words: &[u64], cluster: Cluster) -> u64
    requires { CountsFit cluster words.now items.old }
    ensures { (p : Plan) → DemandsOf p cluster items.old
        → FilledAs p (count_of p words.now) cluster items.old items.new result }
{
    let mut top: u64 = 0;
    for i in 0..cluster.blocks {
        let held = profile_at(items[i], bits::count_set(words[i]));
        top = top.max(cluster::share_of(held));
        items[i] = held;
    }
    top
}

// Puts the blocks' profiles at the chosen counts in the place of their demands, and answers the largest share.
pub fn choose(items: &mut [u64], allowed: usize, cluster: Cluster) -> u64
    requires { ChooseAsked cluster items.old allowed }
    ensures { (p : Plan) → LimitedDemands p cluster items.old allowed
        → FilledAs p (chosen p) cluster items.old items.new result }
{
    let figure = best_figure(items, allowed, cluster);
    fill_needed(items, cluster, figure)
}
