// The first move or exchange between two machines that the definition allows, by local tests on the candidates in file order. The two
// blocks of a pair are each other's partners; they share no machine.
#![tactic(auto)]

ghost use Rattle.std.specs.Prelude.{◌≡◌, Bool, ◌≤◌};
ghost use Rattle.cluster.specs.Blocks.{share_in, spread_in};
ghost use Rattle.index.specs.Index.{NextOf};
ghost use Rattle.transfers.specs.Route.{route_step, block_step, BlockAsked, KeepsOf, PassableOf, RouteIn, FreeAsked, FreeOf, NoReturn, CandidateAsked, ReturnOf, ReturnFound, OwnAsked, OwnFound, ExchangeFound, HitOf};

mod view;

use cluster::Cluster;
use held::Held;
pub use view::Scene;

// A route: a step takes a block from machine m to machine n. What m's load may fall by stays below `margin`; `parted` says whether the
// two lie in different failure domains.
#[derive(Clone, Copy)]
pub struct Route {
    pub parted: bool,
    pub m: usize,
    pub n: usize,
    pub margin: u64,
}

// Block i from m to n, or that and block j from n to m.
#[derive(Clone, Copy)]
pub enum Hit {
    Move {
        m: usize,
        n: usize,
        i: usize,
    },
    Swap {
        m: usize,
        n: usize,
        i: usize,
        j: usize,
    },
}

// Whether a block still lies in as many failure domains as its spread once its copy on m is on n. They are counted only where a block
// with a spread above one changes its domain.
fn keeps(word: u64, profile: u64, cluster: Cluster, route: Route) -> bool
    requires { BlockAsked cluster route word profile }
    ensures { KeepsOf cluster route word (spread_in profile) result }
{
    if !route.parted {
        return true;
    }
    let spread = cluster::spread_of(profile);
    if spread <= 1 {
        return true;
    }
    let moved = bits::shift_bit(word, route.m, route.n);
    spread <= bits::domains_used(moved, cluster)
}

// Whether a block can move from m to n.
fn movable(word: u64, profile: u64, cluster: Cluster, route: Route) -> bool
    requires { BlockAsked cluster route word profile }
    ensures { PassableOf cluster route word (spread_in profile) (share_in profile) 0 result }
{
    let share = cluster::share_of(profile);
    if share == 0 {
        return false;
    }
    if route.margin <= share {
        return false;
    }
    keeps(word, profile, cluster, route)
}

// Whether a block can go from m to n in return for one of the share `given`.
fn returnable(word: u64, profile: u64, cluster: Cluster, route: Route, given: u64) -> bool
    requires { BlockAsked cluster route word profile }
    ensures { PassableOf cluster route word (spread_in profile) given (share_in profile) result }
{
    let share = cluster::share_of(profile);
    if given <= share {
        return false;
    }
    if route.margin + share <= given {
        return false;
    }
    keeps(word, profile, cluster, route)
}

// Whether n does not hold the block that block i is linked to: its partner, or i itself where it has none.
fn is_free(held: &Held, i: usize, n: usize) -> bool
    requires { FreeAsked held.now.cluster i n }
    ensures { FreeOf held.now.words.now held.now.profiles.now i n result }
{
    let k = held.linked(i);
    bits::bit_at(held.words[k], n) == 0
}

// Whether a block of m's that n lacks may go to n in return for one of the share `given`, as far as the shares tell; where it says no,
// none can.
fn may_return(scene: &Scene, route: Route, given: u64) -> bool
    requires { RouteIn scene.now.held.cluster route }
    ensures { result ≡ Bool.false → NoReturn scene.now.held.cluster scene.now.index.now route given }
{
    if given < route.margin {
        return true;
    }
    let index = scene.index;
    let cluster = scene.held.cluster;
    let from = index.first_above(given - route.margin, cluster);
    let Some(rank) = index::next(&index.by_rank, route.m, route.n, from, cluster) else {
        return false;
    };
    ranking::key_share(index.keys[rank]) < given
}

// Whether block j can go from m to n in return for one of the share `given`, and its partner is not on n.
fn can_return(held: &Held, route: Route, given: u64, j: usize) -> bool
    requires { CandidateAsked held.now.cluster held.now.words.now route j }
    ensures { ReturnOf held.now.cluster held.now.words.now held.now.profiles.now route given j result }
{
    if !returnable(held.words[j], held.profiles[j], held.cluster, route, given) {
        return false;
    }
    is_free(held, j, route.n)
}

// The first candidate from `from` on: a block that is on m and not on n.
fn next_candidate(scene: &Scene, route: Route, from: usize) -> Option<usize>
    requires { RouteIn scene.now.held.cluster route × (from ≤ scene.now.held.cluster.blocks) }
    ensures { NextOf scene.now.index.now.by_number route.m route.n from scene.now.held.cluster result }
{
    index::next(
        &scene.index.by_number,
        route.m,
        route.n,
        from,
        scene.held.cluster,
    )
}

// The first block of m's that can go to n in return for one of the share `given`, if there is one.
fn first_return(scene: &Scene, route: Route, given: u64) -> Option<usize>
    requires { RouteIn scene.now.held.cluster route }
    ensures { let h = scene.now.held in ReturnFound h.cluster h.words.now h.profiles.now route given result }
{
    if !may_return(scene, route, given) {
        return None;
    }
    let mut next_j: usize = 0;
    while let Some(j) = next_candidate(scene, route, next_j) {
        if can_return(&scene.held, route, given, j) {
            return Some(j);
        }
        next_j = j + 1;
    }
    None
}

// The partner of block i, which is on m, where it can go to n in return for i, of the share `given`.
fn own_return(held: &Held, route: Route, given: u64, i: usize) -> Option<usize>
    requires { OwnAsked held.now.cluster held.now.words.now held.now.profiles.now route i }
    ensures { OwnFound held.now.cluster held.now.words.now held.now.profiles.now route given i result }
{
    let k = held.linked(i);
    if bits::bit_at(held.words[k], route.n) == 1 {
        return None;
    }
    returnable(held.words[k], held.profiles[k], held.cluster, route, given).then_some(k)
}

// The first block that block i can be exchanged for, if there is one; it is i's partner where that is on n.
fn first_exchange(scene: &Scene, route: Route, i: usize) -> Option<usize>
    requires { CandidateAsked scene.now.held.cluster scene.now.held.words.now route i }
    ensures { let h = scene.now.held in ExchangeFound h.cluster h.words.now h.profiles.now route i result }
{
    let held = &scene.held;
    let given = held.share(i);
    if given == 0 {
        return None;
    }
    if !keeps(held.words[i], held.profiles[i], held.cluster, route) {
        return None;
    }
    let back = Route {
        parted: route.parted,
        m: route.n,
        n: route.m,
        margin: route.margin,
    };
    if is_free(held, i, route.n) {
        return first_return(scene, back, given);
    }
    own_return(held, back, given, i)
}

// The first step of the kind with block i from m to n.
fn find_at(scene: &Scene, route: Route, swapping: bool, i: usize) -> Option<Hit>
    requires { CandidateAsked scene.now.held.cluster scene.now.held.words.now route i }
    ensures { let h = scene.now.held in HitOf h.cluster h.words.now h.profiles.now route swapping
        (λ across p. block_step p h.words.now swapping across route.m route.n i) result }
{
    let held = &scene.held;
    let m = route.m;
    let n = route.n;
    if swapping {
        let j = first_exchange(scene, route, i)?;
        return Some(Hit::Swap { m, n, i, j });
    }
    if !movable(held.words[i], held.profiles[i], held.cluster, route) {
        return None;
    }
    if !is_free(held, i, n) {
        return None;
    }
    Some(Hit::Move { m, n, i })
}

// The first move from m to n, which has room, or the first exchange between them.
pub fn find(scene: &Scene, route: Route, swapping: bool) -> Option<Hit>
    requires { RouteIn scene.now.held.cluster route }
    ensures { let h = scene.now.held in HitOf h.cluster h.words.now h.profiles.now route swapping
        (λ across p. route_step p h.words.now swapping across route.m route.n) result }
{
    let mut next_i: usize = 0;
    while let Some(i) = next_candidate(scene, route, next_i) {
        let hit = find_at(scene, route, swapping, i);
        if hit.is_some() {
            return hit;
        }
        next_i = i + 1;
    }
    None
}
