// The next step of the definition: the first Move, Swap, RackMove or RackSwap, by machines and blocks lowest first.
#![tactic(auto)]

ghost use Rattle.std.specs.Prelude.{◌≡◌, ◌%◌, ◌≤◌};
ghost use Rattle.cluster.specs.Cluster.{InRange};
ghost use Rattle.transfers.specs.Route.{hit_of};
ghost use Rattle.search.specs.Scene.{is_exchange, is_across, step_of, NextFound, KindAsked, OfKind, PartedOf, OpenAsked, OpenFound, route_of, row_of, kind_step, FindAsked, KindSearchAsked, RowIn, StartsAt, EndsAt, RowAsked, RouteAt, FoundIs};

use cluster::Cluster;
use transfers::{Hit, Route, Scene};

// A step. Block i goes from m to n, of an exchange block j from n to m; m and n of a RackMove or RackSwap lie in
// different racks.
#[derive(Clone, Copy)]
pub enum Step {
    Move {
        m: usize,
        n: usize,
        i: usize,
    },
    Swap {
        m: usize,
        n: usize,
        i: usize,
        j: usize,
    },
    RackMove {
        m: usize,
        n: usize,
        i: usize,
    },
    RackSwap {
        m: usize,
        n: usize,
        i: usize,
        j: usize,
    },
}

// The kinds of steps, in their order.
#[derive(Clone, Copy)]
enum Kind {
    Move,
    Swap,
    RackMove,
    RackSwap,
}

impl Kind {
    // Whether a step of the kind is an exchange.
    fn is_exchange(self) -> bool
        ensures { result ≡ is_exchange self }
    {
        matches!(self, Kind::Swap | Kind::RackSwap)
    }

    // Whether the machines of such a step lie in different racks.
    fn is_across(self) -> bool
        ensures { result ≡ is_across self }
    {
        matches!(self, Kind::RackMove | Kind::RackSwap)
    }
}

// A kind of step and the machine m that it leaves, whose rack starts at `low`; the machines that the kind may lead to are the set bits of
// `targets`.
#[derive(Clone, Copy)]
struct Row {
    swapping: bool,
    across: bool,
    low: usize,
    m: usize,
    targets: u64,
}

// Every machine, as targets.
const ALL: u64 = u64::MAX;

// A find as a step; `across` says whether its machines lie in different racks.
fn as_step(hit: Hit, across: bool) -> Step
    ensures { step_of (Some result) ≡ hit_of across (Some hit) }
{
    match (hit, across) {
        (Hit::Move { m, n, i }, false) => Step::Move { m, n, i },
        (Hit::Swap { m, n, i, j }, false) => Step::Swap { m, n, i, j },
        (Hit::Move { m, n, i }, true) => Step::RackMove { m, n, i },
        (Hit::Swap { m, n, i, j }, true) => Step::RackSwap { m, n, i, j },
    }
}

// Whether n lies in another rack than the one that starts at `low`, or in that one, as the kind wants.
fn of_kind(low: usize, size: usize, n: usize, across: bool) -> bool
    requires { KindAsked low size }
    ensures { OfKind low size n across result }
{
    if n < low {
        return across;
    }
    if low + size <= n {
        return across;
    }
    !across
}

// n mod `turn`; no division where n is below it, as in a hall with a feed for each rack.
fn wrapped(n: usize, turn: usize) -> usize
    requires { 1 ≤ turn }
    ensures { result ≡ n % turn }
{
    if n < turn {
        return n;
    }
    n % turn
}

// Whether n lies in another failure domain than the rack that starts at `low`. Racks on one feed are a turn of F racks apart.
fn is_parted(cluster: Cluster, low: usize, n: usize) -> bool
    requires { InRange cluster }
    ensures { PartedOf cluster low n result }
{
    let size = cluster.rack_size;
    let turn = cluster.feeds * size;
    of_kind(wrapped(low, turn), size, wrapped(n, turn), true)
}

// The first step of the row's kind from its machine, which has `margin` more load, to n, unless the shares rule it out; n of a move has
// room. Whether the two lie in different failure domains is asked only then.
fn find_open(scene: &Scene, row: Row, n: usize, margin: u64) -> Option<Hit>
    requires { OpenAsked scene.now.held.cluster row n margin }
    ensures { let h = scene.now.held in OpenFound h.cluster h.words.now h.profiles.now row n margin result }
{
    let cluster = scene.held.cluster;
    let m = row.m;
    if screen::rules_out(scene.index, cluster, m, n, margin, row.swapping) {
        return None;
    }
    let route = Route {
        parted: is_parted(cluster, row.low, n),
        m,
        n,
        margin,
    };
    transfers::find(scene, route, row.swapping)
}

// The first step of the row's kind from its machine to n. The loads are compared first: they rule out half of all routes.
fn find_route(scene: &Scene, row: Row, n: usize) -> Option<Hit>
    requires { RouteAt scene.now row n }
    ensures { let h = scene.now.held in FoundIs h.cluster h.words.now h.profiles.now
        (λ p. route_of p h.words.now row.swapping row.across row.m n) (hit_of row.across result) }
{
    let from = scene.index.loads[row.m];
    let to = scene.index.loads[n];
    if from <= to {
        return None;
    }
    if !of_kind(row.low, scene.held.cluster.rack_size, n, row.across) {
        return None;
    }
    if bits::bit_at(row.targets, n) == 0 {
        return None;
    }
    find_open(scene, row, n, from - to)
}

// The first machine that a step of the row's kind can lead to: its rack's first one, or any.
fn row_start(row: Row) -> usize
    ensures { StartsAt row result }
{
    if row.across {
        return 0;
    }
    row.low
}

// And past the last one.
fn row_end(cluster: Cluster, row: Row) -> usize
    requires { InRange cluster × RowIn cluster row }
    ensures { EndsAt cluster row result }
{
    if row.across {
        return cluster.machines();
    }
    row.low + cluster.rack_size
}

// The first step of the row's kind from its machine.
fn find_row(scene: &Scene, row: Row) -> Option<Hit>
    requires { RowAsked scene.now row }
    ensures { let h = scene.now.held in FoundIs h.cluster h.words.now h.profiles.now
        (λ p. row_of p h.words.now row.swapping row.across row.m) (hit_of row.across result) }
{
    for n in row_start(row)..row_end(scene.held.cluster, row) {
        let hit = find_route(scene, row, n);
        if hit.is_some() {
            return hit;
        }
    }
    None
}

// The first step of the kind to one of the targets.
fn find_kind(scene: &Scene, kind: Kind, targets: u64) -> Option<Step>
    requires { KindSearchAsked scene.now kind targets }
    ensures { let h = scene.now.held in FoundIs h.cluster h.words.now h.profiles.now
        (λ p. kind_step p h.words.now (is_exchange kind) (is_across kind)) (step_of result) }
{
    let cluster = scene.held.cluster;
    let swapping = kind.is_exchange();
    let across = kind.is_across();
    let size = cluster.rack_size;
    for m in 0..cluster.machines() {
        let low = m / size * size;
        let row = Row {
            swapping,
            across,
            low,
            m,
            targets,
        };
        if let Some(hit) = find_row(scene, row) {
            return Some(as_step(hit, across));
        }
    }
    None
}

// The next step, the first by kind: Move, Swap, RackMove, RackSwap. A chain of `or_else` was tried: the proof knows nothing of what a
// closure over the scene finds.
pub fn find(scene: &Scene, copies: &[usize]) -> Option<Step>
    requires { FindAsked scene.now copies.now }
    ensures { let h = scene.now.held in NextFound h.cluster h.words.now h.profiles.now result }
{
    let room = loads::with_room(copies, scene.held.cluster);
    if let Some(step) = find_kind(scene, Kind::Move, room) {
        return Some(step);
    }
    if let Some(step) = find_kind(scene, Kind::Swap, ALL) {
        return Some(step);
    }
    if let Some(step) = find_kind(scene, Kind::RackMove, room) {
        return Some(step);
    }
    find_kind(scene, Kind::RackSwap, ALL)
}
