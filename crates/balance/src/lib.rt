// Steps over the words of a placement: the next one, one taken, a run of them. The loads follow each step.
#![tactic(auto)]

ghost use Rattle.std.specs.Prelude.{◌≡◌, ℕ};
ghost use Rattle.model.specs.Plan.{Plan};
ghost use Rattle.model.specs.Steps.{run};
ghost use Rattle.cluster.specs.Blocks.{PlacementOf};
ghost use Rattle.index.specs.Index.{Ordered};
ghost use Rattle.search.specs.Scene.{NextFound};
ghost use Rattle.balance.specs.Standing.{StepAsked, OrderedAsked, LookAsked, ShiftAsked, Shifted, FollowAsked, Followed, Stepped, ran_of};

use cluster::Cluster;
use held::Held;
use index::Index;
use loads::Loads;
use search::Step;
use transfers::Scene;

// How a run ended, at rest or with its step limit used and a step left, and the number of steps taken.
#[derive(Clone, Copy)]
pub enum Ran {
    Rested(u32),
    Spent(u32),
}

// The next step of a placement, with its index and its loads.
fn find_next<'a>(
    words: &'a [u64],
    profiles: &'a [u64],
    index: &'a Index,
    loads: Loads,
    cluster: Cluster,
) -> Option<Step>
    requires { LookAsked cluster words.now profiles.now index.now loads }
    ensures { NextFound cluster words.now profiles.now result }
{
    let held = Held {
        words,
        profiles,
        cluster,
    };
    let scene = Scene { held, index };
    search::find(&scene, &loads.copies)
}

// The next step, not taken; the index is made anew from the words and the loads.
fn look(
    words: &[u64],
    profiles: &[u64],
    index: &mut Index,
    loads: Loads,
    cluster: Cluster,
) -> Option<Step>
    requires { OrderedAsked cluster words.now profiles.now index.old loads }
    ensures { NextFound cluster words.now profiles.now result
        × Ordered cluster profiles.now index.new }
{
    index.fill(words, cluster);
    let load = loads.load;
    index.loads = load;
    find_next(words, profiles, index, loads, cluster)
}

// The copy of block i on m passes to n, in the words and in the loads.
fn shift(words: &mut [u64], profiles: &[u64], loads: Loads, m: usize, n: usize, i: usize) -> Loads
    requires { ShiftAsked words.old profiles.now loads m n i }
    ensures { Shifted words.old profiles.now loads m n i words.new result }
{
    words[i] = bits::shift_bit(words[i], m, n);
    loads::shift(loads, m, n, cluster::share_of(profiles[i]))
}

// A step that was found, taken in the words and in the loads; an exchange is two shifts.
fn follow(words: &mut [u64], profiles: &[u64], loads: Loads, step: Step) -> Loads
    requires { FollowAsked words.old profiles.now loads step }
    ensures { Followed words.old profiles.now loads step words.new result }
{
    match step {
        Step::Move { m, n, i } | Step::RackMove { m, n, i } => {
            shift(words, profiles, loads, m, n, i)
        }
        Step::Swap { m, n, i, j } | Step::RackSwap { m, n, i, j } => {
            let given = shift(words, profiles, loads, m, n, i);
            shift(words, profiles, given, n, m, j)
        }
    }
}

// Takes next steps until rest or until the step limit is used; at the end of the limit it looks whether a step is left.
fn run_ordered(
    words: &mut [u64],
    profiles: &[u64],
    index: &mut Index,
    start: Loads,
    cluster: Cluster,
    limit: u32,
) -> Ran
    requires { OrderedAsked cluster words.old profiles.now index.old start }
    ensures { (p : Plan) (count : ℕ → ℕ) → PlacementOf p count cluster words.old profiles.now
        → ran_of result words.new ≡ run p limit words.old }
{
    let mut loads = start;
    for steps in 0..limit {
        let Some(step) = look(words, profiles, index, loads, cluster) else {
            return Ran::Rested(steps);
        };
        loads = follow(words, profiles, loads, step);
        index.clear();
    }
    match look(words, profiles, index, loads, cluster) {
        None => Ran::Rested(limit),
        Some(_) => Ran::Spent(limit),
    }
}

// Takes the next step, or leaves the words as they are at rest.
pub fn step(words: &mut [u64], profiles: &[u64], loads: Loads, cluster: Cluster) -> Option<Step>
    requires { StepAsked cluster words.old profiles.now loads }
    ensures { (p : Plan) (count : ℕ → ℕ) → PlacementOf p count cluster words.old profiles.now
        → Stepped p words.old words.new result }
{
    let mut index = Index::empty();
    index.start(profiles, cluster);
    let step = look(words, profiles, &mut index, loads, cluster)?;
    follow(words, profiles, loads, step);
    Some(step)
}

// Takes next steps until rest or until the step limit is used. Shares never change, so their order is made once.
pub fn run(words: &mut [u64], profiles: &[u64], loads: Loads, cluster: Cluster, limit: u32) -> Ran
    requires { StepAsked cluster words.old profiles.now loads }
    ensures { (p : Plan) (count : ℕ → ℕ) → PlacementOf p count cluster words.old profiles.now
        → ran_of result words.new ≡ run p limit words.old }
{
    let mut index = Index::empty();
    index.start(profiles, cluster);
    run_ordered(words, profiles, &mut index, loads, cluster, limit)
}
