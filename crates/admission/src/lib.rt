// The one way in for the entries: a plan's bytes are judged, its counts chosen, and a placement handed in is judged with it.
#![tactic(auto)]

ghost use Rattle.std.specs.Prelude.{◌≤◌, length};
ghost use Rattle.model.specs.Refusal.{max_blocks};
ghost use Rattle.model.specs.Plan.{Plan};
ghost use Rattle.cluster.specs.Blocks.{DemandsOf};
ghost use Rattle.plan.specs.Verdict.{accepted_plan};
ghost use Rattle.admission.specs.Admission.{Demanded, PreparedChosen, Entered, Admitted, CountedAsked, Weighed, PlacementAdmitted};

use cluster::Cluster;
use held::Held;
use loads::Loads;
use plan::Accepted;
use refusal::Refusal;

// What a call on a plan works with: the cluster, and the largest share at the chosen counts.
#[derive(Clone, Copy)]
pub struct Intake {
    pub cluster: Cluster,
    pub top: u64,
}

// What a call on a placement works with: these, and the loads and copies of the machines.
#[derive(Clone, Copy)]
pub struct Placement {
    pub cluster: Cluster,
    pub top: u64,
    pub loads: Loads,
}

// The demands of an accepted plan's blocks, and the most copies that it allows in all.
fn demand_all(plan: &Accepted, demands: &mut [u64]) -> usize
    requires { plan.now.header.cluster.blocks ≤ length demands.old }
    ensures { Demanded (accepted_plan plan.now) plan.now.header.cluster demands.new result }
{
    let cluster = plan.header.cluster;
    plan.decode(demands);
    let places = cluster.machines() * cluster.capacity;
    plan.header.budget.min(places)
}

// The profiles of an accepted plan's blocks at the chosen counts, and the largest share.
pub fn prepare(plan: &Accepted, profiles: &mut [u64]) -> u64
    requires { plan.now.header.cluster.blocks ≤ length profiles.old }
    ensures { PreparedChosen (accepted_plan plan.now) plan.now.header.cluster profiles.new result }
{
    let allowed = demand_all(plan, profiles);
    replication::choose(profiles, allowed, plan.header.cluster)
}

// Any bytes' plan, with so many items lent for its blocks: rows 1 to 12, 17, 22 and 23.
fn enter(bytes: &[u8], lent: usize) -> Result<Accepted<'_>, Refusal>
    ensures { Entered bytes.now lent result }
{
    let plan = plan::read(bytes)?;
    if lent < plan.header.cluster.blocks {
        return Err(Refusal::ShortBuffer);
    }
    Ok(plan)
}

// Any bytes, with so many items lent: rows 1 to 12, 17, 22 and 23. Where none refuses, the profiles are in the lent list.
pub fn admit(bytes: &[u8], lent: usize, profiles: &mut [u64]) -> Result<Intake, Refusal>
    requires { max_blocks ≤ length profiles.old }
    ensures { Admitted bytes.now lent profiles.new result }
{
    let plan = enter(bytes, lent)?;
    let top = prepare(&plan, profiles);
    Ok(Intake {
        cluster: plan.header.cluster,
        top,
    })
}

// Words that have passed rows 13 and 14, with the demands: the profiles and loads at the counts held, and rows 15, 16 and 18.
fn admit_counted(
    words: &[u64],
    profiles: &mut [u64],
    cluster: Cluster,
) -> Result<Placement, Refusal>
    requires { CountedAsked cluster words.now profiles.old }
    ensures { (p : Plan) → DemandsOf p cluster profiles.old
        → Weighed p cluster words.now profiles.new result }
{
    let largest = replication::fill_held(profiles, words, cluster);
    let held = Held {
        words,
        profiles,
        cluster,
    };
    let loads = loads::sum_words(&held);
    validation::check_layout(&held, loads)?;
    Ok(Placement {
        cluster,
        top: largest,
        loads,
    })
}

// Any bytes with any words: rows 1 to 18, 22 and 23. Where none refuses, the profiles are in the lent list.
pub fn admit_placement(
    bytes: &[u8],
    words: &[u64],
    profiles: &mut [u64],
) -> Result<Placement, Refusal>
    requires { max_blocks ≤ length profiles.old }
    ensures { PlacementAdmitted bytes.now words.now profiles.new result }
{
    let plan = enter(bytes, words.len())?;
    let cluster = plan.header.cluster;
    let allowed = demand_all(&plan, profiles);
    let figure = replication::best_figure(profiles, allowed, cluster);
    validation::check_counts(words, profiles, cluster, figure)?;
    admit_counted(words, profiles, cluster)
}
