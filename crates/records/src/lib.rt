// A plan file's records, and a block's upper count and its checks 8 and 9.
#![tactic(auto)]

ghost use Rattle.std.specs.Prelude.{◌≡◌, cond, ℕ, ◌/◌, ◌<◌, ◌≤◌};
ghost use Rattle.model.specs.Plan.{Plan, machines, is_paired, max_replicas, upper};
ghost use Rattle.model.specs.Refusal.{max_machines, check8, check9};
ghost use Rattle.theory.specs.Widths.{most_replicas};
ghost use Rattle.refusal.specs.Rows.{code_of};
ghost use Rattle.cluster.specs.Cluster.{machines_in, InRange};
ghost use Rattle.cluster.specs.Blocks.{link_of};

mod view;

use cluster::Cluster;
use refusal::Refusal;
pub use view::Records;

// The machines that a block with this link can use: all of them, or half of them for a paired one.
fn machines_for(cluster: Cluster, link: usize) -> usize
    requires { InRange cluster }
    ensures { ((p : Plan) (i : ℕ) → machines_in cluster ≡ machines p → link ≡ link_of p i
        → result ≡ cond (is_paired p i) (machines p / 2) (machines p)) × (result ≤ max_machines) }
{
    let machines = cluster.machines();
    if link == 1 {
        return machines;
    }
    machines / 2
}

// The most copies of a block in a version.
fn max_replicas(version: usize) -> usize
    ensures { (result ≡ max_replicas version) × (result ≤ most_replicas) }
{
    if version < 3 {
        return 8;
    }
    10
}

// The upper count of a block with this link: the smaller of the version's most copies and the machines that it can use.
pub fn upper_count(version: usize, cluster: Cluster, link: usize) -> usize
    requires { InRange cluster }
    ensures { ((p : Plan) (i : ℕ) → version ≡ p.version → machines_in cluster ≡ machines p → link ≡ link_of p i
        → result ≡ upper p i) × (result < 256) }
{
    max_replicas(version).min(machines_for(cluster, link))
}

// Checks 8 and 9 of one block.
pub fn check_block(most: usize, domains: usize, least: usize, spread: usize) -> Result<(), Refusal>
    ensures { code_of result ≡ check8 most least (check9 domains least spread 0) }
{
    if least == 0 || least > most {
        return Err(Refusal::LeastCopies);
    }
    if spread == 0 || spread > least || spread > domains {
        return Err(Refusal::Spread);
    }
    Ok(())
}
