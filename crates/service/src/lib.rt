// The public entries: counts, first placement, check, report, one step, a run. Each is the way in and its own work.
#![tactic(auto)]

ghost use Rattle.std.specs.Prelude.{◌≡◌, get_or};
ghost use Rattle.order.specs.Table.{filled};
ghost use Rattle.model.specs.Calls.{counts_call, first_call, check_call, report_call, step_call, run_call};
ghost use Rattle.cluster.specs.Blocks.{count_in};
ghost use Rattle.service.specs.Entries.{counts_outcome, first_outcome, check_outcome, report_outcome, step_outcome, run_outcome, WriteAsked};

use balance::Ran;
use cluster::{Cluster, MAX_BLOCKS};
use loads::LoadReport;
use refusal::Refusal;
use search::Step;

// The blocks' counts written into a lent buffer; later items stay.
fn write_counts(profiles: &[u64], cluster: Cluster, counts: &mut [u8])
    requires { WriteAsked cluster profiles.now counts.old }
    ensures { counts.new ≡ filled cluster.blocks (λ i. count_in (get_or profiles.now i 0)) counts.old }
{
    for i in 0..cluster.blocks {
        counts[i] = cluster::count_of(profiles[i]) as u8;
    }
}

// The chosen counts of any bytes, in a lent buffer; the largest share is answered.
pub fn counts(bytes: &[u8], counts: &mut [u8]) -> Result<u64, Refusal>
    ensures { counts_outcome result counts.new ≡ counts_call bytes.now counts.old }
{
    let mut profiles = [0u64; MAX_BLOCKS];
    let intake = admission::admit(bytes, counts.len(), &mut profiles)?;
    write_counts(&profiles, intake.cluster, counts);
    Ok(intake.top)
}

// Makes the first placement of any bytes' plan in a lent buffer; the number of blocks placed is answered.
pub fn first(bytes: &[u8], words: &mut [u64]) -> Result<usize, Refusal>
    ensures { first_outcome result words.new ≡ first_call bytes.now words.old }
{
    let mut profiles = [0u64; MAX_BLOCKS];
    let intake = admission::admit(bytes, words.len(), &mut profiles)?;
    let cluster = intake.cluster;
    layout::lay_all(cluster, &profiles, words);
    Ok(cluster.blocks)
}

// Checks a placement of any words; the number of blocks that lie as they should is answered. It never writes.
pub fn check(bytes: &[u8], words: &[u64]) -> Result<usize, Refusal>
    ensures { check_outcome result words.now ≡ check_call bytes.now words.now }
{
    let mut profiles = [0u64; MAX_BLOCKS];
    let held = admission::admit_placement(bytes, words, &mut profiles)?;
    Ok(held.cluster.blocks)
}

// Reports on a placement of any words: the loads, and the largest share. It never writes.
pub fn report(bytes: &[u8], words: &[u64]) -> Result<(LoadReport, u64), Refusal>
    ensures { report_outcome result words.now ≡ report_call bytes.now words.now }
{
    let mut profiles = [0u64; MAX_BLOCKS];
    let held = admission::admit_placement(bytes, words, &mut profiles)?;
    Ok((loads::report(held.loads, held.cluster), held.top))
}

// Takes the next step of any words' placement, or leaves the words as they were at rest.
pub fn step(bytes: &[u8], words: &mut [u64]) -> Result<Option<Step>, Refusal>
    ensures { step_outcome result words.new ≡ step_call bytes.now words.old }
{
    let mut profiles = [0u64; MAX_BLOCKS];
    let held = admission::admit_placement(bytes, words, &mut profiles)?;
    Ok(balance::step(words, &profiles, held.loads, held.cluster))
}

// Takes next steps of any words' placement until rest or until the step limit is used.
pub fn run(bytes: &[u8], words: &mut [u64], limit: u32) -> Result<Ran, Refusal>
    ensures { run_outcome result words.new ≡ run_call bytes.now words.old limit }
{
    let mut profiles = [0u64; MAX_BLOCKS];
    let held = admission::admit_placement(bytes, words, &mut profiles)?;
    let ran = balance::run(words, &profiles, held.loads, held.cluster, limit);
    Ok(ran)
}
