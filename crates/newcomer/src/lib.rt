// A new block's entries: row 24 on plain numbers.
#![tactic(auto)]

ghost use Rattle.std.specs.Prelude.{◌≡◌, ◌^◌};
ghost use Rattle.model.specs.Plan.{format_of};
ghost use Rattle.model.specs.Recordings.{new_block};
ghost use Rattle.refusal.specs.Rows.{code_of};
ghost use Rattle.cluster.specs.Cluster.{InRange};
ghost use Rattle.newcomer.specs.Entries.{EntriesAs};

use cluster::{Cluster, MAX_BLOCKS};
use refusal::Refusal;

// The link of a block that has no partner.
const SINGLE: usize = 1;

// The first number past a version's popularity field.
fn popularity_bound(version: usize) -> u64
    ensures { result ≡ 256 ^ (format_of version).popularity_width }
{
    256u64.pow(header::format_of(version).popularity_width as u32)
}

// Check 24 of a new block for a cluster with so many blocks.
pub fn check_entries(
    version: usize,
    cluster: Cluster,
    popularity: u64,
    least: u64,
    spread: u64,
) -> Result<(), Refusal>
    requires { InRange cluster }
    ensures { EntriesAs version cluster (new_block popularity least spread) (code_of result) }
{
    let most = records::upper_count(version, cluster, SINGLE);
    if cluster.blocks >= MAX_BLOCKS
        || popularity >= popularity_bound(version)
        || records::check_block(most, cluster.feeds, least as usize, spread as usize).is_err()
    {
        return Err(Refusal::NewBlock);
    }
    Ok(())
}
