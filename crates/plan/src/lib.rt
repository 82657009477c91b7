// A plan file, judged: checks 1 to 11, 17, 22 and 23 on any bytes, and an accepted plan.
#![tactic(auto)]

ghost use Rattle.std.specs.Prelude.{◌≡◌, IfOk};
ghost use Rattle.model.specs.Plan.{plan_in};
ghost use Rattle.model.specs.Refusal.{check23, check10, check11, pairs_refusal, judge};
ghost use Rattle.refusal.specs.Rows.{code_of};
ghost use Rattle.header.specs.Header.{PassedAs};
ghost use Rattle.header.specs.Format.{as_format};
ghost use Rattle.records.specs.Files.{OfFile};
ghost use Rattle.plan.specs.Reading.{FileAsked, RecordsRead};
ghost use Rattle.plan.specs.Verdict.{verdict_of};

mod passed;

use header::{Format, Header};
pub use passed::Accepted;
use records::Records;
use refusal::Refusal;

// The records of a file, in its own format.
fn file_records<'a>(bytes: &'a [u8], format: Format, blocks: usize) -> Records<'a>
    requires { FileAsked bytes.now (as_format format) blocks }
    ensures { (result.bytes.now ≡ bytes.now) × (result.blocks ≡ blocks) × (result.format ≡ format) × OfFile result }
{
    Records {
        bytes,
        format,
        blocks,
    }
}

// Checks 8 and 9 block by block, and the sum of the least copies, in one pass over the records. Compiled by itself, as is the pass over
// the pairs: within `read` each keeps more values across its loop, which costs four to eight instructions a block.
#[inline(never)]
fn scan_records(bytes: &[u8], h: Header) -> Result<usize, Refusal>
    requires { PassedAs bytes.now h }
    ensures { RecordsRead bytes.now result }
{
    let cluster = h.cluster;
    let records = file_records(bytes, header::format_in(bytes), cluster.blocks);
    let mut total: usize = 0;
    for i in 0..cluster.blocks {
        let least = records.min_replicas(i);
        let spread = records.min_domains(i);
        let most = records::upper_count(h.version, cluster, records.link(i));
        records::check_block(most, cluster.feeds, least, spread)?;
        total += least;
    }
    Ok(total)
}

// Check 17 over all blocks.
#[inline(never)]
fn scan_pairs(bytes: &[u8], h: Header) -> Result<(), Refusal>
    requires { PassedAs bytes.now h }
    ensures { code_of result ≡ pairs_refusal (plan_in bytes.now) }
{
    let records = file_records(bytes, header::format_of(h.version), h.cluster.blocks);
    if records.format.pair_byte_width == 0 {
        return Ok(());
    }
    for i in 0..records.blocks {
        records.check_pair(i)?;
    }
    Ok(())
}

// Checks 23, 10 and 11. Copies of a budget above the places could never exist: version 4 refuses it.
fn check_total(version: usize, places: usize, budget: usize, total: usize) -> Result<(), Refusal>
    ensures { code_of result ≡ check23 version places budget (check10 budget total (check11 places total 0)) }
{
    if version >= 4 && places < budget {
        return Err(Refusal::UnusableBudget);
    }
    if budget < total {
        return Err(Refusal::OverBudget);
    }
    if places < total {
        return Err(Refusal::OverPlaces);
    }
    Ok(())
}

// The verdict on any bytes: the header's checks, then 8 and 9, 17, and 23, 10 and 11, or the plan.
pub fn read(bytes: &[u8]) -> Result<Accepted<'_>, Refusal>
    ensures judged { verdict_of result ≡ judge bytes.now }
    ensures same { IfOk result (λ plan. plan.records.bytes.now ≡ bytes.now) }
{
    let h = header::read(bytes)?;
    let total = scan_records(bytes, h)?;
    scan_pairs(bytes, h)?;
    let places = h.cluster.machines() * h.cluster.capacity;
    check_total(h.version, places, h.budget, total)?;
    let records = file_records(bytes, header::format_of(h.version), h.cluster.blocks);
    Ok(Accepted { header: h, records })
}
