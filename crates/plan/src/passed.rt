// An accepted plan: its demands, and the partners of its blocks.
ghost use Rattle.std.specs.Prelude.{◌≡◌, ◌<◌, ◌≤◌, length};
ghost use Rattle.model.specs.Plan.{format_in};
ghost use Rattle.model.specs.Refusal.{judge, accepted};
ghost use Rattle.cluster.specs.Blocks.{mate};
ghost use Rattle.header.specs.Format.{as_format};
ghost use Rattle.records.specs.Files.{OfFile};
ghost use Rattle.plan.specs.Reading.{plan_of, Decoded};

use crate::file_records;
use header::Header;
use records::Records;

// A plan that its checks accept: the header and the records of its bytes.
#[derive(Clone, Copy)]
pub struct Accepted<'a> {
    pub header: Header,
    pub records: Records<'a>,
    ghost accepts: { judge records.bytes.now ≡ accepted (plan_of records.bytes.now header) },
    ghost blocks_are: { records.blocks ≡ header.cluster.blocks },
    ghost format_is: { as_format records.format ≡ format_in records.bytes.now },
}

impl<'a> Accepted<'a> {
    ghost use Rattle.plan.specs.Verdict.{accepted_plan};

    // The records, with their format made anew from the bytes: where a loop over them follows, the compiler then knows which widths there
    // are, and makes a loop for each. With the format kept in the plan, taking the records apart took twice the instructions.
    pub fn reread(&self) -> Records<'a>
        ensures { (result.bytes.now ≡ self.now.records.bytes.now) × (result.blocks ≡ self.now.header.cluster.blocks) × OfFile result }
    {
        let bytes = self.records.bytes;
        file_records(bytes, header::format_in(bytes), self.header.cluster.blocks)
    }

    // The records, taken apart into a demand for each block; later items stay.
    pub fn decode(&self, demands: &mut [u64])
        requires { self.now.header.cluster.blocks ≤ length demands.old }
        ensures { Decoded self.now.records.bytes.now self.now.header demands.old demands.new }
    {
        let cluster = self.header.cluster;
        let records = self.reread();
        for i in 0..records.blocks {
            let linked = records.link(i);
            demands[i] = cluster::demand(
                records.popularity(i),
                records.min_replicas(i),
                records.min_domains(i),
                records::upper_count(self.header.version, cluster, linked),
                linked,
            );
        }
    }

    // The partner of block i; i itself where it has none.
    pub fn mate(&self, i: usize) -> usize
        requires { i < self.now.header.cluster.blocks }
        ensures { (result ≡ mate (accepted_plan self.now) i) × (result < 2048) }
    {
        i + self.records.link(i) - 1
    }
}
