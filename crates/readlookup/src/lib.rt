// A block looked for in a plan's bytes: what a read or a popularity is refused for, and how many records of the list a popularity is counted
// over.
#![tactic(auto)]

ghost use Rattle.std.specs.Prelude.{◌≡◌};
ghost use Rattle.model.specs.Refusal.{judge};
ghost use Rattle.refusal.specs.Rows.{code_of};
ghost use Rattle.readlookup.specs.Lookup.{answer_of, sought, searched, read_code};

use refusal::Refusal;

// What a popularity is counted over: a block's partner, or the block itself, and how many records are searched for each of the two.
#[derive(Clone, Copy)]
pub struct Searched {
    pub own: usize,
    pub mate: u32,
    pub other: usize,
}

// A block looked for in any bytes: the plan's refusals, then check 19. Its partner is answered, or the block itself where it has none.
fn seek(bytes: &[u8], block: u32) -> Result<u32, Refusal>
    ensures { answer_of result ≡ sought (judge bytes.now) block }
{
    let plan = plan::read(bytes)?;
    let i = block as usize;
    if i >= plan.header.cluster.blocks {
        return Err(Refusal::NoSuchBlock);
    }
    Ok(plan.mate(i) as u32)
}

// What a block's popularity is counted over. Nothing is searched twice for a block without a partner.
pub fn search(bytes: &[u8], block: u32, lent: usize, count: u64) -> Result<Searched, Refusal>
    ensures { answer_of result ≡ searched (judge bytes.now) block lent count }
{
    let mate = seek(bytes, block)?;
    let own = readwindow::standing(lent, count);
    let other = if mate == block { 0 } else { own };
    Ok(Searched { own, mate, other })
}

// What a read is refused for before a record is touched: the plan's refusals, then checks 19 and 20.
pub fn check_read(bytes: &[u8], block: u32, tick: u32, last: Option<u32>) -> Result<(), Refusal>
    ensures { code_of result ≡ read_code (judge bytes.now) block tick last }
{
    seek(bytes, block)?;
    readwindow::check_gap(tick, last)
}
