// The calls on reads: a read noted in a lent list of entries, and a block's popularity counted there. Both take a plan's bytes, the list and
// the count of its entries; what they do with them is decided in `readwindow` and `readlookup` and done in `readlog`.
#![tactic(auto)]

ghost use Rattle.std.specs.Prelude.{◌≡◌};
ghost use Rattle.model.specs.ReadLog.{read_call, popularity_call};
ghost use Rattle.reads.specs.Answers.{reads_outcome};

use model::Entry;
use refusal::Refusal;

// A read of a block at a tick. Entries that are too old are dropped and the read is appended; the new count is answered. Nothing is written
// where it is refused: of a full list nothing was dropped.
pub fn read(
    plan: &[u8],
    block: u32,
    tick: u32,
    list: &mut [Entry],
    count: u64,
) -> Result<u64, Refusal>
    ensures { reads_outcome result list.new ≡ read_call plan.now block tick list.old count }
{
    let span = readwindow::usable(list.len());
    let standing = readwindow::standing(list.len(), count);
    let last = readlog::last_tick(list, standing);
    readlookup::check_read(plan, block, tick, last)?;
    let kept = readlog::drop_old(list, span, standing, tick);
    readlog::append(list, kept, span, block, tick)
}

// A block's popularity: the number of its entries, of a paired block the larger of the two. Nothing is written.
pub fn popularity(plan: &[u8], block: u32, list: &[Entry], count: u64) -> Result<u64, Refusal>
    ensures { reads_outcome result list.now ≡ popularity_call plan.now block list.now count }
{
    let searched = readlookup::search(plan, block, list.len(), count)?;
    let own = readlog::reads_of(list, searched.own, block);
    let other = readlog::reads_of(list, searched.other, searched.mate);
    Ok(own.max(other) as u64)
}
