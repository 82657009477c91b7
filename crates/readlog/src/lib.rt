// A lent list of entries: the last tick, the number of a block's entries, old ones dropped, a new one appended. These functions only go over
// the records; what becomes of each is decided in `readwindow`.
#![tactic(auto)]

ghost use Rattle.std.specs.Prelude.{◌≡◌, ◌≤◌, length, take};
ghost use Rattle.model.specs.ReadLog.{entry, reads_of};
ghost use Rattle.readwindow.specs.Window.{read_number};
ghost use Rattle.readlog.specs.Records.{last_in, SweptTo, CompactedAs, appended};

use model::Entry;
use refusal::Refusal;

// The tick of the last of `count` entries.
pub fn last_tick(list: &[Entry], count: usize) -> Option<u32>
    requires { count ≤ length list.now }
    ensures { result ≡ last_in (take count list.now) }
{
    list[..count].last().map(|e| e.tick)
}

// The number of a block's entries among the first `count` records. A plain loop: with `filter(..).count()` it takes over twice as long.
pub fn reads_of(list: &[Entry], count: usize, block: u32) -> usize
    requires { count ≤ length list.now }
    ensures { result ≡ reads_of block (take count list.now) }
{
    let mut found: usize = 0;
    for i in 0..count {
        found += usize::from(list[i].block == block);
    }
    found
}

// Moves the entries of the window among the first `count` records to the front, in order, and answers how many they are. What stands
// behind them is of no use.
fn compact(list: &mut [Entry], count: usize, tick: u32) -> usize
    requires { count ≤ length list.old }
    ensures swept { SweptTo tick count list.old list.new result }
    ensures most { result ≤ count }
{
    let mut kept: usize = 0;
    for i in 0..count {
        let e = list[i];
        list[kept] = e;
        kept += usize::from(readwindow::is_current(tick, e.tick));
    }
    kept
}

// Drops the entries that are too old: the others move to the front in order, and the later records below `span` are cleared. Answers how
// many are kept.
pub fn drop_old(list: &mut [Entry], span: usize, count: usize, tick: u32) -> usize
    requires { (span ≤ length list.old) × (count ≤ span) }
    ensures { CompactedAs tick span count list.old list.new result }
{
    let kept = compact(list, count, tick);
    list[kept..span].fill(Entry { block: 0, tick: 0 });
    kept
}

// Stores an entry at a place below `span`, and answers the new count; stores nothing where the place is not.
pub fn append(
    list: &mut [Entry],
    at: usize,
    span: usize,
    block: u32,
    tick: u32,
) -> Result<u64, Refusal>
    requires { span ≤ length list.old }
    ensures answer { result ≡ read_number at span }
    ensures list { list.new ≡ appended (entry block tick) at span list.old }
{
    let count = readwindow::new_count(at, span)?;
    list[at] = Entry { block, tick };
    Ok(count)
}
