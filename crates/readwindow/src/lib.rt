// The reads of the last two hours, on numbers: ages, how far a lent list is used, which of its entries count, and checks 20 and 21.
#![tactic(auto)]

ghost use Rattle.std.specs.Prelude.{◌≡◌};
ghost use Rattle.model.specs.ReadLog.{age, usable, standing};
ghost use Rattle.refusal.specs.Rows.{code_of};
ghost use Rattle.readwindow.specs.Window.{gap_code, is_current, read_number};

use refusal::Refusal;

// The most records of a list that are used.
const MAX_ENTRIES: usize = 4096;

// A read counts while its age is below this.
const WINDOW: u32 = 7200000;

// The last tick's age from which a read is refused 20.
const GAP_BOUND: u32 = 2147483648;

// The age of a tick: the difference modulo 2^32.
fn age(now: u32, tick: u32) -> u32
    ensures { result ≡ age now tick }
{
    now.wrapping_sub(tick)
}

// The usable length of a list.
pub fn usable(lent: usize) -> usize
    ensures { result ≡ usable lent }
{
    lent.min(MAX_ENTRIES)
}

// The entries that stand in a list: the count handed in, or the usable length if that is smaller.
pub fn standing(lent: usize, count: u64) -> usize
    ensures { result ≡ standing lent count }
{
    count.min(usable(lent) as u64) as usize
}

// Check 20: the last tick's age, where there is a last tick.
pub fn check_gap(tick: u32, last: Option<u32>) -> Result<(), Refusal>
    ensures { code_of result ≡ gap_code tick last }
{
    match last {
        Some(last) if age(tick, last) >= GAP_BOUND => Err(Refusal::TickGap),
        _ => Ok(()),
    }
}

// Whether an entry of this tick is in the window.
pub fn is_current(now: u32, tick: u32) -> bool
    ensures { result ≡ is_current now tick }
{
    age(now, tick) < WINDOW
}

// A read's answer from the number of entries kept: check 21, else the new count.
pub fn new_count(kept: usize, span: usize) -> Result<u64, Refusal>
    ensures { result ≡ read_number kept span }
{
    if kept >= span {
        return Err(Refusal::FullList);
    }
    Ok(kept as u64 + 1)
}
