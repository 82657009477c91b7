// The listing that the program prints: the run that it tells of, and the public entries that write it into a lent text.
#![tactic(auto)]

ghost use Rattle.std.specs.Prelude.{◌≡◌, ◌<◌, ◌≤◌, length, MatchResult};
ghost use Rattle.model.specs.Listing.{listing_room, listing_of, listing_call, print_call};
ghost use Rattle.refusal.specs.Rows.{code_of};
ghost use Rattle.plan.specs.Verdict.{accepted_plan};
ghost use Rattle.text.specs.Pasted.{Put};
ghost use Rattle.listing.specs.FirstRun.{FirstRunAs};
ghost use Rattle.listing.specs.Entries.{listing_outcome};

use cluster::MAX_BLOCKS;
use held::Held;
use lines::FirstRun;
use plan::Accepted;
use refusal::Refusal;

// Bytes that every listing fits in.
const LISTING_ROOM: usize = 65536;

// The profiles at the chosen counts in the lent list, and in the words the placement after a run from the first placement.
fn run_first(plan: &Accepted, limit: u32, profiles: &mut [u64], words: &mut [u64]) -> FirstRun
    requires { (plan.now.header.cluster.blocks ≤ length profiles.old) × (length words.old ≡ plan.now.header.cluster.blocks) }
    ensures { FirstRunAs (accepted_plan plan.now) plan.now.header.cluster limit profiles.new words.new result }
{
    let cluster = plan.header.cluster;
    let top = admission::prepare(plan, profiles);
    layout::lay_all(cluster, profiles, words);
    let laid = Held {
        words,
        profiles,
        cluster,
    };
    let first = loads::sum_words(&laid);
    let ran = balance::run(words, profiles, first, cluster, limit);
    let moved = Held {
        words,
        profiles,
        cluster,
    };
    let last = loads::sum_words(&moved);
    let report = loads::report(last, cluster);
    FirstRun { ran, report, top }
}

// Puts the listing of an accepted plan, with room for its words.
fn put_listing(plan: &Accepted, limit: u32, words: &mut [u64], text: &mut [u8]) -> usize
    requires { (listing_room ≤ length text.old) × (length words.old ≡ plan.now.header.cluster.blocks) }
    ensures { Put 0 (listing_of (accepted_plan plan.now) limit) text.old text.new result }
{
    let cluster = plan.header.cluster;
    let mut profiles = [0u64; MAX_BLOCKS];
    let made = run_first(plan, limit, &mut profiles, words);
    let held = Held {
        words,
        profiles: &profiles,
        cluster,
    };
    lines::put_lines(text, &held, made)
}

// Puts the listing of an accepted plan.
fn list_accepted(plan: &Accepted, limit: u32, text: &mut [u8]) -> usize
    requires { listing_room ≤ length text.old }
    ensures { Put 0 (listing_of (accepted_plan plan.now) limit) text.old text.new result }
{
    let mut words = [0u64; MAX_BLOCKS];
    let blocks = plan.header.cluster.blocks;
    put_listing(plan, limit, &mut words[..blocks], text)
}

// Refuses a text that not every listing fits in.
fn check_room(text: &[u8]) -> Result<(), Refusal>
    ensures { MatchResult result (λ _. listing_room ≤ length text.now)
        (λ refusal. (length text.now < listing_room) × (refusal ≡ Refusal.ShortText)) }
{
    if text.len() < LISTING_ROOM {
        return Err(Refusal::ShortText);
    }
    Ok(())
}

// Lists any bytes' plan in a lent text. Too short a text and a refused plan are refused, and nothing is written.
pub fn listing(bytes: &[u8], limit: u32, text: &mut [u8]) -> Result<usize, Refusal>
    ensures { listing_outcome result text.new ≡ listing_call bytes.now limit text.old }
{
    check_room(text)?;
    let plan = plan::read(bytes)?;
    Ok(list_accepted(&plan, limit, text))
}

// The number of a refused plan, 0 for an accepted one.
fn refusal_code(read: Result<Accepted, Refusal>) -> u8
    ensures { result ≡ code_of read.entry }
{
    match read {
        Err(refusal) => u8::from(refusal),
        Ok(_) => 0,
    }
}

// What the program prints for any bytes, in a lent text: the listing, or the line of a refused plan.
pub fn print(bytes: &[u8], limit: u32, text: &mut [u8]) -> Result<usize, Refusal>
    ensures { listing_outcome result text.new ≡ print_call bytes.now limit text.old }
{
    check_room(text)?;
    let read = plan::read(bytes);
    let Ok(plan) = read else {
        let code = refusal_code(read);
        let numbers = [u64::from(code)];
        return Ok(text::put_line(text, 0, b"refused", &numbers));
    };
    Ok(list_accepted(&plan, limit, text))
}
