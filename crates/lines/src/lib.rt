// The lines of a listing, put into a lent text.
#![tactic(auto)]

ghost use Rattle.model.specs.Refusal.{max_machines};
ghost use Rattle.model.specs.Listing.{fields, holders};
ghost use Rattle.text.specs.Pasted.{Room, Put};
ghost use Rattle.lines.specs.Rows.{block_row, rows, number_end, end_row, all_rows};

use balance::Ran;
use held::Held;
use loads::LoadReport;

// How the run from the first placement ended, the report on the placement after it, and the largest share.
#[derive(Clone, Copy)]
pub struct FirstRun {
    pub ran: Ran,
    pub report: LoadReport,
    pub top: u64,
}

// Puts the machines that the word names, rising, from set bit to set bit.
fn put_holders(text: &mut [u8], at: usize, word: u64) -> usize
    requires { Room at (fields (holders word max_machines)) text.old }
    ensures { Put at (fields (holders word max_machines)) text.old text.new result }
{
    let mut next = at;
    for m in bits::ones(word) {
        next = text::put_field(text, next, m as u64);
    }
    next
}

// Puts a block line: number, count, share, machines rising.
fn put_block(text: &mut [u8], at: usize, i: usize, profile: u64, word: u64) -> usize
    requires { Room at (block_row i profile word) text.old }
    ensures { Put at (block_row i profile word) text.old text.new result }
{
    let numbers = [
        i as u64,
        cluster::count_of(profile) as u64,
        cluster::share_of(profile),
    ];
    let named = text::put_word(text, at, b"block");
    let listed = text::put_fields(text, named, &numbers);
    let ended = put_holders(text, listed, word);
    text::put_byte(text, ended, b'\n')
}

// Puts the block lines in file order.
fn put_blocks(text: &mut [u8], at: usize, held: &Held) -> usize
    requires { Room at (rows held.now.cluster held.now.profiles.now held.now.words.now) text.old }
    ensures { Put at (rows held.now.cluster held.now.profiles.now held.now.words.now) text.old text.new result }
{
    let mut next = at;
    for i in 0..held.cluster.blocks {
        next = put_block(text, next, i, held.profiles[i], held.words[i]);
    }
    next
}

// Puts the last line: its word, steps, hottest load, coolest load, sum of loads, largest share.
fn put_end(text: &mut [u8], at: usize, word: &[u8], steps: u32, made: FirstRun) -> usize
    requires { Room at (number_end word.now steps made) text.old }
    ensures { Put at (number_end word.now steps made) text.old text.new result }
{
    let report = made.report;
    let numbers = [
        u64::from(steps),
        report.max_load,
        report.min_load,
        report.total_load,
        made.top,
    ];
    text::put_line(text, at, word, &numbers)
}

// Puts the last line, by how the run ended.
fn put_last(text: &mut [u8], at: usize, made: FirstRun) -> usize
    requires { Room at (end_row made) text.old }
    ensures { Put at (end_row made) text.old text.new result }
{
    match made.ran {
        Ran::Rested(steps) => put_end(text, at, b"rest", steps, made),
        Ran::Spent(steps) => put_end(text, at, b"spent", steps, made),
    }
}

// Puts all lines.
pub fn put_lines(text: &mut [u8], held: &Held, made: FirstRun) -> usize
    requires { Room 0 (all_rows held.now.cluster held.now.profiles.now held.now.words.now made) text.old }
    ensures { Put 0 (all_rows held.now.cluster held.now.profiles.now held.now.words.now made) text.old text.new result }
{
    let cluster = held.cluster;
    let numbers = [
        cluster.racks as u64,
        cluster.rack_size as u64,
        cluster.blocks as u64,
    ];
    let first = text::put_line(text, 0, b"plan", &numbers);
    let next = put_blocks(text, first, held);
    put_last(text, next, made)
}
