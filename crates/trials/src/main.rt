// Plays a stream of trials from standard input: each record sets the plan's bytes, the words or the list of reads, or makes a call.
// A call writes one line: its answer, and the digest of the lent buffer's items and those behind them.
#![tactic(auto)]

mod calls;
mod digest;
mod input;
mod log;
mod output;

use input::Head;
use output::Line;
use std::io;
use std::io::{Read, Write};

// The lengths of the current plan and of the parts of the words and of the list that are lent; the list's count of entries, and the block
// that the calls on it are about.
#[derive(Clone, Copy)]
struct Current {
    plan: usize,
    lent: usize,
    entries: usize,
    count: u64,
    block: u32,
}

// What a record does: the stream goes on, ends as it should, or is not in its format.
#[derive(Clone, Copy)]
enum Turn {
    On(Current),
    End,
    Bad,
}

// Reads a text that fills the buffer, and writes it as a line; false where the input ends first.
fn echo_title<R: Read, W: Write>(reader: &mut R, out: &mut W, text: &mut [u8]) -> io::Result<bool> {
    if !input::fill(reader, text)? {
        return Ok(false);
    }
    Line::new(b"# ").text(text).write(out)?;
    Ok(true)
}

// Title record: n bytes of text, written as a line.
fn take_title<R: Read, W: Write>(
    reader: &mut R,
    out: &mut W,
    n: usize,
    current: Current,
) -> io::Result<Turn> {
    if n > 80 {
        return Ok(Turn::Bad);
    }
    let mut text = [0u8; 80];
    if !echo_title(reader, out, &mut text[..n])? {
        return Ok(Turn::Bad);
    }
    Ok(Turn::On(current))
}

// Plan record: n bytes, the current plan from now on.
fn take_plan<R: Read>(
    reader: &mut R,
    plan: &mut [u8],
    n: usize,
    mut current: Current,
) -> io::Result<Turn> {
    if n > plan.len() {
        return Ok(Turn::Bad);
    }
    if !input::fill(reader, &mut plan[..n])? {
        return Ok(Turn::Bad);
    }
    current.plan = n;
    Ok(Turn::On(current))
}

// Reads the first n words; false where they are too many, or the input ends first.
fn fill_words<R: Read>(reader: &mut R, words: &mut [u64], n: usize) -> io::Result<bool> {
    if n > 1100 || n > words.len() {
        return Ok(false);
    }
    let mut raw = [0u8; 8800];
    let size = 8 * n;
    if !input::fill(reader, &mut raw[..size])? {
        return Ok(false);
    }
    input::decode(&raw, &mut words[..n]);
    Ok(true)
}

// Words record: n words, lent from now on; those behind keep their contents.
fn take_words<R: Read>(
    reader: &mut R,
    words: &mut [u64],
    n: usize,
    mut current: Current,
) -> io::Result<Turn> {
    if !fill_words(reader, words, n)? {
        return Ok(Turn::Bad);
    }
    current.lent = n;
    Ok(Turn::On(current))
}

// Lending record: from now on n of the words are lent.
fn lend(n: usize, mut current: Current) -> Turn {
    if n > 1100 {
        return Turn::Bad;
    }
    current.lent = n;
    Turn::On(current)
}

// Entries record: n entries of the list, from a place on; all others keep their contents.
fn take_entries<R: Read>(
    reader: &mut R,
    log: &mut [u64],
    n: usize,
    at: usize,
    current: Current,
) -> io::Result<Turn> {
    if at > log.len() {
        return Ok(Turn::Bad);
    }
    if !fill_words(reader, &mut log[at..], n)? {
        return Ok(Turn::Bad);
    }
    Ok(Turn::On(current))
}

// Lending record of the list: from now on n of its entries are lent.
fn lend_entries(n: usize, mut current: Current) -> Turn {
    if n > 4200 {
        return Turn::Bad;
    }
    current.entries = n;
    Turn::On(current)
}

// Count record: the list's count from now on, of a high and a low part.
fn take_count(high: usize, low: u32, mut current: Current) -> Turn {
    if high > 65535 {
        return Turn::Bad;
    }
    current.count = high as u64 * 4294967296 + u64::from(low);
    Turn::On(current)
}

// Block record: the block that the calls on the list are about from now on.
fn take_block(block: u32, mut current: Current) -> Turn {
    current.block = block;
    Turn::On(current)
}

// Judges the plan.
fn try_plan<W: Write>(out: &mut W, plan: &[u8], current: Current) -> io::Result<Turn> {
    let size = current.plan.min(plan.len());
    calls::plan_line(&plan[..size]).write(out)?;
    Ok(Turn::On(current))
}

// Chooses the counts in the lent buffer; the digest is that of the buffer.
fn answer_counts<W: Write>(out: &mut W, plan: &[u8], lent: &mut [u8]) -> io::Result<()> {
    let line = calls::counts_line(plan, lent);
    line.hex(digest::of_bytes(lent)).write(out)
}

// Chooses the counts, in a buffer of n bytes.
fn try_counts<W: Write>(out: &mut W, plan: &[u8], n: usize, current: Current) -> io::Result<Turn> {
    let size = current.plan.min(plan.len());
    let room = n.min(65536);
    let mut space = input::filled();
    answer_counts(out, &plan[..size], &mut space[..room])?;
    Ok(Turn::On(current))
}

// Converts the plan into the lent buffer; the digest is that of the buffer.
fn answer_conversion<W: Write>(out: &mut W, plan: &[u8], lent: &mut [u8]) -> io::Result<()> {
    let line = calls::convert_line(plan, lent);
    line.hex(digest::of_bytes(lent)).write(out)
}

// Converts the plan, into a buffer of n bytes.
fn try_convert<W: Write>(out: &mut W, plan: &[u8], n: usize, current: Current) -> io::Result<Turn> {
    let size = current.plan.min(plan.len());
    let room = n.min(65536);
    let mut space = input::filled();
    answer_conversion(out, &plan[..size], &mut space[..room])?;
    Ok(Turn::On(current))
}

// Makes a call on the lent words; the digest is that of all words.
fn try_words<W: Write>(
    out: &mut W,
    plan: &[u8],
    words: &mut [u64],
    current: Current,
    op: u8,
    limit: u32,
) -> io::Result<Turn> {
    let size = current.plan.min(plan.len());
    let lent = current.lent.min(words.len());
    let line = calls::words_line(&plan[..size], &mut words[..lent], op, limit);
    line.hex(digest::of_words(words)).write(out)?;
    Ok(Turn::On(current))
}

// A read on the lent entries; the digest is that of all entries.
fn try_read<W: Write>(
    out: &mut W,
    plan: &[u8],
    log: &mut [u64],
    mut current: Current,
    tick: u32,
) -> io::Result<Turn> {
    let size = current.plan.min(plan.len());
    let lent = current.entries.min(4200);
    let mut list = log::unpacked(log);
    let answer = reads::read(
        &plan[..size],
        current.block,
        tick,
        &mut list[..lent],
        current.count,
    );
    log::pack(&list, log);
    Line::new(b"read")
        .answer(answer)
        .hex(digest::of_words(log))
        .write(out)?;
    current.count = answer.unwrap_or(current.count);
    Ok(Turn::On(current))
}

// The popularity of the current block; the digest is that of all entries.
fn try_popularity<W: Write>(
    out: &mut W,
    plan: &[u8],
    log: &[u64],
    current: Current,
) -> io::Result<Turn> {
    let size = current.plan.min(plan.len());
    let lent = current.entries.min(4200);
    let list = log::unpacked(log);
    let answer = reads::popularity(&plan[..size], current.block, &list[..lent], current.count);
    Line::new(b"popularity")
        .answer(answer)
        .hex(digest::of_words(log))
        .write(out)?;
    Ok(Turn::On(current))
}

// Does what a record says.
fn apply<R: Read, W: Write>(
    reader: &mut R,
    out: &mut W,
    plan: &mut [u8],
    words: &mut [u64],
    log: &mut [u64],
    current: Current,
    head: Head,
) -> io::Result<Turn> {
    let Head { op, n, number } = head;
    match op {
        b'T' => take_title(reader, out, n, current),
        b'P' => take_plan(reader, plan, n, current),
        b'W' => take_words(reader, words, n, current),
        b'L' => Ok(lend(n, current)),
        b'R' => take_entries(reader, log, n, number as usize, current),
        b'M' => Ok(lend_entries(n, current)),
        b'N' => Ok(take_count(n, number, current)),
        b'B' => Ok(take_block(number, current)),
        b'p' => try_plan(out, plan, current),
        b'c' => try_counts(out, plan, n, current),
        b'v' => try_convert(out, plan, n, current),
        b'f' | b'k' | b'r' | b's' | b'u' => try_words(out, plan, words, current, op, number),
        b'd' => try_read(out, plan, log, current, number),
        b'o' => try_popularity(out, plan, log, current),
        b'E' => Ok(Turn::End),
        _ => Ok(Turn::Bad),
    }
}

// Reads the next record, and does what it says.
fn take_record<R: Read, W: Write>(
    reader: &mut R,
    out: &mut W,
    plan: &mut [u8],
    words: &mut [u64],
    log: &mut [u64],
    current: Current,
) -> io::Result<Turn> {
    match input::next_head(reader)? {
        None => Ok(Turn::Bad),
        Some(head) => apply(reader, out, plan, words, log, current, head),
    }
}

// Takes record after record. A proved loop has to end, so it takes no more of them than a number that no stream uses up.
fn play<R: Read, W: Write>(
    reader: &mut R,
    out: &mut W,
    plan: &mut [u8],
    words: &mut [u64],
    log: &mut [u64],
) -> io::Result<()> {
    let mut current = Current {
        plan: 0,
        lent: 0,
        entries: 0,
        count: 0,
        block: 0,
    };
    for _ in 0..u32::MAX {
        let turn = take_record(reader, out, plan, words, log, current)?;
        match turn {
            Turn::On(next) => {
                current = next;
            }
            Turn::End => {
                return Line::new(b"end").write(out);
            }
            Turn::Bad => {
                return Line::new(b"bad stream").write(out);
            }
        }
    }
    Ok(())
}

fn main(rt: HostRuntime) -> io::Result<()> {
    let mut plan = [0u8; 8000];
    let mut words = [0u64; 1100];
    let mut log = [0u64; 4200];
    play(
        &mut rt.stdin(),
        &mut rt.stdout(),
        &mut plan,
        &mut words,
        &mut log,
    )
}
