// The functions that the archive exports to C: thin wrappers over the public entries, on numbers and slices alone.
// Each judges the length of `out`, makes its call and has the answer told (`codes`).
// Each returns 0 or the number of a refusal, and writes only where it returns 0.
#![tactic(auto, using(crate::proofs::Short::short_told))]

ghost use Rattle.std.specs.Prelude.{[], ◌≡◌};
ghost use Rattle.model.specs.Refusal.{verdict_code, judge};
ghost use Rattle.model.specs.Calls.{counts_call, first_call, check_call, report_call, step_call, run_call};
ghost use Rattle.model.specs.Listing.{listing_call};
ghost use Rattle.model.specs.Conversion.{convert_call};
ghost use Rattle.model.specs.ReadLog.{read_call, popularity_call};
ghost use Rattle.interface.specs.Interface.{effect_of, effect, no_numbers, report_numbers, step_numbers, run_numbers, one_number};
ghost use Rattle.capi.specs.Script.{PlayedInto};

use model::Entry;

// The code for an `out` that is shorter than what the call writes there, above all refusal numbers.
const SHORT_OUT: u32 = 255;

// Judges a plan.
#[unsafe(no_mangle)]
pub extern "C" fn bpl_plan(plan: &[u8]) -> u32
    ensures { result ≡ verdict_code (judge plan.now) }
{
    let reading = plan::read(plan);
    codes::tell(reading)
}

// Chooses the counts.
#[unsafe(no_mangle)]
pub extern "C" fn bpl_counts(plan: &[u8], counts: &mut [u8]) -> u32
    ensures { effect_of result counts.new []
        ≡ effect 0 no_numbers counts.old [] (counts_call plan.now counts.old) }
{
    let answer = service::counts(plan, counts);
    codes::tell(answer)
}

// Makes the first placement.
#[unsafe(no_mangle)]
pub extern "C" fn bpl_first(plan: &[u8], words: &mut [u64]) -> u32
    ensures { effect_of result words.new []
        ≡ effect 0 no_numbers words.old [] (first_call plan.now words.old) }
{
    let answer = service::first(plan, words);
    codes::tell(answer)
}

// Checks a placement. It never writes.
#[unsafe(no_mangle)]
pub extern "C" fn bpl_check(plan: &[u8], words: &[u64]) -> u32
    ensures { effect_of result words.now []
        ≡ effect 0 no_numbers words.now [] (check_call plan.now words.now) }
{
    let answer = service::check(plan, words);
    codes::tell(answer)
}

// Reports on a placement: hottest load, coolest load, sum of loads, largest share.
#[unsafe(no_mangle)]
pub extern "C" fn bpl_report(plan: &[u8], words: &[u64], out: &mut [u64]) -> u32
    ensures { effect_of result words.now out.new
        ≡ effect 4 report_numbers words.now out.old (report_call plan.now words.now) }
{
    if out.len() < 4 {
        return SHORT_OUT;
    }
    let answer = service::report(plan, words);
    codes::tell_report(answer, out)
}

// Takes the next step.
#[unsafe(no_mangle)]
pub extern "C" fn bpl_step(plan: &[u8], words: &mut [u64], out: &mut [u64]) -> u32
    ensures { effect_of result words.new out.new
        ≡ effect 6 step_numbers words.old out.old (step_call plan.now words.old) }
{
    if out.len() < 6 {
        return SHORT_OUT;
    }
    let answer = service::step(plan, words);
    codes::tell_step(answer, out)
}

// Takes next steps until rest or until the step limit is used: 1 for rest and 0 for spent, and the number of steps.
#[unsafe(no_mangle)]
pub extern "C" fn bpl_run(plan: &[u8], words: &mut [u64], limit: u32, out: &mut [u64]) -> u32
    ensures { effect_of result words.new out.new
        ≡ effect 2 run_numbers words.old out.old (run_call plan.now words.old limit) }
{
    if out.len() < 2 {
        return SHORT_OUT;
    }
    let answer = service::run(plan, words, limit);
    codes::tell_run(answer, out)
}

// Lists a plan in a lent text: a run from the first placement with the step limit. The number of bytes is answered.
#[unsafe(no_mangle)]
pub extern "C" fn bpl_listing(plan: &[u8], limit: u32, text: &mut [u8], out: &mut [u64]) -> u32
    ensures { effect_of result text.new out.new
        ≡ effect 1 one_number text.old out.old (listing_call plan.now limit text.old) }
{
    if out.len() < 1 {
        return SHORT_OUT;
    }
    let answer = listing::listing(plan, limit, text);
    codes::tell_number(answer.map(|size| size as u64), out)
}

// Converts a version 1 or 2 plan to version 3 in a lent buffer. The result's length is answered.
#[unsafe(no_mangle)]
pub extern "C" fn bpl_convert(plan: &[u8], buffer: &mut [u8], out: &mut [u64]) -> u32
    ensures { effect_of result buffer.new out.new
        ≡ effect 1 one_number buffer.old out.old (convert_call plan.now buffer.old) }
{
    if out.len() < 1 {
        return SHORT_OUT;
    }
    let answer = conversion::convert(plan, buffer);
    codes::tell_number(answer.map(|length| length as u64), out)
}

// Plays a script of checks, steps and runs over one plan and its words, and answers the last reply.
#[unsafe(no_mangle)]
pub extern "C" fn bpl_play(
    plan: &[u8],
    other: &[u8],
    words: &mut [u64],
    script: &[u64],
    out: &mut [u64],
) -> u32
    ensures { PlayedInto plan.now other.now script.now words.old out.old
        result words.new out.new }
{
    if out.len() < 7 {
        return SHORT_OUT;
    }
    let reply = script::play(plan, other, words, script);
    codes::tell_reply(reply, out)
}

// Notes a read of a block at a tick in a lent list of entries, and answers the new count.
#[unsafe(no_mangle)]
pub extern "C" fn bpl_read(
    plan: &[u8],
    block: u32,
    tick: u32,
    list: &mut [Entry],
    count: u64,
    out: &mut [u64],
) -> u32
    ensures { effect_of result list.new out.new
        ≡ effect 1 one_number list.old out.old (read_call plan.now block tick list.old count) }
{
    if out.len() < 1 {
        return SHORT_OUT;
    }
    let answer = reads::read(plan, block, tick, list, count);
    codes::tell_number(answer, out)
}

// Counts a block's popularity in a lent list of entries. The list is never written.
#[unsafe(no_mangle)]
pub extern "C" fn bpl_popularity(
    plan: &[u8],
    block: u32,
    list: &[Entry],
    count: u64,
    out: &mut [u64],
) -> u32
    ensures { effect_of result list.now out.new
        ≡ effect 1 one_number list.now out.old (popularity_call plan.now block list.now count) }
{
    if out.len() < 1 {
        return SHORT_OUT;
    }
    let answer = reads::popularity(plan, block, list, count);
    codes::tell_number(answer, out)
}
