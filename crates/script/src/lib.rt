// A script of calls, played over one plan and its words: checks, steps and runs, one after the other.
#![tactic(auto)]

ghost use Rattle.std.specs.Prelude.{◌≡◌};
ghost use Rattle.model.specs.Claims.{ask_check, ask_step, ask_run, respond, does};
ghost use Rattle.script.specs.Script.{request_in, call_with, call_of, played_by};
ghost use Rattle.script.specs.Promise.{ScriptPlayed};

use balance::Ran;
use refusal::Refusal;
use search::Step;

// An item's lowest 32 bits are a step limit.
const LIMIT_SPAN: u64 = 4294967296;

// What a call answered: that the check passed, the step taken if there is one, or how a run ended.
#[derive(Clone, Copy)]
pub enum Reply {
    Checked,
    Stepped(Option<Step>),
    Ran(Ran),
}

// A check of the words lent.
fn check_lent(bytes: &[u8], words: &[u64]) -> Result<Reply, Refusal>
    ensures { played_by result words.now
        ≡ respond ask_check bytes.now words.now }
{
    service::check(bytes, words)?;
    Ok(Reply::Checked)
}

// One step on the words lent.
fn step_lent(bytes: &[u8], words: &mut [u64]) -> Result<Reply, Refusal>
    ensures { played_by result words.new
        ≡ respond ask_step bytes.now words.old }
{
    let step = service::step(bytes, words)?;
    Ok(Reply::Stepped(step))
}

// A run on the words lent.
fn run_lent(bytes: &[u8], words: &mut [u64], limit: u32) -> Result<Reply, Refusal>
    ensures { played_by result words.new
        ≡ respond (ask_run limit) bytes.now words.old }
{
    let ran = service::run(bytes, words, limit)?;
    Ok(Reply::Ran(ran))
}

// The call of an item's kind, on the words lent.
fn call_lent(bytes: &[u8], words: &mut [u64], item: u64) -> Result<Reply, Refusal>
    ensures { played_by result words.new
        ≡ respond (request_in item) bytes.now words.old }
{
    let kind = item / LIMIT_SPAN % 4;
    // No `match`: its last arm tells the proof nothing about the number.
    if kind == 0 {
        return check_lent(bytes, words);
    }
    if kind == 1 {
        return step_lent(bytes, words);
    }
    run_lent(bytes, words, (item % LIMIT_SPAN) as u32)
}

// The call of an item, on the first so many of the words as it asks for.
fn call_part(bytes: &[u8], words: &mut [u64], item: u64) -> Result<Reply, Refusal>
    ensures { played_by result words.new
        ≡ does (call_with bytes.now item) words.old }
{
    let asked = item / LIMIT_SPAN / 8;
    let lent = asked.min(words.len() as u64) as usize;
    call_lent(bytes, &mut words[..lent], item)
}

// The call of an item, with the plan's bytes or the other ones.
fn call_item(bytes: &[u8], other: &[u8], words: &mut [u64], item: u64) -> Result<Reply, Refusal>
    ensures { played_by result words.new
        ≡ does (call_of bytes.now other.now item) words.old }
{
    let source = item / LIMIT_SPAN / 4 % 2;
    // No `match`, as in `call_lent`.
    if source == 1 {
        return call_part(other, words, item);
    }
    call_part(bytes, words, item)
}

// Plays the script's calls one after the other, and answers the last reply, `Checked` where there is no call.
pub fn play(bytes: &[u8], other: &[u8], words: &mut [u64], script: &[u64]) -> Result<Reply, Refusal>
    ensures { ScriptPlayed bytes.now other.now script.now words.old result words.new }
{
    let mut reply = Ok(Reply::Checked);
    for item in script {
        reply = call_item(bytes, other, words, *item);
    }
    reply
}
