// What the telling of an answer is made of: a refusal's number as the code, numbers written to `out`, steps and replies as numbers.
#![tactic(auto)]

ghost use Rattle.std.specs.Prelude.{◌≡◌, ◌≤◌, length};
ghost use Rattle.refusal.specs.Rows.{number_of};
ghost use Rattle.search.specs.Scene.{step_of};
ghost use Rattle.service.specs.Entries.{run_reply};
ghost use Rattle.script.specs.Script.{reply_is};
ghost use Rattle.interface.specs.Interface.{over, step_numbers, run_numbers, reply_numbers};

use balance::Ran;
use refusal::Refusal;
use script::Reply;
use search::Step;

// A refusal's number as the code returned.
pub fn code_of(refusal: Refusal) -> u32
    ensures { result ≡ number_of refusal }
{
    u32::from(u8::from(refusal))
}

// Writes the numbers into the first words of out; its later words stay.
#[tactic(auto, unfolding(crate::specs::Interface::over))]
pub fn write_numbers(out: &mut [u64], numbers: &[u64])
    requires { length numbers.now ≤ length out.old }
    ensures { out.new ≡ over numbers.now out.old }
{
    out[..numbers.len()].copy_from_slice(numbers);
}

// A step as numbers: 1 if there is one, its kind, m, n, i, j; 0 where there is none.
#[tactic(auto, unfolding(crate::specs::Interface::step_numbers, search::specs::Scene::step_of))]
pub fn step_numbers(step: Option<Step>) -> [u64; 6]
    ensures { result ≡ step_numbers (step_of step) }
{
    match step {
        None => [0, 0, 0, 0, 0, 0],
        Some(Step::Move { m, n, i }) => [1, 0, m as u64, n as u64, i as u64, 0],
        Some(Step::Swap { m, n, i, j }) => [1, 1, m as u64, n as u64, i as u64, j as u64],
        Some(Step::RackMove { m, n, i }) => [1, 2, m as u64, n as u64, i as u64, 0],
        Some(Step::RackSwap { m, n, i, j }) => [1, 3, m as u64, n as u64, i as u64, j as u64],
    }
}

// A run as numbers: 1 for rest and 0 for spent, and the number of steps.
#[tactic(auto, unfolding(crate::specs::Interface::run_numbers))]
pub fn run_numbers(ran: Ran) -> [u64; 2]
    ensures { result ≡ run_numbers (run_reply ran) }
{
    match ran {
        Ran::Rested(steps) => [1, u64::from(steps)],
        Ran::Spent(steps) => [0, u64::from(steps)],
    }
}

// A reply as numbers: its kind (0 refused, 1 checked, 2 a step, 3 a run), then its own.
#[tactic(auto, using(crate::proofs::Laws::six_numbers), unfolding(crate::specs::Interface::run_numbers, crate::specs::Interface::reply_numbers, script::specs::Script::reply_is))]
pub fn reply_numbers(reply: Result<Reply, Refusal>) -> [u64; 7]
    ensures { result ≡ reply_numbers (reply_is reply) }
{
    match reply {
        Err(refusal) => [0, u64::from(code_of(refusal)), 0, 0, 0, 0, 0],
        Ok(Reply::Checked) => [1, 0, 0, 0, 0, 0, 0],
        Ok(Reply::Stepped(step)) => {
            let s = step_numbers(step);
            [2, s[0], s[1], s[2], s[3], s[4], s[5]]
        }
        Ok(Reply::Ran(ran)) => {
            let r = run_numbers(ran);
            [3, r[0], r[1], 0, 0, 0, 0]
        }
    }
}
