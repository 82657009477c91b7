// What each entry answers, as an exported function tells it: the code returned, and the answer's numbers in the first words of `out`.
#![tactic(auto)]

ghost use Rattle.std.specs.Prelude.{◌≡◌, ◌≤◌, length};
ghost use Rattle.refusal.specs.Rows.{code_of};
ghost use Rattle.service.specs.Entries.{report_outcome, step_outcome, run_outcome};
ghost use Rattle.script.specs.Script.{reply_is};
ghost use Rattle.interface.specs.Interface.{report_numbers, step_numbers, run_numbers, reply_numbers};
ghost use Rattle.codes.specs.Told.{Told, NumberTold, reply_outcome};

use balance::Ran;
use loads::LoadReport;
use refusal::Refusal;
use script::Reply;
use search::Step;

// An answer without numbers.
pub fn tell<T: Drop>(answer: Result<T, Refusal>) -> u32
    ensures { result ≡ code_of answer }
{
    match answer {
        Ok(_) => 0,
        Err(reason) => interface::code_of(reason),
    }
}

// A report: hottest load, coolest load, sum of loads, largest share.
pub fn tell_report(answer: Result<(LoadReport, u64), Refusal>, out: &mut [u64]) -> u32
    requires { 4 ≤ length out.old }
    ensures { Told report_numbers (report_outcome answer) out.old result out.new }
{
    match answer {
        Ok((report, top)) => {
            let numbers = [report.max_load, report.min_load, report.total_load, top];
            interface::write_numbers(out, &numbers);
            0
        }
        Err(refusal) => interface::code_of(refusal),
    }
}

// A step.
pub fn tell_step(answer: Result<Option<Step>, Refusal>, out: &mut [u64]) -> u32
    requires { 6 ≤ length out.old }
    ensures { Told step_numbers (step_outcome answer) out.old result out.new }
{
    match answer {
        Ok(step) => {
            let numbers = interface::step_numbers(step);
            interface::write_numbers(out, &numbers);
            0
        }
        Err(refusal) => interface::code_of(refusal),
    }
}

// A run: 1 for rest and 0 for spent, and the number of steps.
pub fn tell_run(answer: Result<Ran, Refusal>, out: &mut [u64]) -> u32
    requires { 2 ≤ length out.old }
    ensures { Told run_numbers (run_outcome answer) out.old result out.new }
{
    match answer {
        Ok(ran) => {
            let numbers = interface::run_numbers(ran);
            interface::write_numbers(out, &numbers);
            0
        }
        Err(refusal) => interface::code_of(refusal),
    }
}

// An answer of one number: the bytes of a listing, the length of a conversion, the new count of reads, or a popularity.
pub fn tell_number(answer: Result<u64, Refusal>, out: &mut [u64]) -> u32
    requires { 1 ≤ length out.old }
    ensures { NumberTold answer out.old result out.new }
{
    match answer {
        Ok(number) => {
            let numbers = [number];
            interface::write_numbers(out, &numbers);
            0
        }
        Err(refusal) => interface::code_of(refusal),
    }
}

// A script's last reply. It is always answered.
pub fn tell_reply(reply: Result<Reply, Refusal>, out: &mut [u64]) -> u32
    requires { 7 ≤ length out.old }
    ensures { Told reply_numbers (reply_outcome (reply_is reply)) out.old result out.new }
{
    let numbers = interface::reply_numbers(reply);
    interface::write_numbers(out, &numbers);
    0
}
