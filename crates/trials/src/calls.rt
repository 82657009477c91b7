// The public entries of the placement crates, each called once, with its answer as a line.
use crate::output::Line;
use balance::Ran;
use header::Header;
use search::Step;

// A plan's fields: racks, machines per rack, capacity, budget, blocks.
fn put_header(line: Line, h: Header) -> Line {
    let cluster = h.cluster;
    line.number(cluster.racks as u64)
        .number(cluster.rack_size as u64)
        .number(cluster.capacity as u64)
        .number(h.budget as u64)
        .number(cluster.blocks as u64)
}

// Judges a plan: its fields, or the refusal.
pub fn plan_line(bytes: &[u8]) -> Line {
    let line = Line::new(b"plan");
    match plan::read(bytes) {
        Ok(plan) => put_header(line, plan.header),
        Err(refusal) => line.refused(refusal),
    }
}

// Chooses the counts: the largest share.
pub fn counts_line(bytes: &[u8], lent: &mut [u8]) -> Line {
    Line::new(b"counts").answer(service::counts(bytes, lent))
}

// Converts the plan: the result's length.
pub fn convert_line(bytes: &[u8], lent: &mut [u8]) -> Line {
    Line::new(b"convert").answer(conversion::convert(bytes, lent).map(|size| size as u64))
}

// Makes the first placement: the number of blocks.
fn first_line(bytes: &[u8], words: &mut [u64]) -> Line {
    Line::new(b"first").answer(service::first(bytes, words).map(|blocks| blocks as u64))
}

// Checks the placement: the number of blocks.
fn check_line(bytes: &[u8], words: &[u64]) -> Line {
    Line::new(b"check").answer(service::check(bytes, words).map(|blocks| blocks as u64))
}

// Reports on the placement: largest load, smallest load, sum of loads, largest share.
fn report_line(bytes: &[u8], words: &[u64]) -> Line {
    let line = Line::new(b"report");
    match service::report(bytes, words) {
        Ok((report, top)) => line
            .number(report.max_load)
            .number(report.min_load)
            .number(report.total_load)
            .number(top),
        Err(refusal) => line.refused(refusal),
    }
}

// A step's kind, machines and blocks.
fn put_step(line: Line, step: Step) -> Line {
    match step {
        Step::Move { m, n, i } => put_move(line.text(b" Move"), m, n, i),
        Step::Swap { m, n, i, j } => put_move(line.text(b" Swap"), m, n, i).number(j as u64),
        Step::RackMove { m, n, i } => put_move(line.text(b" RackMove"), m, n, i),
        Step::RackSwap { m, n, i, j } => put_move(line.text(b" RackSwap"), m, n, i).number(
            j as u64,
        ),
    }
}

// The two machines of a step, and the block that leaves the first.
fn put_move(line: Line, m: usize, n: usize, i: usize) -> Line {
    line.number(m as u64).number(n as u64).number(i as u64)
}

// Takes one step: the step taken, or rest.
fn step_line(bytes: &[u8], words: &mut [u64]) -> Line {
    let line = Line::new(b"step");
    match service::step(bytes, words) {
        Ok(Some(step)) => put_step(line, step),
        Ok(None) => line.text(b" rest"),
        Err(refusal) => line.refused(refusal),
    }
}

// Runs with a step limit: how the run ended, and the number of steps taken.
fn run_line(bytes: &[u8], words: &mut [u64], limit: u32) -> Line {
    let line = Line::new(b"run");
    match service::run(bytes, words, limit) {
        Ok(Ran::Rested(steps)) => line.text(b" rest").number(u64::from(steps)),
        Ok(Ran::Spent(steps)) => line.text(b" spent").number(u64::from(steps)),
        Err(refusal) => line.refused(refusal),
    }
}

// The call of an op on the words lent: f, k, r or s, and otherwise u.
pub fn words_line(bytes: &[u8], words: &mut [u64], op: u8, limit: u32) -> Line {
    match op {
        b'f' => first_line(bytes, words),
        b'k' => check_line(bytes, words),
        b'r' => report_line(bytes, words),
        b's' => step_line(bytes, words),
        _ => run_line(bytes, words, limit),
    }
}
