// The converter: a plan of version 1 or 2 as the bytes of a version 3 file, in a lent buffer.
#![tactic(auto)]

ghost use Rattle.std.specs.Prelude.{◌≡◌};
ghost use Rattle.model.specs.Plan.{format_of};
ghost use Rattle.model.specs.Refusal.{accepted};
ghost use Rattle.model.specs.Conversion.{written_version, converted, convert_verdict, convert_call};
ghost use Rattle.text.specs.Pasted.{Room, Put};
ghost use Rattle.plan.specs.Verdict.{accepted_plan};
ghost use Rattle.encoding.specs.Widths.{as_widths};
ghost use Rattle.conversion.specs.Pieces.{new_records};
ghost use Rattle.conversion.specs.Entries.{convert_outcome};

use encoding::Widths;
use plan::Accepted;
use refusal::Refusal;

// The last version that is taken, and the one that is written.
const CONVERTED_VERSION: usize = 2;

const WRITTEN_VERSION: usize = 3;

// Puts the records of an accepted plan in file order.
fn put_records(plan: &Accepted, new: Widths, buffer: &mut [u8], at: usize) -> usize
    requires { Room at (new_records (as_widths new) (accepted_plan plan.now)) buffer.old }
    ensures { Put at (new_records (as_widths new) (accepted_plan plan.now)) buffer.old buffer.new result }
{
    let records = plan.reread();
    let mut next = at;
    for i in 0..records.blocks {
        next = encoding::put_record(&records, new, i, buffer, next);
    }
    next
}

// Puts the new file of an accepted plan.
fn put_plan(plan: &Accepted, new: Widths, buffer: &mut [u8]) -> usize
    requires { (as_widths new ≡ format_of written_version) × Room 0 (converted (accepted_plan plan.now)) buffer.old }
    ensures { Put 0 (converted (accepted_plan plan.now)) buffer.old buffer.new result }
{
    let next = encoding::put_header(plan.header, WRITTEN_VERSION, new, buffer);
    put_records(plan, new, buffer, next)
}

// Converts an accepted plan that the converter takes: refused where the buffer is shorter than the new file.
fn convert_accepted(plan: &Accepted, buffer: &mut [u8]) -> Result<usize, Refusal>
    requires { convert_verdict plan.now.records.bytes.now ≡ accepted (accepted_plan plan.now) }
    ensures { convert_outcome result buffer.new ≡ convert_call plan.now.records.bytes.now buffer.old }
{
    let new = header::format_of(WRITTEN_VERSION);
    if buffer.len() < new.record_at(plan.records.blocks) {
        return Err(Refusal::ShortBuffer);
    }
    Ok(put_plan(plan, encoding::widths_of(new), buffer))
}

// Converts any bytes' plan into a lent buffer. A refusal writes nothing.
pub fn convert(bytes: &[u8], buffer: &mut [u8]) -> Result<usize, Refusal>
    ensures { convert_outcome result buffer.new ≡ convert_call bytes.now buffer.old }
{
    header::check_mark(bytes, CONVERTED_VERSION)?;
    let plan = plan::read(bytes)?;
    convert_accepted(&plan, buffer)
}
