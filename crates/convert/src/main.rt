// The converter: reads a plan of version 1 or 2 from standard input and writes it as version 3 to standard output, or for refused bytes
// `refused` and the number to standard error.
#![tactic(auto)]

ghost use Rattle.std.specs.Prelude.{◌≡◌, ◌≤◌, length, option_map, IfSome, IfNone, OnOk};
ghost use Rattle.std.specs.Io.KnownBytes.{Appends};
ghost use Rattle.model.specs.Conversion.{convert_verdict, converted_output, converted_errors};
ghost use Rattle.input.specs.Source.{source_bytes};
ghost use Rattle.convert.specs.Output.{converted_stream, errors_of, result_room, line_room, result_size, answer_output, answer_errors, Sends};
ghost use Rattle.convert.specs.Failure.{OnInputFailure, IsInputFailure};

use input::Source;
use refusal::Refusal;
use std::io::{Read, Write};
use std::process::ExitCode;
use std::{fmt, io};

// Bytes that every new file fits in, and every line of a refusal.
const RESULT_ROOM: usize = 7183;

const LINE_ROOM: usize = 12;

// Converts the bytes that came; where a read failed, no byte is converted and nothing is refused.
fn answer(came: &Option<Source>, buffer: &mut [u8]) -> Result<usize, Refusal>
    requires { result_room ≤ length buffer.old }
    ensures { Sends result buffer.new (converted_stream (option_map source_bytes came.now)) (errors_of (option_map source_bytes came.now)) }
{
    match came {
        Some(source) => conversion::convert(source.bytes(), buffer),
        None => Ok(0),
    }
}

// The part of the buffer that goes to standard output: the new file, nothing after a refusal.
fn output<'a>(answer: Result<usize, Refusal>, buffer: &'a mut [u8]) -> &'a mut [u8]
    requires { result_size answer ≤ length buffer.old }
    ensures { result.now ≡ answer_output answer buffer.old }
{
    match answer {
        Err(_) => &mut buffer[..0],
        Ok(size) => &mut buffer[..size],
    }
}

// The part of a lent line that goes to standard error: `refused` and the number, nothing after a conversion.
fn errors<'a>(answer: Result<usize, Refusal>, line: &'a mut [u8]) -> &'a mut [u8]
    requires { line_room ≤ length line.old }
    ensures { result.now ≡ answer_errors answer }
{
    let Err(refusal) = answer else {
        return &mut line[..0];
    };
    let code = u8::from(refusal);
    let numbers = [u64::from(code)];
    let size = text::put_line(line, 0, b"refused", &numbers);
    &mut line[..size]
}

// Why nothing was converted, or the result was not written whole: one of the three streams failed.
#[derive(Drop)]
enum Failure {
    Input(io::Error),
    Output(io::Error),
    Errors(io::Error),
}

impl fmt::Display for Failure {
    fn fmt<W: fmt::Write>(&self, f: &mut fmt::Formatter<W>) -> fmt::Result {
        match self {
            Failure::Input(error) => write!(f, "standard input: {error}"),
            Failure::Output(error) => write!(f, "standard output: {error}"),
            Failure::Errors(error) => write!(f, "standard error: {error}"),
        }
    }
}

// Writes to both streams what is due for what came, and nothing else.
fn write<W: Write, E: Write>(
    out: &mut W,
    err: &mut E,
    came: &Option<Source>,
    output: &[u8],
    errors: &[u8],
) -> Result<(), Failure>
    requires { (output.now ≡ converted_stream (option_map source_bytes came.now))
        × (errors.now ≡ errors_of (option_map source_bytes came.now)) }
    ensures output { OnOk result
        (Appends (W.contents out.old) (W.contents out.new) (converted_stream (option_map source_bytes came.now))) }
    ensures errors { OnOk result
        (Appends (E.contents err.old) (E.contents err.new) (errors_of (option_map source_bytes came.now))) }
    ensures failed { IfNone came.now (IsInputFailure result) }
    ensures nothing { OnInputFailure result
        ((W.contents out.new ≡ W.contents out.old) × (E.contents err.new ≡ E.contents err.old)) }
{
    if came.is_none() {
        return Err(Failure::Input(input::read_failed()));
    }
    err.write_all(errors).map_err(Failure::Errors)?;
    out.write_all(output).map_err(Failure::Output)
}

// Writes to both streams what is due for the whole input, however long, or says which stream failed: where it is standard input, nothing
// was written.
fn run<R: Read, W: Write, E: Write>(reader: &mut R, out: &mut W, err: &mut E) -> Result<(), Failure>
    ensures output { OnOk result (IfSome (R.remaining reader.old)
        (λ whole. Appends (W.contents out.old) (W.contents out.new) (converted_output (convert_verdict whole)))) }
    ensures errors { OnOk result (IfSome (R.remaining reader.old)
        (λ whole. Appends (E.contents err.old) (E.contents err.new) (converted_errors (convert_verdict whole)))) }
    ensures nothing { OnInputFailure result
        ((W.contents out.new ≡ W.contents out.old) × (E.contents err.new ≡ E.contents err.old)) }
{
    let mut buffer = [0u8; RESULT_ROOM];
    let mut line = [0u8; LINE_ROOM];
    let came = input::fill(reader).map_err(Failure::Input)?;
    let answer = answer(&came, &mut buffer);
    let output = output(answer, &mut buffer);
    let errors = errors(answer, &mut line);
    write(out, err, &came, output, errors)
}

fn main(rt: HostRuntime) -> ExitCode {
    let result = run(&mut rt.stdin(), &mut rt.stdout(), &mut rt.stderr());
    let Err(failure) = result else {
        return ExitCode::SUCCESS;
    };
    let _ = eprintln!(rt; "convert: {failure}");
    ExitCode::FAILURE
}
