// The program: reads a plan from standard input and prints its listing, or `refused` and the number.
#![tactic(auto)]

ghost use Rattle.std.specs.Prelude.{◌≡◌, ◌≤◌, length, option_map, IfSome, IfNone, OnOk};
ghost use Rattle.std.specs.Io.KnownBytes.{Appends};
ghost use Rattle.model.specs.Listing.{printed, step_limit, listing_room, print_call};
ghost use Rattle.listing.specs.Entries.{listing_outcome};
ghost use Rattle.input.specs.Source.{source_bytes};
ghost use Rattle.place.specs.Output.{listed_output};
ghost use Rattle.place.specs.Failure.{OnInputFailure, IsInputFailure};

use input::Source;
use refusal::Refusal;
use std::io::{Read, Write};
use std::process::ExitCode;
use std::{fmt, io};

const STEP_LIMIT: u32 = 100000;

// Prints for the bytes into a lent text, with the program's step limit.
fn print(bytes: &[u8], text: &mut [u8]) -> Result<usize, Refusal>
    ensures { listing_outcome result text.new ≡ print_call bytes.now step_limit text.old }
{
    listing::print(bytes, STEP_LIMIT, text)
}

// The part of a lent text that holds what is printed for the bytes.
fn list<'a>(bytes: &[u8], text: &'a mut [u8]) -> &'a mut [u8]
    requires { listing_room ≤ length text.old }
    ensures { result.now ≡ printed bytes.now step_limit }
{
    let Ok(size) = print(bytes, text) else {
        return &mut text[..0];
    };
    &mut text[..size]
}

// The part of a lent text that holds the output: what is printed for the bytes that came, nothing where a read failed.
fn output<'a>(came: &Option<Source>, text: &'a mut [u8]) -> &'a mut [u8]
    requires { listing_room ≤ length text.old }
    ensures { result.now ≡ listed_output (option_map source_bytes came.now) }
{
    match came {
        Some(source) => list(source.bytes(), text),
        None => &mut text[..0],
    }
}

// Why nothing was printed, or not all of it: standard input or standard output failed.
#[derive(Drop)]
enum Failure {
    Input(io::Error),
    Output(io::Error),
}

impl fmt::Display for Failure {
    fn fmt<W: fmt::Write>(&self, f: &mut fmt::Formatter<W>) -> fmt::Result {
        match self {
            Failure::Input(error) => write!(f, "standard input: {error}"),
            Failure::Output(error) => write!(f, "standard output: {error}"),
        }
    }
}

// Writes the output for what came, and nothing else.
fn write<W: Write>(out: &mut W, came: &Option<Source>, text: &[u8]) -> Result<(), Failure>
    requires { text.now ≡ listed_output (option_map source_bytes came.now) }
    ensures output { OnOk result
        (Appends (W.contents out.old) (W.contents out.new) (listed_output (option_map source_bytes came.now))) }
    ensures failed { IfNone came.now (IsInputFailure result) }
    ensures nothing { OnInputFailure result (W.contents out.new ≡ W.contents out.old) }
{
    if came.is_none() {
        return Err(Failure::Input(input::read_failed()));
    }
    out.write_all(text).map_err(Failure::Output)
}

// Prints what is due for the whole input, however long, or says which stream failed: where it is standard input, nothing was printed.
fn run<R: Read, W: Write>(reader: &mut R, out: &mut W) -> Result<(), Failure>
    ensures output { OnOk result (IfSome (R.remaining reader.old)
        (λ whole. Appends (W.contents out.old) (W.contents out.new) (printed whole step_limit))) }
    ensures nothing { OnInputFailure result (W.contents out.new ≡ W.contents out.old) }
{
    let mut text = [0u8; 65536];
    let came = input::fill(reader).map_err(Failure::Input)?;
    let part = output(&came, &mut text);
    write(out, &came, part)
}

fn main(rt: HostRuntime) -> ExitCode {
    let Err(failure) = run(&mut rt.stdin(), &mut rt.stdout()) else {
        return ExitCode::SUCCESS;
    };
    let _ = eprintln!(rt; "place: {failure}");
    ExitCode::FAILURE
}
