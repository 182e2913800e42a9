//! `conformance` checks the public calls of `deno_semver` against a table.
//!
//! It reads the table from standard input. A line that begins with `#` is a heading, and a line of whitespace is skipped;
//! every other line is a row: a JSON array of two arrays of texts or nulls, a call with its arguments and its answer. The
//! program prints each row that has another answer, with that answer, each line that it can't parse, with the reason, and
//! then for each call the number of rows run and of rows that differ.
//!
//! The status is 0 if nothing differs, else 1; it is 4 if standard input can't be read, 5 out of memory and 6 if standard
//! output can't be written.
#![tactic(auto)]

ghost use Rattle.std.specs.Prelude.{◌≡◌, ◌↔◌, false, true};
ghost use Rattle.conformance.specs.declared.table.Problem.TheVariants.{OutOfMemory, Unread, Unwritten};

mod answer;
mod arguments;
mod calls;
mod examples;
mod json;
mod kinds;
mod met;
mod notation;
mod packages;
mod requirements;
mod table;
mod versions;

use std::io;
use std::io::{BufWriter, ErrorKind, Read, Write};
use std::process::ExitCode;
use table::Problem;

// Whether no row of the table on standard input differs.
fn run(rt: &HostRuntime) -> Result<bool, Problem> {
    let alloc = rt.alloc();
    let mut table = Vec::new(alloc);
    if let Err(error) = rt.reader().read_to_end(&mut table) {
        return Err(match error.kind() {
            ErrorKind::OutOfMemory => Problem::OutOfMemory,
            _ => Problem::Unread,
        });
    }
    let mut out = BufWriter::new(alloc, io::writer(rt))?;
    let agrees = table::compare(alloc, table.as_slice(), &mut out)?;
    out.flush()?;
    Ok(agrees)
}

// The exit status.
fn status(agrees: Result<bool, Problem>) -> u8
    ensures agrees { (result ≡ 0) ↔ (agrees ≡ Ok true) }
    ensures differs { (result ≡ 1) ↔ (agrees ≡ Ok false) }
    ensures unread { (result ≡ 4) ↔ (agrees ≡ Err Unread) }
    ensures memory { (result ≡ 5) ↔ (agrees ≡ Err OutOfMemory) }
    ensures unwritten { (result ≡ 6) ↔ (agrees ≡ Err Unwritten) }
{
    match agrees {
        Ok(true) => 0,
        Ok(false) => 1,
        Err(Problem::Unread) => 4,
        Err(Problem::OutOfMemory) => 5,
        Err(Problem::Unwritten) => 6,
    }
}

fn main(rt: HostRuntime) -> ExitCode {
    ExitCode::from(status(run(&rt)))
}
