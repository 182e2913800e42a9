//! `ranges` explains version ranges and finds the versions that match them, at a terminal and in scripts.
//!
//! `ranges --help` lists its commands, `ranges COMMAND --help` the arguments of each, and `docs/RANGES.md` what each prints.
//!
//! The status is 0 for `yes` and for a printed result, 1 for `no` and `none` and if no version matches, 2 for a tag, 3 if an
//! argument or a line is invalid, 4 for arguments that the program doesn't know, 5 out of memory, and 6 if standard input
//! can't be read or standard output can't be written. Of `check` it is 1 if it finds an error, 2 for arguments that the program doesn't know,
//! and 3 if a file can't be read.
#![tactic(auto)]

mod apart;
mod asked;
mod checking;
mod comparing;
mod corepack;
mod explaining;
mod listed;
mod overriding;
mod packaged;
mod scanned;
mod stepping;

use clap::ArgMatches;
use clap::error::ErrorKind as Mistake;
use std::alloc::AllocError;
use std::env::{Env, FillError};
use std::io::{BufWriter, IsTerminal, Write};
use std::process::ExitCode;
use std::rt::Runtime;
use std::{env, io};
use terminal::args::{Options, grammars, program};
use terminal::console::{Console, Status, Stop, Style, Terminal};
use terminal::given::{Given, line_of};
use terminal::shown::Shown;

// Whether a command over versions reads them from standard input.
fn reads_versions(matches: &ArgMatches<'_>) -> bool {
    match matches.get_strs("VERSION") {
        Some(versions) => versions.contains(&"-"),
        None => true,
    }
}

// What `-` stands for among the arguments of a command that doesn't read many lines for it.
fn line_for<R: Input, O: Write, E: Write>(
    rt: &R,
    console: &mut Console<O, E>,
    name: &str,
    matches: &ArgMatches<'_>,
) -> Result<Option<String>, Stop> {
    match name {
        "check" | "asked" | "explain" | "canonical" | "sort" | "key" => Ok(None),
        "filter" | "best" | "outdated" | "simplify" => {
            let is_read = reads_versions(matches);
            line_of(rt, console, matches, &["RANGE", "range"], is_read)
        }
        _ => {
            let names = ["RANGE", "NEW", "OLD", "ONE", "OTHER", "VERSION", "TEXT"];
            line_of(rt, console, matches, &names, false)
        }
    }
}

// Runs the command of this name.
fn perform<R: Runtime + AllocGlobal, O: Write, E: Write>(
    rt: &R,
    console: &mut Console<O, E>,
    name: &str,
    matches: &ArgMatches<'_>,
) -> Result<Status, Stop> {
    let line = line_for(rt, console, name, matches)?;
    let given = Given::new(&*matches, line.as_deref());
    if matches!(name, "filter" | "best" | "outdated" | "min") {
        explaining::tell_notes(console, given)?;
    }
    match name {
        "check" => checking::check(rt, console, matches),
        "asked" => asked::report(rt, console, matches),
        "filter" => listed::filter(rt, console, given),
        "best" => listed::best(rt, console, given),
        "outdated" => listed::outdated(rt, console, given),
        "simplify" => listed::simplify(rt, console, given),
        "sort" => listed::sort(rt, console, given),
        "key" => listed::key(rt, console, given),
        "explain" => explaining::report(rt, console, given),
        "canonical" => comparing::canonical(rt, console, given),
        "common" | "min" => comparing::common(console, given),
        "within" => comparing::within(console, given),
        "overlap" => comparing::overlap(console, given),
        "compare" => comparing::compare(console, given),
        "increment" => stepping::increment(console, given),
        "difference" => stepping::difference(console, given),
        "coerce" => stepping::coerce(console, given),
        "scans" => scanned::report(console, given),
        "package" => packaged::report_package(console, given),
        "reference" => packaged::report_reference(console, given),
        _ => Ok(Status::Usage),
    }
}

// Runs the command of this name, and flushes its output.
fn answer<R: Runtime + AllocGlobal, O: Write, E: Write>(
    rt: &R,
    console: &mut Console<O, E>,
    name: &str,
    matches: &ArgMatches<'_>,
) -> Result<Status, Stop> {
    let status = match perform(rt, console, name, matches) {
        Err(Stop::Ended(status)) => status,
        outcome => outcome?,
    };
    console.out.flush()?;
    Ok(status)
}

// Whether the arguments are those of `min`, with more than one range.
fn asks_min_of_several(arguments: &[String]) -> bool {
    let is_min = arguments
        .get(1)
        .is_some_and(|command| command.as_str() == "min");
    let ranges = arguments
        .iter()
        .skip(2)
        .filter(|it| !it.as_str().starts_with('-'));
    is_min && ranges.count() > 1
}

// What is said of such arguments.
const FOR_MORE_RANGES: &str =
    "  = for the lowest version that several ranges match, run: ranges common RANGE RANGE..";

// Parses the arguments, and runs their command, with a buffered console or, if it is quiet, one that prints nowhere. Or prints
// the help, the version, or what is wrong with the arguments.
fn run<R: Runtime + AllocGlobal, E: Write + Drop>(
    rt: &R,
    mut err: E,
    terminal: Terminal,
    arguments: &[String],
) -> Result<Status, Stop> {
    let grammars = grammars();
    match program(rt.alloc(), &grammars)?.try_get_matches_from(arguments) {
        Ok(matches) => {
            let Some((name, matches)) = matches.subcommand() else {
                return Ok(Status::Usage);
            };
            let terminal = terminal.colored(matches.get_str("color"));
            let (alloc, options) = (rt.alloc(), Options::of(matches));
            if options.quiet {
                let mut console = Console::new(alloc, io::sink(), err, terminal, options);
                return answer(rt, &mut console, name, matches);
            }
            let out = BufWriter::new(alloc, io::writer(rt))?;
            let mut console = Console::new(alloc, out, err, terminal, options);
            answer(rt, &mut console, name, matches)
        }
        Err(mistake) => match mistake.kind() {
            Mistake::DisplayHelp | Mistake::DisplayVersion => {
                rt.print(&mistake)?;
                Ok(Status::Answered)
            }
            Mistake::OutOfMemory => Err(Stop::OutOfMemory),
            kind => {
                let text = format!(in rt.alloc(); "{mistake}")?;
                for line in text.lines() {
                    // What can't be written to standard error is left out.
                    let _ = writeln!(err, "{}", Shown(line));
                }
                if kind == Mistake::UnknownArgument && asks_min_of_several(arguments) {
                    let _ = writeln!(err, "{FOR_MORE_RANGES}");
                }
                Ok(match arguments.get(1) {
                    Some(command) if command.as_str() == "check" => Status::Misused,
                    _ => Status::Usage,
                })
            }
        },
    }
}

// The bytes of the argument at a place, if there is one.
fn argument<R: Env + AllocGlobal>(rt: &R, place: usize) -> io::Result<Option<Vec<u8>>> {
    let mut size = 256usize;
    for _ in 0..usize::BITS {
        let mut bytes = Vec::new(rt.alloc());
        if bytes.resize(size, 0u8).is_err() {
            break;
        }
        match rt.arg(place, bytes.as_mut_slice()) {
            Ok(length) => {
                bytes.truncate(length);
                return Ok(Some(bytes));
            }
            Err(FillError::NotPresent) => return Ok(None),
            Err(FillError::TooLong) => size = size.saturating_mul(2),
        }
    }
    Err(io::Error::from(AllocError))
}

// The arguments. One of `check` that isn't valid UTF-8 becomes the name of no file, which is reported, and the others are checked.
fn arguments<R: Env + AllocGlobal>(rt: &R) -> io::Result<Vec<String>> {
    let mut all: Vec<String> = Vec::new(rt.alloc());
    for place in 0..usize::MAX {
        let Some(bytes) = argument(rt, place)? else {
            break;
        };
        let bytes = bytes.as_slice();
        let is_of_check = all
            .get(1)
            .is_some_and(|command| command.as_str() == "check");
        let text = match str::from_utf8(bytes) {
            Ok(text) => String::from_str(rt.alloc(), text)?,
            Err(_) if is_of_check => String::from_utf8_lossy(rt.alloc(), bytes)?,
            Err(_) => return Err(io::Error::from(io::ErrorKind::InvalidData)),
        };
        all.push(text)?;
    }
    Ok(all)
}

fn style(is_terminal: bool, is_plain: bool) -> Style {
    if is_terminal && !is_plain {
        Style::Colored
    } else {
        Style::Plain
    }
}

fn main(rt: HostRuntime) -> ExitCode {
    let has_no_color = env::var(&rt, "NO_COLOR").is_ok_and(|value| !value.is_empty());
    let is_dumb = env::var(&rt, "TERM").is_ok_and(|value| value.as_str() == "dumb");
    let is_plain = has_no_color || is_dumb;
    let terminal = Terminal {
        reads: rt.stdin().is_terminal(),
        writes: rt.stdout().is_terminal(),
        out: style(rt.stdout().is_terminal(), is_plain),
        err: style(rt.stderr().is_terminal(), is_plain),
    };
    let outcome = match arguments(&rt) {
        Ok(arguments) => run(&rt, rt.stderr(), terminal, arguments.as_slice()),
        Err(error) => Err(Stop::of(error, Stop::NoText)),
    };
    let status = match outcome {
        Ok(status) => status,
        Err(stop) => {
            if let Some(message) = stop.message() {
                let _ = writeln!(rt.stderr(), "ranges: {message}");
            }
            stop.status()
        }
    };
    ExitCode::from(status.code())
}
