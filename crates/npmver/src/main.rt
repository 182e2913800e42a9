//! `npmver` compares versions with version requirements of npm and JSR packages.
//!
//! `npmver fits GRAMMAR RANGE VERSION` prints `yes` (status 0) if the version matches the requirement, which is parsed by the
//! grammar GRAMMAR, `npm`, `normal` or `strict`, `no` (1) if it doesn't, and `tag NAME` (2) if the requirement is a tag.
//! `npmver fits-pre GRAMMAR RANGE VERSION` does the same with every pre-release between the bounds.
//! `npmver best GRAMMAR RANGE VERSION..` prints the highest of the versions that match (0), as it would be installed, or
//! `none` (1), or the tag (2); each version is parsed, also for a tag.
//! `npmver normal GRAMMAR RANGE` prints the canonical form of the requirement, or the tag (0). `npmver meet A B` prints `yes`
//! (0) if two requirements overlap, both by npm's grammar, and `no` (1) if they don't.
//!
//! An invalid argument prints `refused: MESSAGE` on standard error (3); other arguments print the usage there (4), and out of
//! memory `out of memory` (5). The status is 6 if standard output can't be written. `npmver --help`, or `-h`, prints the commands
//! (0), and `npmver --version`, or `-V`, the version (0).
#![tactic(auto)]

ghost use Rattle.std.specs.Prelude.{◌≡◌, ◌∷◌, MatchOption, codes, map, string_bytes};
ghost use Rattle.answers.specs.declared.asking.Problem.TheVariants as unanswered;
ghost use Rattle.npmver.specs.Question.{IsPrinted, IsAsked, IsParser, IsStatus, NoParser, matching_command};
ghost use Rattle.npmver.specs.Reported.{status_of, reported_answer, reported_problem, reported_whether};
ghost use Rattle.npmver.specs.declared.Problem.TheVariants as problem;

use answers::asking::{Answer, Problem as Unanswered};
use answers::questions::{End, best_match, canonical, matches, overlaps, text_of_version};
use semver_base::range::PreRelease;
use semver_req::common::values::Flavour;
use semver_req::range_set_or_tag::PackageTag;
use std::alloc::{AllocError, Global};
use std::env::Env;
use std::io::{ErrorKind, Write};
use std::process::ExitCode;
use std::{env, io};

const USAGE: &str = "usage: npmver fits|fits-pre|normal|meet|best ..";

const HELP: &str = "\
npmver compares versions with version ranges of npm and JSR packages.

  npmver fits GRAMMAR RANGE VERSION      whether the version matches: yes, no, or `tag NAME` if the range is a tag
  npmver fits-pre GRAMMAR RANGE VERSION  the same, where every pre-release between the bounds matches
  npmver best GRAMMAR RANGE VERSION..    the highest version that matches, `none`, or `tag NAME`
  npmver normal GRAMMAR RANGE            the canonical form of the range, or its tag
  npmver meet RANGE RANGE                whether two ranges of npm's grammar overlap: yes or no

  npmver -h, --help                      print this page
  npmver -V, --version                   print the version

GRAMMAR is npm, normal (comparators separated by whitespace, alternatives by ||) or strict (that of package specifiers).

  $ npmver fits npm '>=1.2 <2 || 3' 1.3.0
  yes
  $ npmver best npm '^1.2' 1.2.5 1.3.0 2.0.0
  1.3.0

Exit status: 0 yes or a text, 1 no or none, 2 a tag, 3 an invalid argument, 4 unknown arguments, 5 out of memory, 6 the
output can't be written.";

const VERSION: &str = "npmver 0.1.0";

/// The line that the program prints.
#[derive(Drop)]
enum Line {
    Yes,
    No,
    /// The requirement is this tag.
    Tag(PackageTag),
    /// A canonical form, or a version.
    Text(String),
    /// No version matches.
    NoMatch,
}

impl Line {
    fn whether(holds: bool) -> Line
        ensures { reported_answer result ≡ reported_whether holds }
    {
        if holds { Line::Yes } else { Line::No }
    }
}

/// Why nothing is printed on standard output.
#[derive(Drop)]
enum Problem {
    /// The program doesn't know the arguments.
    Usage,
    Unanswered(Unanswered),
}

impl From<Unanswered> for Problem {
    ghost from_gives = { λ why made. made ≡ problem.Unanswered why };

    fn from(why: Unanswered) -> Problem {
        Problem::Unanswered(why)
    }
}

impl From<AllocError> for Problem {
    ghost from_gives = { λ _ made. made ≡ problem.Unanswered unanswered.OutOfMemory };

    fn from(_error: AllocError) -> Problem {
        Problem::Unanswered(Unanswered::OutOfMemory)
    }
}

/// Prints the result for the arguments as one line on `out`, or reports on `err` why there is none. Returns the exit status.
pub fn run<O: Write, E: Write>(alloc: Global, arguments: &[String], out: &mut O, err: &mut E) -> u8
    ensures { IsStatus (map string_bytes arguments.now) result }
{
    let line = match ask(alloc, arguments) {
        Ok(line) => line,
        Err(problem) => return report(err, &problem),
    };
    let (written, status) = match &line {
        Line::Yes => (writeln!(out, "yes"), 0),
        Line::No => (writeln!(out, "no"), 1),
        Line::Tag(tag) => (writeln!(out, "tag {tag}"), 2),
        Line::Text(text) => (writeln!(out, "{text}"), 0),
        Line::NoMatch => (writeln!(out, "none"), 1),
    };
    match written {
        Ok(()) => status,
        Err(_) => 6,
    }
}

// Returns the result for the arguments.
fn ask(alloc: Global, arguments: &[String]) -> Result<Line, Problem>
    ensures { IsPrinted (IsAsked (map string_bytes arguments.now)) result }
{
    let [command, arguments @ ..] = arguments else {
        return Err(Problem::Usage);
    };
    match command.as_str() {
        "fits" => fits(alloc, arguments, PreRelease::Restricted),
        "fits-pre" => fits(alloc, arguments, PreRelease::Admitted),
        "best" => best(alloc, arguments),
        "normal" => {
            let [parser, requirement] = arguments else {
                return Err(Problem::Usage);
            };
            let Some(flavour) = flavour_of(parser.as_str()) else {
                return Err(Problem::Usage);
            };
            Ok(Line::Text(canonical(alloc, flavour, requirement.as_str())?))
        }
        "meet" => {
            let [one, other] = arguments else {
                return Err(Problem::Usage);
            };
            let overlap = overlaps(alloc, Flavour::Npm, one.as_str(), other.as_str())?;
            Ok(Line::whether(overlap))
        }
        _ => Err(Problem::Usage),
    }
}

// The grammar with this name.
fn flavour_of(name: &str) -> Option<Flavour>
    ensures { MatchOption result (NoParser name.now) (IsParser name.now) }
{
    match name {
        "npm" => Some(Flavour::Npm),
        "normal" => Some(Flavour::Normal),
        "strict" => Some(Flavour::Specifier),
        _ => None,
    }
}

// Whether the version matches the requirement, by the grammar with this name.
fn fits(alloc: Global, arguments: &[String], pre_release: PreRelease) -> Result<Line, Problem>
    ensures { IsPrinted
        (IsAsked (matching_command pre_release ∷ map string_bytes arguments.now)) result }
{
    let [parser, requirement, version] = arguments else {
        return Err(Problem::Usage);
    };
    let Some(flavour) = flavour_of(parser.as_str()) else {
        return Err(Problem::Usage);
    };
    let answer = matches(
        alloc,
        flavour,
        pre_release,
        requirement.as_str(),
        version.as_str(),
    )?;
    let line = match answer {
        Answer::Value(matches) => Line::whether(matches),
        Answer::Tag(tag) => Line::Tag(tag),
    };
    Ok(line)
}

// The highest of the versions that matches the requirement, by the grammar with this name.
fn best(alloc: Global, arguments: &[String]) -> Result<Line, Problem>
    ensures { IsPrinted (IsAsked (codes "best" ∷ map string_bytes arguments.now)) result }
{
    let [parser, requirement, versions @ ..] = arguments else {
        return Err(Problem::Usage);
    };
    if versions.is_empty() {
        return Err(Problem::Usage);
    }
    let Some(flavour) = flavour_of(parser.as_str()) else {
        return Err(Problem::Usage);
    };
    let versions: Vec<&str> = versions.iter().map(|text| text.as_str()).collect(alloc)?;
    let answer = best_match(
        alloc,
        End::Highest,
        flavour,
        PreRelease::Restricted,
        requirement.as_str(),
        versions.as_slice(),
    )?;
    let line = match answer {
        Answer::Value(Some(best)) => Line::Text(text_of_version(alloc, &best.version)?),
        Answer::Value(None) => Line::NoMatch,
        Answer::Tag(tag) => Line::Tag(tag),
    };
    Ok(line)
}

// Reports a problem, and returns its status, which a failure to write doesn't change.
fn report<E: Write>(err: &mut E, problem: &Problem) -> u8
    ensures { result ≡ status_of (reported_problem problem.now) }
{
    let (written, status) = match problem {
        Problem::Usage => (writeln!(err, "{USAGE}"), 4),
        Problem::Unanswered(Unanswered::Invalid(argument)) => {
            (writeln!(err, "refused: {}", argument.failure.message()), 3)
        }
        Problem::Unanswered(Unanswered::OutOfMemory) => (writeln!(err, "out of memory"), 5),
    };
    let _ = written;
    status
}

// What an option that stands alone prints.
fn option_text(arguments: &[String]) -> Option<&'static str> {
    let [option] = arguments else {
        return None;
    };
    match option.as_str() {
        "-h" | "--help" => Some(HELP),
        "-V" | "--version" => Some(VERSION),
        _ => None,
    }
}

fn main(rt: HostRuntime) -> ExitCode {
    let mut out = io::writer(&rt);
    let mut err = rt.stderr();
    let arguments: io::Result<Vec<String>> = env::args(&rt).and_then(|arguments| {
        let arguments = arguments.skip(1).collect(rt.alloc())?;
        Ok(arguments)
    });
    let status = match arguments {
        Ok(arguments) => match option_text(arguments.as_slice()) {
            Some(text) => match writeln!(out, "{text}") {
                Ok(()) => 0,
                Err(_) => 6,
            },
            None => run(rt.alloc(), arguments.as_slice(), &mut out, &mut err),
        },
        Err(e) if e.kind() == ErrorKind::OutOfMemory => {
            report(&mut err, &Problem::Unanswered(Unanswered::OutOfMemory))
        }
        Err(_) => report(&mut err, &Problem::Usage),
    };
    ExitCode::from(status)
}
