//! The version that a string holds, as node-semver's `coerce` has it.

ghost use Rattle.std.specs.Prelude.{◌≡◌, ◌<◌, IfOk, Option, Some, drop, false, length};
ghost use Rattle.std.specs.Option.{option_map};
ghost use Rattle.node_semver.specs.Coerce.{IsCoerced, IsPicked, dotted_number, leading_number, leading_release, next_number};
ghost use Rattle.node_semver.specs.CoerceSteps.{IsLeading, IsRunAt, ending_last};
ghost use Rattle.node_semver.specs.declared.coerce.Direction.TheVariants as direction;

use semver_base::lexical;
use semver_base::lexical::values::Strictness;
use semver_base::version::{Version, release};
use std::alloc::{AllocError, Global};
use std::str;

/// From which end of a string its version is found.
#[derive(Clone, Copy, Debug, PartialEq, Eq)]
pub enum Direction {
    /// The first one.
    LeftToRight,
    /// The one that ends last (node-semver's `rtl`).
    RightToLeft,
}

/// Which parts of a version are taken.
#[derive(Clone, Copy, Debug, PartialEq, Eq)]
pub enum Parts {
    /// Its three numbers.
    Numbers,
    /// Its pre-release and its build, too (node-semver's `includePrerelease`).
    All,
}

// A version in a text.
#[derive(Drop)]
struct Run {
    version: Version,
    // The number of bytes behind it.
    behind: usize,
}

// The number that the text begins with, if it fits, and the text behind it.
fn leading_number(text: &[u8]) -> Option<(u64, &[u8])>
    ensures { option_map (λ r. (r.0, r.1.now)) result ≡ leading_number text.now }
{
    let len = text.iter().take_while(|b| b.is_ascii_digit()).count();
    let number = str::from_utf8(&text[..len]).ok()?.parse::<u64>().ok()?;
    Some((number, &text[len..]))
}

// The number behind a leading dot.
fn dotted_number(text: &[u8]) -> Option<(u64, &[u8])>
    ensures { option_map (λ r. (r.0, r.1.now)) result ≡ dotted_number text.now }
{
    match text {
        [b'.', rest @ ..] => leading_number(rest),
        _ => None,
    }
}

// The next number, which is 0 if it is missing.
fn next_number(text: &[u8]) -> (u64, &[u8])
    ensures { (result.0, result.1.now) ≡ next_number text.now }
{
    dotted_number(text).unwrap_or((0, text))
}

// The release of the numbers that the text begins with, and the text behind them.
fn leading_release(alloc: Global, text: &[u8]) -> Option<(Version, &[u8])>
    ensures { option_map (λ r. (r.0, r.1.now)) result ≡ leading_release text.now }
{
    let (major, rest) = leading_number(text)?;
    let (minor, rest) = next_number(rest);
    let (patch, rest) = next_number(rest);
    Some((release(alloc, major, minor, patch), rest))
}

// The version that the text begins with.
fn leading_run(alloc: Global, parts: Parts, text: &str) -> Result<Option<Run>, AllocError>
    ensures { IfOk result (IsLeading parts text.now) }
{
    let Some((version, rest)) = leading_release(alloc, text.as_bytes()) else {
        return Ok(None);
    };
    match parts {
        Parts::Numbers => {
            let behind = rest.len();
            Ok(Some(Run { version, behind }))
        }
        Parts::All => {
            let place = text.len() - rest.len();
            let (qualifier, rest) = lexical::qualifier(alloc, &text[place..], Strictness::Strict)?;
            let version = Version {
                major: version.major,
                minor: version.minor,
                patch: version.patch,
                pre: qualifier.pre,
                build: qualifier.build,
            };
            let behind = rest.len();
            Ok(Some(Run { version, behind }))
        }
    }
}

// The version that begins at a place, unless a digit comes before it.
fn run_at(
    alloc: Global,
    parts: Parts,
    after_digit: bool,
    text: &str,
    place: usize,
) -> Result<Option<Run>, AllocError>
    requires { place < length text.now }
    ensures { IfOk result (IsRunAt parts after_digit (drop place text.now)) }
{
    if after_digit || !text.as_bytes()[place].is_ascii_digit() {
        return Ok(None);
    }
    leading_run(alloc, parts, &text[place..])
}

// The first version.
fn first_run(alloc: Global, parts: Parts, text: &str) -> Result<Option<Run>, AllocError>
    ensures { IfOk result (IsPicked direction.LeftToRight parts false text.now) }
{
    let mut after_digit = false;
    for (place, byte) in text.as_bytes().iter().enumerate() {
        if let Some(run) = run_at(alloc, parts, after_digit, text, place)? {
            return Ok(Some(run));
        }
        after_digit = byte.is_ascii_digit();
    }
    Ok(None)
}

// Of two versions the one that ends last; of those that end together the first.
fn ending_last(first: Option<Run>, later: Run) -> Option<Run>
    ensures { result ≡ ending_last first (Some later) }
{
    match first {
        Some(first) if later.behind >= first.behind => Some(first),
        _ => Some(later),
    }
}

// The version that ends last, of several that end there the first.
fn last_run(alloc: Global, parts: Parts, text: &str) -> Result<Option<Run>, AllocError>
    ensures { IfOk result (IsPicked direction.RightToLeft parts false text.now) }
{
    let mut last = None;
    let mut after_digit = false;
    for (place, byte) in text.as_bytes().iter().enumerate() {
        if let Some(run) = run_at(alloc, parts, after_digit, text, place)? {
            last = ending_last(last, run);
        }
        after_digit = byte.is_ascii_digit();
    }
    Ok(last)
}

/// Returns the version that a string holds: one to three numbers with a `.` between neighbours, of which those that are
/// missing are 0, and with `Parts::All` the pre-release and the build behind them. From the left it is the first that there is,
/// and from the right the one that ends last. A number may have leading zeros; one above 18446744073709551615 belongs to no
/// version.
///
/// Fails only out of memory.
pub fn coerce(
    alloc: Global,
    text: &str,
    direction: Direction,
    parts: Parts,
) -> Result<Option<Version>, AllocError>
    ensures found { IfOk result (IsCoerced direction parts text.now) }
    ensures only { IfOk result (λ found. (other : Option Version)
        → IsCoerced direction parts text.now other → other ≡ found) }
{
    let run = match direction {
        Direction::LeftToRight => first_run(alloc, parts, text),
        Direction::RightToLeft => last_run(alloc, parts, text),
    };
    Ok(run?.map(|run| run.version))
}
