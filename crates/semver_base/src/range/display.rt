//! Formatting of ranges and range sets.

ghost use Rattle.std.specs.Prelude.{◌≡◌, ◌+◌, ◌++◌, ◌==◌, Some, refl};
ghost use Rattle.std.specs.Fmt.{DisplaysOnOk};
ghost use Rattle.semver_base.specs.Forms.{form_comparators};
ghost use Rattle.semver_base.specs.NormalText.{comparator_text, range_text, set_text};
ghost use Rattle.semver_base.specs.Shortest.{ending, is_release_of, shortest_between, starting};
ghost use Rattle.semver_base.specs.VersionText.{version_text};

use crate::range::{RangeBound, VersionBound, VersionBoundKind, VersionRange, VersionRangeSet};
use crate::string::StringAppendable;
use crate::version::{Version, is_unqualified};
use std::fmt;

// How a range with both bounds is formatted.
#[derive(Clone, Copy)]
enum Form {
    // The version that is both bounds.
    Whole,
    // The start's major number.
    Major,
    // The start's major and minor number.
    Minor,
    // `~` and the start.
    Tilde,
    // `^` and the start.
    Caret,
    // The end with its operator.
    End,
    // Both bounds with their operators.
    Both,
}

// Whether the version has these numbers, and neither a pre-release nor a build.
fn is_release_of(version: &Version, major: u64, minor: u64, patch: u64) -> bool
    ensures { result ≡ is_release_of version.now major minor patch }
{
    version.major == major
        && version.minor == minor
        && version.patch == patch
        && is_unqualified(version)
}

// Whether `next` is the number after `number`. Nothing follows 18446744073709551615.
fn is_next(number: u64, next: u64) -> bool
    ensures { result ≡ (next == number + 1) }
{
    number.checked_add(1) == Some(next)
}

// Whether `end` is the first release of the next major number after that of `start`.
fn is_next_major(start: &Version, end: &Version) -> bool
    ensures { result ≡ is_release_of end.now (start.now.major + 1) 0 0 }
{
    is_next(start.major, end.major) && end.minor == 0 && end.patch == 0 && is_unqualified(end)
}

// Whether `end` is the first release of the next minor number after that of `start`.
fn is_next_minor(start: &Version, end: &Version) -> bool
    ensures { result ≡ is_release_of end.now start.now.major (start.now.minor + 1) 0 }
{
    end.major == start.major
        && is_next(start.minor, end.minor)
        && end.patch == 0
        && is_unqualified(end)
}

// The first form that fits between two bounds.
fn form_between(start: &VersionBound, end: &VersionBound) -> Form
    ensures { shortest_between start.now.kind end.now.kind start.now.version end.now.version
        ≡ form_comparators result start.now.kind end.now.kind start.now.version end.now.version }
{
    let kinds = (start.kind, end.kind);
    let (start, end) = (&start.version, &end.version);
    match kinds {
        (VersionBoundKind::Inclusive, VersionBoundKind::Inclusive) => {
            if start == end {
                return Form::Whole;
            }
        }
        (VersionBoundKind::Inclusive, VersionBoundKind::Exclusive) => {
            if is_release_of(start, start.major, 0, 0) && is_next_major(start, end) {
                return Form::Major;
            }
            if is_release_of(start, start.major, start.minor, 0) && is_next_minor(start, end) {
                return Form::Minor;
            }
            if is_next_minor(start, end) {
                return Form::Tilde;
            }
            let is_next_patch = start.major == 0
                && start.minor == 0
                && is_next(start.patch, end.patch)
                && is_release_of(end, 0, 0, end.patch);
            if is_next_patch || start.major > 0 && is_next_major(start, end) {
                return Form::Caret;
            }
        }
        (VersionBoundKind::Exclusive, _) => return Form::Both,
    }
    if is_release_of(start, 0, 0, 0) {
        return Form::End;
    }
    Form::Both
}

// Writes the lead and the version.
#[inline(always)]
fn write_led<W: fmt::Write>(f: &mut fmt::Formatter<W>, lead: &str, version: &Version) -> fmt::Result
    ensures { DisplaysOnOk W.write_str_gives f.old result
        (Some (lead.now ++ version_text version.now)) f.new }
{
    f.write_str(lead)?;
    fmt::Display::fmt(version, f)
}

// Writes `>=` or `>` and the version.
fn write_start<W: fmt::Write>(f: &mut fmt::Formatter<W>, start: &VersionBound) -> fmt::Result
    ensures { DisplaysOnOk W.write_str_gives f.old result
        (Some (comparator_text (starting start.now.kind start.now.version))) f.new }
{
    let version = &start.version;
    match start.kind {
        VersionBoundKind::Inclusive => write_led(f, ">=", version),
        VersionBoundKind::Exclusive => write_led(f, ">", version),
    }
}

// Writes `<=` or `<` and the version.
fn write_end<W: fmt::Write>(f: &mut fmt::Formatter<W>, end: &VersionBound) -> fmt::Result
    ensures { DisplaysOnOk W.write_str_gives f.old result
        (Some (comparator_text (ending end.now.kind end.now.version))) f.new }
{
    let version = &end.version;
    match end.kind {
        VersionBoundKind::Inclusive => write_led(f, "<=", version),
        VersionBoundKind::Exclusive => write_led(f, "<", version),
    }
}

/// Writes the shortest usual form of the range: the first row of this table that fits, where `s` and `e` are the texts of the
/// start's and the end's version. `s` and `e` are plain if they have neither a pre-release nor a build.
///
/// | Range | Text |
/// |---|---|
/// | no bounds | `*` |
/// | no start | `<=e` or `<e` |
/// | no end | `>=s` or `>s` |
/// | from a version to itself, builds included | `s` |
/// | from plain `M.0.0` to below plain `(M+1).0.0` | `M` |
/// | from plain `M.m.0` to below plain `M.(m+1).0` | `M.m` |
/// | from `M.m.p` to below plain `M.(m+1).0` | `~s` |
/// | from `0.0.p` to below plain `0.0.(p+1)` | `^s` |
/// | from `M.m.p`, `M` above 0, to below plain `(M+1).0.0` | `^s` |
/// | from plain `0.0.0` | `<=e` or `<e` |
/// | any other | `>=s` or `>s`, a space, and `<=e` or `<e` |
///
/// The forms are those of node-semver's "Advanced Range Syntax"; the choice among them is `deno_semver`'s own.
impl fmt::Display for VersionRange {
    ghost output = { λ range. Some (range_text range) };

    fn fmt<W: fmt::Write>(&self, f: &mut fmt::Formatter<W>) -> fmt::Result {
        let (start, end) = match (&self.start, &self.end) {
            (RangeBound::Unbounded, RangeBound::Unbounded) => return f.write_str("*"),
            (RangeBound::Unbounded, RangeBound::Version(end)) => return write_end(f, end),
            (RangeBound::Version(start), RangeBound::Unbounded) => return write_start(f, start),
            (RangeBound::Version(start), RangeBound::Version(end)) => (start, end),
        };
        let version = &start.version;
        let (major, minor) = (version.major, version.minor);
        match form_between(start, end) {
            Form::Whole => fmt::Display::fmt(version, f),
            Form::Major => write!(f, "{major}"),
            Form::Minor => write!(f, "{major}.{minor}"),
            Form::Tilde => write_led(f, "~", version),
            Form::Caret => write_led(f, "^", version),
            Form::End => write_end(f, end),
            Form::Both => {
                write_start(f, start)?;
                f.write_str(" ")?;
                write_end(f, end)
            }
        }
    }
}

impl StringAppendable for VersionRange {
    ghost text = { range_text };

    ghost displays = { λ x. refl };
}

/// Writes the ranges with ` || ` between them (node-semver, ranges joined by `||`), or `<0.0.0`, which no release matches, if
/// there are none.
impl fmt::Display for VersionRangeSet {
    ghost output = { λ set. Some (set_text set.0) };

    fn fmt<W: fmt::Write>(&self, f: &mut fmt::Formatter<W>) -> fmt::Result {
        let Some((first, others)) = self.0.as_slice().split_first() else {
            return f.write_str("<0.0.0");
        };
        fmt::Display::fmt(first, f)?;
        for range in others {
            write!(f, " || {range}")?;
        }
        Ok(())
    }
}

impl StringAppendable for VersionRangeSet {
    ghost text = { λ set. set_text set.0 };

    ghost displays = { λ x. refl };
}
