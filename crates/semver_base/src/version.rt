//! Versions: parsing, formatting and precedence.

ghost use Rattle.std.specs.Prelude.{◌≡◌, ◌<◌, ◌≤◌, ◌==◌, ◌+◌, ◌∷◌, ◌++◌, ◌&&◌, ◌↔◌, ◌⊎◌, length, drop, refl, Result, Ok, IfOk, IfErr, IfSome, [], None, Some, if◌then◌else◌};
ghost use Rattle.std.specs.Fmt.{DisplaysOnOk, decimal};
ghost use Rattle.std.specs.Str.{trim};
ghost use Rattle.std.specs.Cmp.{IsTotalOrder};
ghost use Rattle.std.specs.Ordering.{as_partial_cmp};
ghost use Rattle.semver_base.specs.Characters.{dot};
ghost use Rattle.semver_base.specs.Failure.{source_of};
ghost use Rattle.semver_base.specs.declared.failure.Rejection.{Rejection};
ghost use Rattle.semver_base.specs.VersionGrammar.{IsVersionAnswer, IsVersionOutcome, IsVersionRejection, version_failure};
ghost use Rattle.semver_base.specs.VersionParserSteps.{IsFittingNumber, IsNumberRejection, IsReadVersion};
ghost use Rattle.semver_base.specs.Meaning.{release};
ghost use Rattle.semver_base.specs.ShortTexts.{IsTripleFront};
ghost use Rattle.semver_base.specs.Precedence.{number_of, pre_cmp, precedence_cmp, qualifiers_cmp, version_cmp};
ghost use Rattle.semver_base.specs.PrecedenceLaws.{version_po, version_ties, version_total, SamePrecedence};
ghost use Rattle.semver_base.specs.VersionText.{ReadsBack, prefixed, version_text};

use crate::failure::{NPM_VERSIONS, ParseFailure, ParserError, Rejection, VERSIONS};
use crate::lexical;
use crate::lexical::values::{Measured, Strictness};
use crate::short::{Numbers, split_numbers};
use crate::string::{CowVec, SmallStackString, StringAppendable};
use itoa::write_digits;
use std::alloc::{AllocError, Global};
use std::cmp::Ordering;
use std::fmt;
use std::str::from_utf8_unchecked;

/// An identifier of a pre-release or a build.
pub type VersionPreOrBuild = SmallStackString;

/// Why a text isn't a version, which may be out of memory.
pub type VersionParseError = ParserError<VERSIONS>;

/// Why a text isn't a version of npm's, which may be out of memory.
pub type NpmVersionParseError = ParserError<NPM_VERSIONS>;

/// A SemVer 2.0.0 version: three numbers, and the identifiers of its pre-release and its build, either of which may be empty.
///
/// Versions are equal if all of this is. They are ordered by precedence, and where that ties by the dictionary order of their
/// builds.
#[derive(Debug, PartialEq, Eq, Hash, Drop)]
pub struct Version {
    pub major: u64,
    pub minor: u64,
    pub patch: u64,
    pub pre: CowVec<VersionPreOrBuild>,
    pub build: CowVec<VersionPreOrBuild>,
}

impl Version {
    /// The version 0.0.0.
    pub fn new(alloc: Global) -> Version
        ensures { result ≡ record { major = 0; minor = 0; patch = 0; pre = []; build = [] } }
    {
        Version {
            major: 0,
            minor: 0,
            patch: 0,
            pre: CowVec::new(alloc),
            build: CowVec::new(alloc),
        }
    }

    /// Parses a version: an optional `=` and an optional `v`, each with optional whitespace after it, three numbers with `.`
    /// between them, an optional pre-release and an optional build, with optional whitespace around it all (SemVer 2.0.0,
    /// section 2, in node-semver's loose form).
    ///
    /// The leftmost fault decides the error: a number larger than 18446744073709551615, a missing `.` after the first or the
    /// second number, whose snippet is the whole trimmed text, or anything else outside the grammar. Also fails out of
    /// memory.
    ///
    /// A parsed version's text parses to that version again, build included.
    #[inline(always)]
    pub fn parse_standard(alloc: Global, text: &str) -> Result<Version, VersionParseError>
        ensures read { IfOk result (λ version. IsVersionOutcome (trim text.now) (Ok version)) }
        ensures reads_back { IfOk result ReadsBack }
        ensures rejected { IfErr result (λ error. IsVersionRejection (trim text.now) error.source) }
        ensures answer { (outcome : Result Version Rejection)
            → IsVersionOutcome (trim text.now) outcome
            → IsVersionAnswer source_of (trim text.now) outcome result }
    {
        let read = match split_numbers(text) {
            Some((numbers, rest)) if rest.is_empty() => {
                return Ok(release(alloc, numbers.major, numbers.minor, numbers.patch));
            }
            Some((numbers, rest)) => {
                let Numbers {
                    major,
                    minor,
                    patch,
                } = numbers;
                read_on(alloc, text, major, minor, patch, rest)
            }
            None => read(alloc, text.trim()),
        };
        match read {
            Ok(version) => Ok(version),
            Err(source) => Err(ParserError { source }),
        }
    }

    /// Parses a version as npm does, by the rules of [`Version::parse_standard`], which lists each error.
    pub fn parse_from_npm(alloc: Global, text: &str) -> Result<Version, NpmVersionParseError>
        ensures read { IfOk result (λ version. IsVersionOutcome (trim text.now) (Ok version)) }
        ensures reads_back { IfOk result ReadsBack }
        ensures rejected { IfErr result (λ error. IsVersionRejection (trim text.now) error.source) }
        ensures answer { (outcome : Result Version Rejection)
            → IsVersionOutcome (trim text.now) outcome
            → IsVersionAnswer source_of (trim text.now) outcome result }
    {
        match Version::parse_standard(alloc, text) {
            Ok(version) => Ok(version),
            Err(error) => Err(ParserError {
                source: error.source,
            }),
        }
    }

    /// Returns a copy. Fails only out of memory.
    pub fn copy(&self) -> Result<Version, AllocError>
        ensures { IfOk result (λ v. v ≡ self.now) }
    {
        Ok(Version {
            major: self.major,
            minor: self.minor,
            patch: self.patch,
            pre: self.pre.copy()?,
            build: self.build.copy()?,
        })
    }

    /// Compares by precedence, which ignores the build (SemVer 2.0.0, section 11). Numeric identifiers of the same value are
    /// ordered by their text, and digits above 18446744073709551615 compare as text.
    #[tactic(auto, using(crate::specs::PrecedenceLaws::precedence_total))]
    #[inline(always)]
    pub fn cmp_precedence(&self, other: &Version) -> Ordering
        ensures value { result ≡ precedence_cmp self.now other.now }
        ensures equal { (result ≡ Ordering.Equal) ↔ SamePrecedence self.now other.now }
        ensures total { IsTotalOrder precedence_cmp }
    {
        // By the first number that differs, and by pre-releases only if all three tie.
        if self.major != other.major {
            self.major.cmp(&other.major)
        } else if self.minor != other.minor {
            self.minor.cmp(&other.minor)
        } else if self.patch != other.patch {
            self.patch.cmp(&other.patch)
        } else {
            cmp_pre(&self.pre, &other.pre)
        }
    }

    // Whether the first number that differs is above the other's; `None` if all three tie. Usually one differs, and then the
    // kind of a bound doesn't matter.
    #[inline(always)]
    pub(crate) fn is_above_by_numbers(&self, other: &Version) -> Option<bool>
        ensures { IfSome result (λ is_above. precedence_cmp self.now other.now
            ≡ (if is_above then Ordering.Greater else Ordering.Less)) }
    {
        if self.major != other.major {
            return Some(self.major > other.major);
        }
        if self.minor != other.minor {
            return Some(self.minor > other.minor);
        }
        if self.patch != other.patch {
            return Some(self.patch > other.patch);
        }
        None
    }
}

/// Creates the release of these numbers, without a pre-release or a build.
#[inline(always)]
pub fn release(alloc: Global, major: u64, minor: u64, patch: u64) -> Version
    ensures { result ≡ release major minor patch }
{
    Version {
        major,
        minor,
        patch,
        pre: CowVec::new(alloc),
        build: CowVec::new(alloc),
    }
}

// Parses a leading number that fits.
#[inline(always)]
fn fitting_number(text: &str) -> Result<(u64, &str), Rejection>
    ensures read { IfOk result (λ r. IsFittingNumber text.now r.0 r.1.now) }
    ensures rejected { IfErr result (IsNumberRejection text.now) }
{
    match lexical::loose_number(text) {
        None => Err(Rejection::UnexpectedCharacter),
        Some((Measured::TooLarge, _)) => Err(Rejection::NumberTooLarge),
        Some((Measured::Fits(number), rest)) => Ok((number, rest)),
    }
}

// The failure of an invalid version text.
fn failure(alloc: Global, rejection: Rejection, text: &str) -> ParseFailure
    ensures { (result ≡ None) ⊎ (result ≡ version_failure rejection text.now) }
{
    let snippet = match rejection {
        Rejection::MissingMinor | Rejection::MissingPatch => Some(text),
        _ => None,
    };
    ParseFailure::with_texts(alloc, rejection.message(), snippet)
}

// Parses the rest of a version after these three numbers.
#[inline(never)]
fn read_on(
    alloc: Global,
    text: &str,
    major: u64,
    minor: u64,
    patch: u64,
    rest: &str,
) -> Result<Version, ParseFailure>
    requires { IsTripleFront text.now major minor patch rest.now }
    ensures read { IfOk result (IsReadVersion (trim text.now)) }
    ensures rejected { IfErr result (IsVersionRejection (trim text.now)) }
{
    let (qualifier, rest) = lexical::qualifier(alloc, rest, Strictness::Loose)?;
    if rest.is_empty() {
        return Ok(Version {
            major,
            minor,
            patch,
            pre: qualifier.pre,
            build: qualifier.build,
        });
    }
    drop(qualifier);
    read(alloc, text.trim())
}

// Parses the version of a trimmed text.
#[inline(never)]
fn read(alloc: Global, text: &str) -> Result<Version, ParseFailure>
    ensures read { IfOk result (IsReadVersion text.now) }
    ensures rejected { IfErr result (IsVersionRejection text.now) }
{
    // The lead is an optional `=` and an optional `v`, each with optional whitespace after it.
    let unsigned = lexical::after_whitespace(lexical::after(text, '=').unwrap_or(text));
    let bare = lexical::after(unsigned, 'v').map_or(unsigned, lexical::after_whitespace);
    let (major, rest) = fitting_number(bare).map_err(|rejection| failure(alloc, rejection, text))?;
    let Some(rest) = lexical::after(rest, '.') else {
        return Err(failure(alloc, Rejection::MissingMinor, text));
    };
    let (minor, rest) = fitting_number(rest).map_err(|rejection| failure(alloc, rejection, text))?;
    let Some(rest) = lexical::after(rest, '.') else {
        return Err(failure(alloc, Rejection::MissingPatch, text));
    };
    let (patch, rest) = fitting_number(rest).map_err(|rejection| failure(alloc, rejection, text))?;
    let (qualifier, rest) = lexical::qualifier(alloc, rest, Strictness::Loose)?;
    if !rest.is_empty() {
        return Err(failure(alloc, Rejection::UnexpectedCharacter, text));
    }
    Ok(Version {
        major,
        minor,
        patch,
        pre: qualifier.pre,
        build: qualifier.build,
    })
}

// The number that an identifier is, if it is one. Its leading zeros but the last are skipped in constant time, so that a
// number with many zeros compares fast.
pub(crate) fn number(identifier: &VersionPreOrBuild) -> Option<u64>
    ensures { result ≡ number_of identifier.now }
{
    let spare = identifier.leading_zeros().saturating_sub(1);
    let (_, digits) = identifier.as_str().split_at(spare);
    digits.parse::<u64>().ok()
}

// Compares pre-releases. Emptiness is known without following the list's pointer.
#[inline(never)]
pub(crate) fn cmp_pre(a: &CowVec<VersionPreOrBuild>, b: &CowVec<VersionPreOrBuild>) -> Ordering
    ensures { result ≡ pre_cmp a.now b.now }
{
    if a.is_empty() {
        return if b.is_empty() {
            Ordering::Equal
        } else {
            Ordering::Greater
        };
    }
    if b.is_empty() {
        return Ordering::Less;
    }
    let (a, b) = (a.as_slice(), b.as_slice());
    for (x, y) in a.iter().zip(b) {
        if x == y {
            continue;
        }
        let ordering = match (number(x), number(y)) {
            (Some(m), Some(n)) => m.cmp(&n).then_with(|| x.cmp(y)),
            (Some(_), None) => Ordering::Less,
            (None, Some(_)) => Ordering::Greater,
            (None, None) => x.cmp(y),
        };
        if ordering != Ordering::Equal {
            return ordering;
        }
    }
    a.len().cmp(&b.len())
}

// Whether the version has neither a pre-release nor a build.
#[inline(always)]
pub(crate) fn is_unqualified(version: &Version) -> bool
    ensures { result ≡ ((length version.now.pre == 0) && (length version.now.build == 0)) }
{
    version.pre.is_empty() & version.build.is_empty()
}

// Compares the pre-releases, and if they tie the builds.
#[inline(never)]
fn cmp_lists(a: &Version, b: &Version) -> Ordering
    ensures { result ≡ qualifiers_cmp a.now b.now }
{
    match cmp_pre(&a.pre, &b.pre) {
        Ordering::Equal => a.build.as_slice().cmp(b.build.as_slice()),
        unequal => unequal,
    }
}

// Compares the same way. Usually at most one version has a pre-release and none has a build; then nothing is called, and no
// branch is taken that a sort can't predict.
#[inline(never)]
fn cmp_qualifiers(a: &Version, b: &Version) -> Ordering
    ensures { result ≡ qualifiers_cmp a.now b.now }
{
    let both_or_build = !(a.pre.is_empty() | b.pre.is_empty())
        | !(a.build.is_empty() & b.build.is_empty());
    if both_or_build {
        return cmp_lists(a, b);
    }
    a.pre.is_empty().cmp(&b.pre.is_empty())
}

// Writes the identifiers, the prefix before the first and a `.` before each other one.
fn write_prefixed<W: fmt::Write>(
    f: &mut fmt::Formatter<W>,
    prefix: char,
    identifiers: &[VersionPreOrBuild],
) -> fmt::Result
    requires { prefix < 128 }
    ensures { DisplaysOnOk W.write_str_gives f.old result
        (Some (prefixed prefix identifiers.now)) f.new }
{
    let mut separator = prefix;
    for identifier in identifiers {
        f.write_char(separator)?;
        f.write_str(identifier.as_str())?;
        separator = '.';
    }
    Ok(())
}

// The room for three numbers of at most 20 digits and two dots.
const DOTTED_ROOM: usize = 62;

// Writes the number and a `.` so that they end at `end`, and returns where the number begins.
#[inline(always)]
fn put_before(number: u64, bytes: &mut [u8], end: usize) -> usize
    requires low { 21 ≤ end }
    requires high { end ≤ length bytes.old }
    ensures start { end ≤ result + 21 }
    ensures within { result ≤ end }
    ensures written { drop result bytes.new ≡ decimal number ++ (dot ∷ drop end bytes.old) }
{
    bytes[end - 1] = b'.';
    write_digits(number, bytes, end - 1)
}

/// Writes `M.m.p`, then `-` and the pre-release if any, then `+` and the build if any, with `.` between identifiers (SemVer
/// 2.0.0, sections 2, 9 and 10).
impl fmt::Display for Version {
    ghost output = { λ version. Some (version_text version) };

    fn fmt<W: fmt::Write>(&self, f: &mut fmt::Formatter<W>) -> fmt::Result {
        // The three numbers are put together from the end, and written at once.
        let mut room = [0; DOTTED_ROOM];
        let (major, minor, patch) = (self.major, self.minor, self.patch);
        let bytes = &mut room[..];
        let start = write_digits(patch, bytes, DOTTED_ROOM);
        let start = put_before(minor, bytes, start);
        let start = put_before(major, bytes, start);
        let bytes = &room[..];
        f.write_str(unsafe { from_utf8_unchecked(&bytes[start..]) })?;
        if is_unqualified(self) {
            return Ok(());
        }
        write_prefixed(f, '-', self.pre.as_slice())?;
        write_prefixed(f, '+', self.build.as_slice())
    }
}

impl StringAppendable for Version {
    ghost text = { version_text };

    ghost displays = { λ x. refl };
}

impl PartialOrd for Version {
    ghost partial_cmp = { as_partial_cmp version_cmp };

    ghost laws = { version_po };

    fn partial_cmp(&self, other: &Version) -> Option<Ordering> {
        Some(self.cmp(other))
    }
}

impl Ord for Version {
    ghost cmp = { version_cmp };

    ghost total = { version_total };

    ghost matches_partial_cmp = { λ a b. refl };

    ghost matches_eq = { version_ties };

    fn cmp(&self, other: &Version) -> Ordering {
        // The other's numbers are subtracted with borrow, from the last on. One pass finds whether these are below them and
        // whether they tie, without the branches that a sort can't predict.
        let (patch, lacks) = self.patch.borrowing_sub(other.patch, false);
        let (minor, lacks) = self.minor.borrowing_sub(other.minor, lacks);
        let (major, is_below) = self.major.borrowing_sub(other.major, lacks);
        // Summed, so that the compiler emits a single test.
        let numbers = if major as u128 + minor as u128 + patch as u128 == 0 {
            Ordering::Equal
        } else if is_below {
            Ordering::Less
        } else {
            Ordering::Greater
        };
        if numbers != Ordering::Equal {
            return numbers;
        }
        cmp_qualifiers(self, other)
    }
}
