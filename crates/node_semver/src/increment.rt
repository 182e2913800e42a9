//! The version that comes next, as node-semver's `inc` has it.

ghost use Rattle.std.specs.Prelude.{◌≡◌, ◌<◌, ◌++◌, IfErr, IfOk, OnOk, Ok, Some, codes, decimal, length};
ghost use Rattle.semver_base.specs.Meaning.{release};
ghost use Rattle.semver_base.specs.Precedence.{number_of};
ghost use Rattle.node_semver.specs.Increment.{IsRefused, another, counted, error_message, first_number, first_of, first_pre, incremented, is_counted, last_number, next_major, next_minor, next_number, next_patch, next_pre, refusal_message, release_of, stem, with_identifier};
ghost use Rattle.node_semver.specs.declared.increment.IncrementError.TheVariants as failed;

use crate::release_type::ReleaseType;
use semver_base::string::{CowVec, SmallStackString};
use semver_base::version::{Version, VersionPreOrBuild, release};
use std::alloc::{AllocError, Global};
use std::error::Error;
use std::fmt;

/// The number behind the identifiers of a first pre-release.
#[derive(Clone, Copy, Debug, PartialEq, Eq)]
pub enum Base {
    Zero,
    One,
    /// None, so that `-beta` comes before `-beta.0`.
    Nothing,
}

/// Why there is no next version, other than out of memory.
#[derive(Clone, Copy, Debug, PartialEq, Eq)]
pub enum Refusal {
    /// A number would be larger than 18446744073709551615.
    NumberTooLarge,
    /// A release has no release that comes next.
    NotPreRelease,
    /// A pre-release would have neither an identifier nor a number.
    NothingToBegin,
    /// The version has the pre-release that would come next.
    SamePreRelease,
}

impl Refusal {
    /// The error message.
    pub fn message(self) -> &'static str
        ensures { result.now ≡ refusal_message self }
    {
        match self {
            Refusal::NumberTooLarge => "A number would be larger than 18446744073709551615.",
            Refusal::NotPreRelease => "The version is a release already.",
            Refusal::NothingToBegin => "A pre-release needs an identifier or a number.",
            Refusal::SamePreRelease => "The version has this pre-release already.",
        }
    }
}

/// Why [`increment`] returns no version.
#[derive(Clone, Copy, Debug, PartialEq, Eq)]
pub enum IncrementError {
    Refused(Refusal),
    OutOfMemory,
}

impl From<Refusal> for IncrementError {
    ghost from_gives = { λ why error. error ≡ failed.Refused why };

    fn from(why: Refusal) -> IncrementError {
        IncrementError::Refused(why)
    }
}

impl From<AllocError> for IncrementError {
    ghost from_gives = { λ _ error. error ≡ failed.OutOfMemory };

    fn from(_error: AllocError) -> IncrementError {
        IncrementError::OutOfMemory
    }
}

impl fmt::Display for IncrementError {
    ghost output = { λ error. Some (error_message error) };

    fn fmt<W: fmt::Write>(&self, f: &mut fmt::Formatter<W>) -> fmt::Result {
        match self {
            IncrementError::Refused(why) => f.write_str(why.message()),
            IncrementError::OutOfMemory => f.write_str("Out of memory."),
        }
    }
}

impl Error for IncrementError {}

// The next number.
fn next_number(number: u64) -> Result<u64, Refusal>
    ensures { result ≡ next_number number }
{
    number.checked_add(1).ok_or(Refusal::NumberTooLarge)
}

// ---- releases

fn next_major(alloc: Global, version: &Version) -> Result<Version, Refusal>
    ensures { result ≡ next_major version.now }
{
    Ok(release(alloc, next_number(version.major)?, 0, 0))
}

fn next_minor(alloc: Global, version: &Version) -> Result<Version, Refusal>
    ensures { result ≡ next_minor version.now }
{
    Ok(release(alloc, version.major, next_number(version.minor)?, 0))
}

fn next_patch(alloc: Global, version: &Version) -> Result<Version, Refusal>
    ensures { result ≡ next_patch version.now }
{
    let patch = next_number(version.patch)?;
    Ok(release(alloc, version.major, version.minor, patch))
}

fn release_of(alloc: Global, version: &Version) -> Version
    ensures { result ≡ release_of version.now }
{
    release(alloc, version.major, version.minor, version.patch)
}

// ---- pre-releases

// Appends the number behind the identifiers of a first pre-release.
fn push_first(
    alloc: Global,
    identifiers: &mut CowVec<VersionPreOrBuild>,
    base: Base,
) -> Result<(), AllocError>
    ensures { OnOk result (identifiers.new ≡ identifiers.old ++ first_number base) }
{
    let number = match base {
        Base::Zero => "0",
        Base::One => "1",
        Base::Nothing => return Ok(()),
    };
    identifiers.push(SmallStackString::from_str(alloc, number)?)
}

// A first pre-release.
fn first_pre(
    alloc: Global,
    identifiers: &CowVec<VersionPreOrBuild>,
    base: Base,
) -> Result<CowVec<VersionPreOrBuild>, IncrementError>
    ensures value { IfOk result (λ pre. first_pre identifiers.now base ≡ Ok pre) }
    ensures refused { IfErr result (IsRefused (first_pre identifiers.now base)) }
{
    if identifiers.is_empty() && base == Base::Nothing {
        return Err(IncrementError::Refused(Refusal::NothingToBegin));
    }
    let mut pre = identifiers.copy()?;
    push_first(alloc, &mut pre, base)?;
    Ok(pre)
}

// The number that an identifier is, if it is one.
fn number_of(identifier: &VersionPreOrBuild) -> Option<u64>
    ensures { result ≡ number_of identifier.now }
{
    identifier.as_str().parse::<u64>().ok()
}

// The place and the value of the last identifier that is a number.
fn last_number(identifiers: &[VersionPreOrBuild]) -> Option<(usize, u64)>
    ensures { result ≡ last_number 0 identifiers.now }
{
    let mut last = None;
    for (place, identifier) in identifiers.iter().enumerate() {
        if let Some(number) = number_of(identifier) {
            last = Some((place, number));
        }
    }
    last
}

// Appends copies of identifiers.
fn push_all(
    pre: &mut CowVec<VersionPreOrBuild>,
    identifiers: &[VersionPreOrBuild],
) -> Result<(), AllocError>
    ensures { OnOk result (pre.new ≡ pre.old ++ identifiers.now) }
{
    for identifier in identifiers {
        pre.push(identifier.copy()?)?;
    }
    Ok(())
}

// The identifiers, with this number at a place.
fn with_number(
    alloc: Global,
    identifiers: &[VersionPreOrBuild],
    place: usize,
    number: u64,
) -> Result<CowVec<VersionPreOrBuild>, AllocError>
    requires { place < length identifiers.now }
    ensures { IfOk result (λ pre. pre ≡ with_identifier identifiers.now place (decimal number)) }
{
    let mut pre = CowVec::new(alloc);
    push_all(&mut pre, &identifiers[..place])?;
    let digits = format!(in alloc; "{number}")?;
    pre.push(SmallStackString::from_string(alloc, digits)?)?;
    push_all(&mut pre, &identifiers[place + 1..])?;
    Ok(pre)
}

// Whether a pre-release begins with the identifiers, and goes on with a number.
fn is_counted(identifiers: &[VersionPreOrBuild], pre: &[VersionPreOrBuild]) -> bool
    ensures { result ≡ is_counted identifiers.now pre.now }
{
    match pre.strip_prefix(identifiers) {
        Some([next, ..]) => number_of(next).is_some(),
        _ => false,
    }
}

// The number of a pre-release that is raised.
fn counted(identifiers: &[VersionPreOrBuild], pre: &[VersionPreOrBuild]) -> Option<(usize, u64)>
    ensures { result ≡ counted identifiers.now pre.now }
{
    if identifiers.is_empty() || is_counted(identifiers, pre) {
        last_number(pre)
    } else {
        None
    }
}

// The next pre-release of one.
fn next_pre(
    alloc: Global,
    identifiers: &CowVec<VersionPreOrBuild>,
    base: Base,
    pre: &CowVec<VersionPreOrBuild>,
) -> Result<CowVec<VersionPreOrBuild>, IncrementError>
    ensures value { IfOk result (λ next. next_pre identifiers.now base pre.now ≡ Ok next) }
    ensures refused { IfErr result (IsRefused (next_pre identifiers.now base pre.now)) }
{
    let first = first_pre(alloc, identifiers, base)?;
    let listed = pre.iter().as_slice();
    if let Some((place, number)) = counted(identifiers.iter().as_slice(), listed) {
        let number = next_number(number)?;
        return Ok(with_number(alloc, listed, place, number)?);
    }
    let next = if identifiers.is_empty() {
        let mut next = pre.copy()?;
        push_first(alloc, &mut next, base)?;
        next
    } else {
        first
    };
    if next == *pre {
        return Err(IncrementError::Refused(Refusal::SamePreRelease));
    }
    Ok(next)
}

// ---- the next version

/// Returns the version that comes next: the next release of a kind, or a pre-release of it, which begins with `identifiers`
/// and the number of `base`. A pre-release is raised in its last number, if it begins with `identifiers` and goes on with a
/// number, or if there are no identifiers. The build goes.
///
/// The next release of a pre-release may be its own: `patch` of `1.2.3-rc.1` is `1.2.3`. Where a pre-release gets other
/// identifiers, the result may be below the version: `prerelease` of `1.2.3-rc.1` with `beta` is `1.2.3-beta.0`.
///
/// Fails if a number would be larger than 18446744073709551615, if `release` is asked of a release, if a pre-release would
/// have neither an identifier nor a number, or if it is that of the version; and out of memory.
pub fn increment(
    alloc: Global,
    version: &Version,
    release_type: ReleaseType,
    identifiers: &CowVec<VersionPreOrBuild>,
    base: Base,
) -> Result<Version, IncrementError>
    ensures value { IfOk result (λ next.
        incremented release_type identifiers.now base version.now ≡ Ok next) }
    ensures refused { IfErr result
        (IsRefused (incremented release_type identifiers.now base version.now)) }
{
    let is_release = version.pre.is_empty();
    let of_minor = !is_release && version.patch == 0;
    let of_major = of_minor && version.minor == 0;
    let next = match release_type {
        ReleaseType::Major if of_major => return Ok(release_of(alloc, version)),
        ReleaseType::Minor if of_minor => return Ok(release_of(alloc, version)),
        ReleaseType::Patch | ReleaseType::Release if !is_release => {
            return Ok(release_of(alloc, version));
        }
        ReleaseType::Major => return Ok(next_major(alloc, version)?),
        ReleaseType::Minor => return Ok(next_minor(alloc, version)?),
        ReleaseType::Patch => return Ok(next_patch(alloc, version)?),
        ReleaseType::Release => return Err(IncrementError::Refused(Refusal::NotPreRelease)),
        ReleaseType::PreMajor => next_major(alloc, version)?,
        ReleaseType::PreMinor => next_minor(alloc, version)?,
        ReleaseType::PreRelease if !is_release => {
            let pre = next_pre(alloc, identifiers, base, &version.pre)?;
            return Ok(Version {
                pre,
                ..release_of(alloc, version)
            });
        }
        ReleaseType::PrePatch | ReleaseType::PreRelease => next_patch(alloc, version)?,
    };
    let pre = first_pre(alloc, identifiers, base)?;
    Ok(Version { pre, ..next })
}
