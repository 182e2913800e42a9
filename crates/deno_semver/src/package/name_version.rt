//! Parsing of names with versions.

ghost use Rattle.std.specs.Prelude.{◌≡◌, ◌↔◌, ◌⊎◌, [], IfErr, IfOk, IsTrue, List, MatchOption, Ok, Result, true, ℕ};
ghost use Rattle.std.specs.List.{list_all};
ghost use Rattle.semver_base.specs.VersionText.{ReadsBack, version_text};
ghost use Rattle.semver_base.specs.declared.failure.Rejection.{Rejection};
ghost use Rattle.semver_base.specs.declared.failure.Rejection.TheVariants.{UnexpectedCharacter};
ghost use Rattle.semver_req.specs.Parsers.{IsReadOrTag};
ghost use Rattle.semver_req.specs.Requirement.{PinsTo, pinned, ranges_of};
ghost use Rattle.semver_req.specs.Rereading.{IsStableSet, OfReadVersion};
ghost use Rattle.deno_semver.specs.NameAndVersion.{IsNoNvText, IsNvFront, IsNvMemory, IsNvText, IsParsedNv, NvReadsBack, ReportsNvFault, is_version_byte};
ghost use Rattle.deno_semver.specs.NameAndVersionSteps.{IsFrontAnswer, IsFrontRejection};
ghost use Rattle.deno_semver.specs.declared.package.values.PackageNv.{PackageNv};

use super::values::{PackageName, PackageNv, PackageReq};
use semver_base::failure::Rejection;
use semver_base::laws::{counted_runs_are_cut, version_texts_are_bare};
use semver_base::lexical::after;
use semver_base::string::{SmallStackString, StackString};
use semver_base::version::Version;
use semver_req::req::IntoVersionReq;
use std::alloc::{AllocError, Global};
use thiserror::Error;

/// Why a text isn't a valid name and version, or that memory ran out.
///
/// The message is the version's parse error, or "Unexpected character." if anything else is wrong, and the text is the whole
/// one given. Out of memory, both are empty.
#[derive(Debug, Drop, Error)]
#[error("Invalid package name and version '{text}'. {message}")]
pub struct PackageNvParseError {
    pub message: SmallStackString,
    pub text: StackString,
}

impl PackageNvParseError {
    /// Whether the error is out of memory, which has no message.
    pub fn is_memory(&self) -> bool
        ensures { IsTrue result ↔ (self.now.message ≡ []) }
    {
        self.message.as_str().is_empty()
    }

    /// Copies the error. Fails only out of memory.
    pub fn copy(&self) -> Result<Self, AllocError>
        ensures { IfOk result (λ error. error ≡ self.now) }
    {
        Ok(PackageNvParseError {
            message: self.message.copy()?,
            text: self.text.copy()?,
        })
    }
}

/// The error for out of memory.
pub(crate) fn memory(alloc: Global) -> PackageNvParseError
    ensures { IsNvMemory result }
{
    PackageNvParseError {
        message: SmallStackString::new(alloc),
        text: StackString::new(alloc),
    }
}

// The error with these texts, or out of memory.
fn reported(alloc: Global, message: &str, text: &str) -> PackageNvParseError
    ensures { IsNvMemory result ⊎ ((result.message ≡ message.now) × (result.text ≡ text.now)) }
{
    let Ok(message) = SmallStackString::from_str(alloc, message) else {
        return memory(alloc);
    };
    match StackString::from_str(alloc, text) {
        Ok(text) => PackageNvParseError { message, text },
        Err(_) => {
            drop(message);
            memory(alloc)
        }
    }
}

// The parts of a text.
#[derive(Clone, Copy)]
struct Parts<'a> {
    name: &'a str,
    version: &'a str,
    // What follows the version.
    rest: &'a str,
}

// Splits off the leading name and version.
fn cut(text: &str) -> Option<Parts<'_>>
    ensures { MatchOption result (IsNoNvText text.now)
        (λ p. IsNvText text.now p.name.now p.version.now p.rest.now) }
{
    counted_runs_are_cut();
    let Some((_, more)) = text.as_bytes().split_first() else {
        return None;
    };
    // The name is the first byte and those before the next `@`.
    let len = more.iter().take_while(|b| **b != b'@').count() + 1;
    let (name, rest) = text.split_at(len);
    let Some(rest) = after(rest, '@') else {
        return None;
    };
    let len = rest
        .as_bytes()
        .iter()
        .take_while(|b| **b != b'_' && **b != b'/')
        .count();
    let (version, rest) = rest.split_at(len);
    if version.is_empty() {
        return None;
    }
    Some(Parts {
        name,
        version,
        rest,
    })
}

/// The error for any other fault than an invalid version, or out of memory.
pub(crate) fn unexpected(alloc: Global, whole: &str) -> PackageNvParseError
    ensures { IsNvMemory result ⊎ ReportsNvFault UnexpectedCharacter whole.now result }
{
    reported(alloc, Rejection::UnexpectedCharacter.message(), whole)
}

/// Parses the name and version at the start of a text, and returns what follows it; an error holds the whole text.
pub(crate) fn nv_at_front<'a>(
    alloc: Global,
    text: &'a str,
    whole: &str,
) -> Result<(PackageNv, &'a str), PackageNvParseError>
    ensures read { IfOk result (λ r. IsNvFront text.now (Ok (r.0, r.1.now))) }
    ensures reads_back { IfOk result (λ r. ReadsBack r.0.version) }
    ensures plain { IfOk result
        (λ r. list_all is_version_byte (version_text r.0.version) ≡ true) }
    ensures rejected { IfErr result (IsFrontRejection text.now whole.now) }
    ensures answer { (outcome : Result (PackageNv × List ℕ) Rejection) → IsNvFront text.now outcome
        → IsFrontAnswer whole.now outcome result }
{
    version_texts_are_bare();
    let Some(parts) = cut(text) else {
        return Err(unexpected(alloc, whole));
    };
    let version = match Version::parse_from_npm(alloc, parts.version) {
        Ok(version) => version,
        Err(error) => {
            let failure = if error.is_memory() {
                memory(alloc)
            } else {
                reported(alloc, error.message(), whole)
            };
            drop(error);
            return Err(failure);
        }
    };
    match PackageName::from_str(alloc, parts.name) {
        Ok(name) => Ok((PackageNv { name, version }, parts.rest)),
        Err(_) => {
            drop(version);
            Err(memory(alloc))
        }
    }
}

impl PackageNv {
    /// Parses a name and version such as `@scope/name@1.0.0`: a non-empty name without an `@` after its first character; `@`;
    /// and a non-empty version that contains neither `_` nor `/`, parsed by npm's grammar ([`Version::parse_from_npm`]).
    ///
    /// The text of a parsed name and version parses to the same one, build included. An invalid version fails with the
    /// message of its parse error; anything else that is wrong, such as text after the version, fails with "Unexpected
    /// character.". Otherwise fails only out of memory.
    pub fn from_str(alloc: Global, text: &str) -> Result<Self, PackageNvParseError>
        ensures parsed { IsParsedNv text.now result }
        ensures reads_back { IfOk result NvReadsBack }
    {
        let (nv, rest) = match nv_at_front(alloc, text, text) {
            Ok(front) => front,
            Err(error) => return Err(error),
        };
        if !rest.is_empty() {
            drop(nv);
            return Err(unexpected(alloc, text));
        }
        Ok(nv)
    }

    /// Returns the package requirement with this name, for the versions of the same precedence ([`IntoVersionReq::into_req`],
    /// which says what holds if the version was parsed). Fails only out of memory.
    pub fn into_req(self, alloc: Global) -> Result<PackageReq, AllocError>
        ensures name { IfOk result (λ req. req.name ≡ self.name) }
        ensures version { IfOk result (λ req. req.version_req ≡ pinned self.version) }
        ensures matches { IfOk result (λ req. PinsTo self.version req.version_req.inner) }
        ensures read_set { IfOk result
            (λ req. OfReadVersion self.version (IsReadOrTag req.version_req.inner)) }
        ensures stable { IfOk result (λ req. OfReadVersion self.version
            (IsStableSet (ranges_of req.version_req.inner).0)) }
    {
        let PackageNv { name, version } = self;
        let version_req = version.into_req(alloc)?;
        Ok(PackageReq { name, version_req })
    }
}
