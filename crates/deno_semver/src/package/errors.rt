//! Why the text of a package or of a reference is rejected.

ghost use Rattle.std.specs.Prelude.{◌≡◌, ◌↔◌, IfOk, IsTrue, false};
ghost use Rattle.deno_semver.specs.PackageOutcome.{IsOutOfMemory};
ghost use Rattle.deno_semver.specs.ReferenceOutcome.{unboxed};

use super::values::PackageKind;
use semver_base::string::StackString;
use semver_req::npm::NpmVersionReqParseError;
use semver_req::req::VersionReqNormalizedParseError;
use semver_req::specifier::VersionReqSpecifierParseError;
use std::alloc::{AllocError, Global};
use thiserror::Error;

/// What is wrong in the text of a package, or that memory ran out.
#[derive(Debug, PartialEq, Eq, Drop, Error)]
pub enum PackageReqPartsParseError {
    /// Nothing stands before the first `/` or the end.
    #[error("Did not contain a package name")]
    NoPackageName,
    /// A scope stands alone.
    #[error("Did not contain a valid package name")]
    InvalidPackageName,
    /// The text contains a `/` and doesn't begin with `@`.
    #[error("Packages in the format <scope>/<name> must start with an '@' symbol")]
    MissingAtSymbol,
    /// The version's text isn't valid under the strict grammar, or a path follows the package requirement.
    #[error(transparent)]
    SpecifierVersionReq(VersionReqSpecifierParseError),
    /// The version's text isn't valid under npm's grammar.
    #[error(transparent)]
    NpmVersionReq(NpmVersionReqParseError),
    /// The version's text isn't valid under the normalized grammar.
    #[error(transparent)]
    NormalizedVersionReq(VersionReqNormalizedParseError),
    /// Out of memory.
    #[error("Out of memory.")]
    Memory,
}

impl PackageReqPartsParseError {
    /// Whether the error is out of memory.
    pub fn is_memory(&self) -> bool
        ensures { IsTrue result ↔ (self.now ≡ PackageReqPartsParseError.Memory) }
    {
        matches!(self, PackageReqPartsParseError::Memory)
    }

    /// Copies the error. Fails only out of memory.
    pub fn copy(&self) -> Result<Self, AllocError>
        ensures { IfOk result (λ error. error ≡ self.now) }
    {
        match self {
            PackageReqPartsParseError::NoPackageName => Ok(
                PackageReqPartsParseError::NoPackageName,
            ),
            PackageReqPartsParseError::InvalidPackageName => {
                Ok(PackageReqPartsParseError::InvalidPackageName)
            }
            PackageReqPartsParseError::MissingAtSymbol => {
                Ok(PackageReqPartsParseError::MissingAtSymbol)
            }
            PackageReqPartsParseError::SpecifierVersionReq(error) => Ok(
                PackageReqPartsParseError::SpecifierVersionReq(error.copy()?),
            ),
            PackageReqPartsParseError::NpmVersionReq(error) => {
                Ok(PackageReqPartsParseError::NpmVersionReq(error.copy()?))
            }
            PackageReqPartsParseError::NormalizedVersionReq(error) => Ok(
                PackageReqPartsParseError::NormalizedVersionReq(error.copy()?),
            ),
            PackageReqPartsParseError::Memory => Ok(PackageReqPartsParseError::Memory),
        }
    }
}

/// Why a text isn't a valid package requirement, with the whole text; or that memory ran out, with no text.
#[derive(Debug, Drop, Error)]
#[error("Invalid package requirement '{text}'")]
pub struct PackageReqParseError {
    pub text: StackString,
    #[source]
    pub source: PackageReqPartsParseError,
}

impl PackageReqParseError {
    /// The error for out of memory.
    pub(crate) fn memory(alloc: Global) -> PackageReqParseError
        ensures { IsOutOfMemory result }
    {
        PackageReqParseError {
            text: StackString::new(alloc),
            source: PackageReqPartsParseError::Memory,
        }
    }

    /// Whether the error is out of memory.
    pub fn is_memory(&self) -> bool
        ensures { IsTrue result ↔ (self.now.source ≡ PackageReqPartsParseError.Memory) }
    {
        self.source.is_memory()
    }

    /// Copies the error. Fails only out of memory.
    pub fn copy(&self) -> Result<Self, AllocError>
        ensures { IfOk result (λ error. error ≡ self.now) }
    {
        Ok(PackageReqParseError {
            text: self.text.copy()?,
            source: self.source.copy()?,
        })
    }
}

/// Why a text isn't a valid package reference, or that memory ran out.
#[derive(Debug, PartialEq, Eq, Drop, Error)]
pub enum PackageReqReferenceParseError {
    /// The text doesn't begin with this registry's scheme.
    #[error("Not {} specifier", .0.scheme_with_colon())]
    NotExpectedScheme(PackageKind),
    /// What follows the scheme isn't a valid package requirement.
    #[error(transparent)]
    Invalid(Box<PackageReqReferenceInvalidParseError>),
    /// The path seems to contain the version.
    #[error(transparent)]
    InvalidPathWithVersion(Box<PackageReqReferenceInvalidWithVersionParseError>),
    /// Out of memory.
    #[error("Out of memory.")]
    Memory,
}

/// The whole text of a reference, and what is wrong in it.
#[derive(Debug, PartialEq, Eq, Drop, Error)]
#[error("Invalid package specifier '{specifier}'")]
pub struct PackageReqReferenceInvalidParseError {
    pub specifier: StackString,
    #[source]
    pub source: PackageReqPartsParseError,
}

/// A reference to any version, with a version in its path: the registry, the reference as written, and the suggestion with
/// that version after the name.
#[derive(Debug, PartialEq, Eq, Drop, Error)]
#[error("Invalid package specifier '{}{current}'. Did you mean to write '{}{suggested}'? If not, add a version requirement to the specifier.", .kind.scheme_with_colon(), .kind.scheme_with_colon())]
pub struct PackageReqReferenceInvalidWithVersionParseError {
    pub kind: PackageKind,
    pub current: StackString,
    pub suggested: StackString,
}

impl PackageReqReferenceInvalidParseError {
    /// Whether the error is out of memory.
    pub fn is_memory(&self) -> bool
        ensures { IsTrue result ↔ (self.now.source ≡ PackageReqPartsParseError.Memory) }
    {
        self.source.is_memory()
    }

    /// Copies the error. Fails only out of memory.
    pub fn copy(&self) -> Result<Self, AllocError>
        ensures { IfOk result (λ error. error ≡ self.now) }
    {
        Ok(PackageReqReferenceInvalidParseError {
            specifier: self.specifier.copy()?,
            source: self.source.copy()?,
        })
    }
}

impl PackageReqReferenceInvalidWithVersionParseError {
    /// Whether the error is out of memory; it never is.
    pub fn is_memory(&self) -> bool
        ensures { result ≡ false }
    {
        false
    }

    /// Copies the error. Fails only out of memory.
    pub fn copy(&self) -> Result<Self, AllocError>
        ensures { IfOk result (λ error. error ≡ self.now) }
    {
        Ok(PackageReqReferenceInvalidWithVersionParseError {
            kind: self.kind,
            current: self.current.copy()?,
            suggested: self.suggested.copy()?,
        })
    }
}

impl PackageReqReferenceParseError {
    /// Whether the error is out of memory.
    pub fn is_memory(&self) -> bool
        ensures { IsTrue result ↔ (self.now ≡ PackageReqReferenceParseError.Memory) }
    {
        matches!(self, PackageReqReferenceParseError::Memory)
    }

    /// Copies the error. Fails only out of memory.
    pub fn copy(&self) -> Result<Self, AllocError>
        ensures { IfOk result (λ error. unboxed error ≡ unboxed self.now) }
    {
        match self {
            PackageReqReferenceParseError::NotExpectedScheme(kind) => Ok(
                PackageReqReferenceParseError::NotExpectedScheme(*kind),
            ),
            PackageReqReferenceParseError::Invalid(error) => {
                let error = Box::new(*Box::allocator(error), error.copy()?)?;
                Ok(PackageReqReferenceParseError::Invalid(error))
            }
            PackageReqReferenceParseError::InvalidPathWithVersion(error) => {
                let error = Box::new(*Box::allocator(error), error.copy()?)?;
                Ok(PackageReqReferenceParseError::InvalidPathWithVersion(error))
            }
            PackageReqReferenceParseError::Memory => Ok(PackageReqReferenceParseError::Memory),
        }
    }
}
