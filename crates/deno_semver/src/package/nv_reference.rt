//! References to packages: a name and version, and the path of a module in the package; and their URLs.

ghost use Rattle.std.specs.Prelude.{◌≡◌, ◌↔◌, [], IfOk, IsTrue, Some, refl};
ghost use Rattle.deno_semver.specs.NvReference.{nv_error, nv_reference_text};

use super::name_version::PackageNvParseError;
use super::values::{PackageNv, PackageSubPath, copied_sub_path};
use semver_base::string::{SmallStackString, StackString, StringAppendable};
use std::alloc::AllocError;
use std::fmt;
use thiserror::Error;

/// Why a text isn't a valid reference to a version of a package, or that memory ran out.
///
/// The message is the version's parse error, or "Unexpected character." if anything else is wrong, and the text is the whole
/// one given. Out of memory, both are empty.
#[derive(Debug, Drop, Error)]
#[error("Invalid package name and version reference '{text}'. {message}")]
pub struct PackageNvReferenceParseError {
    pub message: SmallStackString,
    pub text: StackString,
}

impl PackageNvReferenceParseError {
    /// Whether the error is out of memory, which has no message.
    pub fn is_memory(&self) -> bool
        ensures { IsTrue result ↔ (self.now.message ≡ []) }
    {
        self.message.as_str().is_empty()
    }

    /// Copies the error. Fails only out of memory.
    pub fn copy(&self) -> Result<Self, AllocError>
        ensures { IfOk result (λ error. error ≡ self.now) }
    {
        Ok(PackageNvReferenceParseError {
            message: self.message.copy()?,
            text: self.text.copy()?,
        })
    }
}

/// A reference to one version of a package and, optionally, to the path of a module in it.
///
/// Ordered by name and version, and then by path as text, an absent path first.
#[derive(Debug, PartialEq, Eq, PartialOrd, Ord, Hash, Drop)]
pub struct PackageNvReference {
    pub nv: PackageNv,
    pub sub_path: Option<PackageSubPath>,
}

/// The error with the texts of a name and version's error.
pub(super) fn of_nv_error(error: PackageNvParseError) -> PackageNvReferenceParseError
    ensures { nv_error result ≡ error }
{
    let PackageNvParseError { message, text } = error;
    PackageNvReferenceParseError { message, text }
}

impl PackageNvReference {
    /// Copies the reference. Fails only out of memory.
    pub fn copy(&self) -> Result<Self, AllocError>
        ensures { IfOk result (λ reference. reference ≡ self.now) }
    {
        Ok(PackageNvReference {
            sub_path: copied_sub_path(&self.sub_path)?,
            nv: self.nv.copy()?,
        })
    }
}

/// `name@version`, followed by `/` and the path if there is one.
impl fmt::Display for PackageNvReference {
    ghost output = { λ reference. Some (nv_reference_text reference) };

    fn fmt<W: fmt::Write>(&self, f: &mut fmt::Formatter<W>) -> fmt::Result {
        let nv = &self.nv;
        match &self.sub_path {
            Some(path) => write!(f, "{nv}/{path}"),
            None => write!(f, "{nv}"),
        }
    }
}

impl StringAppendable for PackageNvReference {
    ghost text = { nv_reference_text };

    ghost displays = { λ x. refl };
}

/// Why a reference has no URL, or that memory ran out.
#[derive(Clone, Copy, Debug, PartialEq, Eq, Error)]
pub enum SpecifierError {
    /// The text isn't valid under the URL Standard as the crate `url` states it.
    #[error("Invalid URL")]
    Url,
    /// Out of memory, which includes a URL of 4 GB, past what the crate `url` stores.
    #[error("Out of memory.")]
    Memory,
}

impl SpecifierError {
    /// Whether the error is out of memory.
    pub fn is_memory(&self) -> bool
        ensures { IsTrue result ↔ (self.now ≡ SpecifierError.Memory) }
    {
        matches!(self, SpecifierError::Memory)
    }
}
