//! References to packages: a package requirement and the path of a module in it.

ghost use Rattle.std.specs.Prelude.{◌≡◌, IfOk, Some, refl};
ghost use Rattle.deno_semver.specs.ReferenceOutcome.{InvalidPathWithVersion, unboxed};
ghost use Rattle.deno_semver.specs.ReferenceReading.{IsReferenceRead};
ghost use Rattle.deno_semver.specs.ReferenceText.{reference_text, text_with_version};

use super::cut::parts_of;
use super::errors::{
    PackageReqPartsParseError, PackageReqReferenceInvalidWithVersionParseError,
    PackageReqReferenceParseError,
};
use super::read::req_of;
use super::values::{PackageKind, PackageReq, PackageSubPath, copied_sub_path};
use semver_base::string::{StackString, StringAppendable};
use semver_req::common::values::Flavour;
use std::alloc::{AllocError, Global};
use std::fmt;

/// A reference to a package: a package requirement and, optionally, the path of a module in the package.
///
/// Two are equal if their package requirements and their paths are. It is displayed as its package requirement, followed by
/// `/` and the path.
#[derive(Debug, PartialEq, Eq, Hash, Drop)]
pub struct PackageReqReference {
    pub req: PackageReq,
    pub sub_path: Option<PackageSubPath>,
}

/// Parses a reference without its scheme, wherever its version stands; an empty path and `/` mean no module.
pub(super) fn read(
    alloc: Global,
    body: &str,
) -> Result<PackageReqReference, PackageReqPartsParseError>
    ensures { IsReferenceRead body.now result }
{
    let cut = match parts_of(body) {
        Ok(cut) => cut,
        Err(error) => return Err(error),
    };
    let req = match req_of(alloc, cut, Flavour::Specifier) {
        Ok(req) => req,
        Err(error) => return Err(error),
    };
    if matches!(cut.path, "" | "/") {
        return Ok(PackageReqReference {
            req,
            sub_path: None,
        });
    }
    match PackageSubPath::from_str(alloc, cut.path) {
        Ok(path) => Ok(PackageReqReference {
            req,
            sub_path: Some(path),
        }),
        Err(_) => {
            drop(req);
            Err(PackageReqPartsParseError::Memory)
        }
    }
}

/// The error for a version in the path.
pub(super) fn reported(
    alloc: Global,
    kind: PackageKind,
    reference: &PackageReqReference,
    before: &str,
    version: &str,
) -> Result<PackageReqReferenceParseError, AllocError>
    ensures { IfOk result (λ e. unboxed e ≡ InvalidPathWithVersion (record {
      kind = kind;
      current = reference_text reference.now;
      suggested = text_with_version reference.now.req version.now before.now;
    })) }
{
    let req = &reference.req;
    let current = StackString::from_string(alloc, format!(in alloc; "{reference}")?)?;
    let suggested = format!(in alloc; "{req}@{version}/{before}")?;
    let error = PackageReqReferenceInvalidWithVersionParseError {
        kind,
        current,
        suggested: StackString::from_string(alloc, suggested)?,
    };
    Ok(PackageReqReferenceParseError::InvalidPathWithVersion(Box::new(alloc, error)?))
}

impl PackageReqReference {
    /// Copies the reference. Fails only out of memory.
    pub fn copy(&self) -> Result<Self, AllocError>
        ensures { IfOk result (λ reference. reference ≡ self.now) }
    {
        Ok(PackageReqReference {
            sub_path: copied_sub_path(&self.sub_path)?,
            req: self.req.copy()?,
        })
    }
}

/// The package requirement, followed by `/` and the path if there is one.
impl fmt::Display for PackageReqReference {
    ghost output = { λ reference. Some (reference_text reference) };

    fn fmt<W: fmt::Write>(&self, f: &mut fmt::Formatter<W>) -> fmt::Result {
        let req = &self.req;
        match &self.sub_path {
            Some(path) => write!(f, "{req}/{path}"),
            None => write!(f, "{req}"),
        }
    }
}

impl StringAppendable for PackageReqReference {
    ghost text = { reference_text };

    ghost displays = { λ x. refl };
}
