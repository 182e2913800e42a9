//! Dependencies of JSR packages.

ghost use Rattle.std.specs.Prelude.{◌≡◌, ◌↔◌, IfOk, IsTrue, Ok, Result, Some, refl};
ghost use Rattle.semver_req.specs.declared.common.values.Flavour.TheVariants.{Normal, Npm, Specifier};
ghost use Rattle.deno_semver.specs.DependencyText.{dependency_text, normal_dependency_text};
ghost use Rattle.deno_semver.specs.DependencyOutcome.{IsOfPackageError, IsParsedDependency, IsSameError};
ghost use Rattle.deno_semver.specs.declared.jsr.dependency.JsrDepPackageReq.{JsrDepPackageReq};
ghost use Rattle.deno_semver.specs.declared.package.values.PackageKind.TheVariants as kind;

use crate::package::{PackageKind, PackageReq, PackageReqParseError};
use semver_base::string::{StackString, StringAppendable, displayed};
use semver_req::common::values::Flavour;
use std::alloc::{AllocError, Global};
use std::fmt;
use thiserror::Error;

/// Why a text isn't a valid dependency of a JSR package, or that memory ran out.
#[derive(Debug, Drop, Error)]
pub enum JsrDepPackageReqParseError {
    /// The text begins with neither scheme. Holds the text before its first `:`, or all of it.
    #[error("Unexpected JSR dependency scheme '{0}'. Expected 'npm:' or 'jsr:'")]
    NotExpectedScheme(String),
    /// What follows the scheme isn't a valid package requirement.
    #[error(transparent)]
    PackageReqParse(PackageReqParseError),
    /// Out of memory.
    #[error("Out of memory.")]
    Memory,
}

impl From<PackageReqParseError> for JsrDepPackageReqParseError {
    ghost from_gives = { IsOfPackageError };

    fn from(error: PackageReqParseError) -> JsrDepPackageReqParseError {
        if error.is_memory() {
            drop(error);
            return JsrDepPackageReqParseError::Memory;
        }
        JsrDepPackageReqParseError::PackageReqParse(error)
    }
}

impl JsrDepPackageReqParseError {
    /// Whether the error is out of memory.
    pub fn is_memory(&self) -> bool
        ensures { IsTrue result ↔ (self.now ≡ JsrDepPackageReqParseError.Memory) }
    {
        matches!(self, JsrDepPackageReqParseError::Memory)
    }

    /// Copies the error. Fails only out of memory.
    pub fn copy(&self) -> Result<Self, AllocError>
        ensures { IfOk result (IsSameError self.now) }
    {
        match self {
            JsrDepPackageReqParseError::NotExpectedScheme(scheme) => Ok(
                JsrDepPackageReqParseError::NotExpectedScheme(scheme.clone()?),
            ),
            JsrDepPackageReqParseError::PackageReqParse(error) => {
                Ok(JsrDepPackageReqParseError::PackageReqParse(error.copy()?))
            }
            JsrDepPackageReqParseError::Memory => Ok(JsrDepPackageReqParseError::Memory),
        }
    }
}

/// A package requirement for npm or JSR on which a JSR package depends.
///
/// Ordered by registry, JSR below npm, and then by package requirement.
#[derive(Debug, PartialEq, Eq, PartialOrd, Ord, Hash, Drop)]
pub struct JsrDepPackageReq {
    pub kind: PackageKind,
    pub req: PackageReq,
}

// Parses a dependency whose version has this flavour of grammar.
fn read(
    alloc: Global,
    text: &str,
    flavour: Flavour,
) -> Result<JsrDepPackageReq, JsrDepPackageReqParseError>
    ensures { IsParsedDependency flavour text.now result }
{
    let (kind, body) = if let Some(body) = PackageKind::Jsr.after_scheme(text) {
        (PackageKind::Jsr, body)
    } else if let Some(body) = PackageKind::Npm.after_scheme(text) {
        (PackageKind::Npm, body)
    } else {
        let scheme = match text.split_once(':') {
            Some((scheme, _)) => scheme,
            None => text,
        };
        return match String::from_str(alloc, scheme) {
            Ok(scheme) => Err(JsrDepPackageReqParseError::NotExpectedScheme(scheme)),
            Err(_) => Err(JsrDepPackageReqParseError::Memory),
        };
    };
    match PackageReq::parse(alloc, body, flavour) {
        Ok(req) => Ok(JsrDepPackageReq { kind, req }),
        Err(error) => Err(JsrDepPackageReqParseError::from(error)),
    }
}

impl JsrDepPackageReq {
    /// Makes a dependency on a JSR package.
    pub fn jsr(req: PackageReq) -> Self
        ensures { result ≡ record { kind = kind.Jsr; req = req } }
    {
        JsrDepPackageReq {
            kind: PackageKind::Jsr,
            req,
        }
    }

    /// Makes a dependency on an npm package.
    pub fn npm(req: PackageReq) -> Self
        ensures { result ≡ record { kind = kind.Npm; req = req } }
    {
        JsrDepPackageReq {
            kind: PackageKind::Npm,
            req,
        }
    }

    /// Parses a dependency such as `jsr:@scope/name@^1.2` or `npm:name@1`: a registry's scheme, and a package requirement as
    /// [`PackageReq::from_str`] parses it (the dependencies of JSR's packages; the crate `deno_semver`).
    ///
    /// Fails with `NotExpectedScheme` if the text begins with neither `jsr:` nor `npm:`; the error holds the text before its
    /// first `:`, or the whole text. Fails with `PackageReqParse` if what follows the scheme is invalid; the error holds that
    /// text. Otherwise fails only out of memory.
    pub fn from_str(alloc: Global, text: &str) -> Result<Self, JsrDepPackageReqParseError>
        ensures { IsParsedDependency Specifier text.now result }
    {
        read(alloc, text, Flavour::Specifier)
    }

    /// Parses like [`JsrDepPackageReq::from_str`], but by [`PackageReq::from_str_loose`].
    pub fn from_str_loose(alloc: Global, text: &str) -> Result<Self, JsrDepPackageReqParseError>
        ensures { IsParsedDependency Npm text.now result }
    {
        read(alloc, text, Flavour::Npm)
    }

    /// Parses like [`JsrDepPackageReq::from_str`], but by [`PackageReq::from_str_normalized`].
    pub fn from_str_normalized(
        alloc: Global,
        text: &str,
    ) -> Result<Self, JsrDepPackageReqParseError>
        ensures { IsParsedDependency Normal text.now result }
    {
        read(alloc, text, Flavour::Normal)
    }

    /// Returns the scheme and the package requirement's canonical form ([`PackageReq::to_string_normalized`]). Fails only out
    /// of memory.
    pub fn to_string_normalized(&self, alloc: Global) -> Result<StackString, AllocError>
        ensures { IfOk result (λ text. text ≡ normal_dependency_text self.now) }
    {
        let (scheme, req) = (self.kind.scheme_with_colon(), &self.req);
        let (name, inner) = (&req.name, req.version_req.inner());
        let text = displayed(alloc, &format_args!("{scheme}{name}@{inner}"))?;
        StackString::from_string(alloc, text)
    }

    /// Copies the dependency. Fails only out of memory.
    pub fn copy(&self) -> Result<Self, AllocError>
        ensures { IfOk result (λ d. d ≡ self.now) }
    {
        Ok(JsrDepPackageReq {
            kind: self.kind,
            req: self.req.copy()?,
        })
    }
}

/// The scheme and the package requirement.
impl fmt::Display for JsrDepPackageReq {
    ghost output = { λ d. Some (dependency_text d) };

    fn fmt<W: fmt::Write>(&self, f: &mut fmt::Formatter<W>) -> fmt::Result {
        let (scheme, req) = (self.kind.scheme_with_colon(), &self.req);
        write!(f, "{scheme}{req}")
    }
}

impl StringAppendable for JsrDepPackageReq {
    ghost text = { dependency_text };

    ghost displays = { λ x. refl };
}
