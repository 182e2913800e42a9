//! References to packages of one registry: one type for all registries.

ghost use Rattle.std.specs.Prelude.{◌≡◌, IfErr, IfOk, Ok, Result, Some, refl};
ghost use Rattle.std.specs.Option.{option_copied};
ghost use Rattle.semver_base.specs.declared.failure.Rejection.{Rejection};
ghost use Rattle.deno_semver.specs.NvReference.{IsParsedNvReference, NvReferenceReadsBack, nv_reference_text};
ghost use Rattle.deno_semver.specs.ReferenceOutcome.{IsParsedReference, ReferenceReadsBack};
ghost use Rattle.deno_semver.specs.ReferenceText.{reference_text, with_scheme};
ghost use Rattle.deno_semver.specs.Specifier.{IsSpecifier, specifier_text};
ghost use Rattle.url.specs.Parts.{serialize};
ghost use Rattle.deno_semver.specs.declared.package.values.PackageKind.{PackageKind};
ghost use Rattle.deno_semver.specs.declared.package.nv_reference.PackageNvReference.{PackageNvReference};
ghost use Rattle.deno_semver.specs.declared.package.reference.PackageReqReference.{PackageReqReference};

use super::cut::without_slash;
use super::errors::{PackageReqReferenceInvalidParseError, PackageReqReferenceParseError};
use super::name_version::{memory, nv_at_front, unexpected};
use super::nv_reference::{
    PackageNvReference, PackageNvReferenceParseError, SpecifierError, of_nv_error,
};
use super::reference::{PackageReqReference, read, reported};
use super::values::{PackageKind, PackageNv, PackageReq, PackageSubPath, sub_path_text};
use semver_base::lexical::after;
use semver_base::string::{StackString, StringAppendable};
use semver_req::laws::{star_is_any_version, texts_have_one_outcome};
use std::alloc::{AllocError, Global};
use std::fmt;
use std::marker::{Model, PhantomData};
use url::{ParseError, Url};

/// A reference's registry, as a type.
pub trait Registry {
    /// The registry's kind.
    ghost kind: { PackageKind };

    /// Returns the registry's kind.
    fn kind() -> PackageKind
        ensures { result ≡ kind };
}

/// A reference to a package of the registry: a package requirement and, optionally, the path of a module in the package.
///
/// Two are equal if their package requirements and their paths are.
#[derive(Drop)]
#[derive_where(Debug, PartialEq, Eq, Hash)]
pub struct RegistryReqReference<R> {
    reference: PackageReqReference,
    #[derive_where(skip)]
    registry: PhantomData<R>,
}

impl<R> Model for RegistryReqReference<R> {
    ghost use Rattle.deno_semver.specs.declared.package.reference.PackageReqReference.{PackageReqReference};

    ghost Value = { PackageReqReference };

    ghost view = { λ reference. reference.reference };

    ghost inverse = { λ reference. record { reference = reference; registry = record {} } };
}

impl<R: Registry> RegistryReqReference<R> {
    /// Wraps a reference as one to a package of the registry.
    pub fn new(inner: PackageReqReference) -> Self
        ensures { result ≡ inner }
    {
        RegistryReqReference {
            reference: inner,
            registry: PhantomData,
        }
    }

    /// Parses a reference such as `jsr:@scope/name@1/mod.ts` (specifiers of JSR and of npm): the registry's scheme, a package
    /// requirement split as by [`PackageReq::from_str`], and optionally the path of a module after it; `/` alone isn't a
    /// path.
    ///
    /// The text of a parsed reference parses to the same reference, unless the text of its version is `*` and its name has an
    /// `@` after its first character or ends in `/`.
    ///
    /// Fails with the first of these: `NotExpectedScheme`, the text doesn't begin with the scheme; `Invalid`, what follows
    /// isn't a valid package requirement (a path is allowed), with the whole text and the error; `InvalidPathWithVersion`,
    /// any version is meant, as by `*`, and the path contains an `@`, with the text without its scheme and a suggestion that
    /// moves the part from the last `@` on after the name. Otherwise fails only out of memory.
    pub fn from_str(alloc: Global, specifier: &str) -> Result<Self, PackageReqReferenceParseError>
        ensures parsed { IsParsedReference R.kind specifier.now result }
        ensures reads_back { IfOk result (ReferenceReadsBack R.kind) }
    {
        texts_have_one_outcome();
        star_is_any_version();
        let kind = R::kind();
        let Some(body) = kind.after_scheme(specifier) else {
            return Err(PackageReqReferenceParseError::NotExpectedScheme(kind));
        };
        let reference = match read(alloc, body) {
            Ok(reference) => reference,
            Err(source) => {
                if source.is_memory() {
                    drop(source);
                    return Err(PackageReqReferenceParseError::Memory);
                }
                let Ok(specifier) = StackString::from_str(alloc, specifier) else {
                    drop(source);
                    return Err(PackageReqReferenceParseError::Memory);
                };
                let error = PackageReqReferenceInvalidParseError { specifier, source };
                return Err(match Box::new(alloc, error) {
                    Ok(error) => PackageReqReferenceParseError::Invalid(error),
                    Err(_) => PackageReqReferenceParseError::Memory,
                });
            }
        };
        if reference.req.version_req.version_text() == "*"
            && let Some(path) = &reference.sub_path
            && let Some((before, version)) = path.as_str().rsplit_once('@')
        {
            let error = match reported(alloc, kind, &reference, before, version) {
                Ok(error) => error,
                Err(_) => PackageReqReferenceParseError::Memory,
            };
            drop(reference);
            return Err(error);
        }
        Ok(RegistryReqReference::new(reference))
    }

    /// Parses the text of a URL as a reference ([`RegistryReqReference::from_str`]).
    pub fn from_specifier(
        alloc: Global,
        specifier: &Url,
    ) -> Result<Self, PackageReqReferenceParseError>
        ensures parsed { IsParsedReference R.kind (serialize specifier.now) result }
        ensures reads_back { IfOk result (ReferenceReadsBack R.kind) }
    {
        RegistryReqReference::from_str(alloc, specifier.as_str())
    }

    /// Returns the package requirement.
    pub fn req(&self) -> &PackageReq
        ensures { result.now ≡ self.now.req }
    {
        &self.reference.req
    }

    /// Returns the module's path, if there is one.
    pub fn sub_path(&self) -> Option<&str>
        ensures { option_copied result ≡ self.now.sub_path }
    {
        sub_path_text(&self.reference.sub_path)
    }

    /// Returns the reference without its registry.
    pub fn into_inner(self) -> PackageReqReference
        ensures { result ≡ self }
    {
        let RegistryReqReference {
            reference,
            registry: _,
        } = self;
        reference
    }

    /// Copies the reference. Fails only out of memory.
    pub fn copy(&self) -> Result<Self, AllocError>
        ensures { IfOk result (λ reference. reference ≡ self.now) }
    {
        Ok(RegistryReqReference::new(self.reference.copy()?))
    }
}

/// The scheme and the reference.
impl<R: Registry> fmt::Display for RegistryReqReference<R> {
    ghost output = { λ reference. Some (with_scheme R.kind (reference_text reference)) };

    fn fmt<W: fmt::Write>(&self, f: &mut fmt::Formatter<W>) -> fmt::Result {
        let (scheme, reference) = (R::kind().scheme_with_colon(), &self.reference);
        write!(f, "{scheme}{reference}")
    }
}

impl<R: Registry> StringAppendable for RegistryReqReference<R> {
    ghost text = { λ reference. with_scheme R.kind (reference_text reference) };

    ghost displays = { λ x. refl };
}

/// A reference to one version of a package of the registry and, optionally, to the path of a module in it.
///
/// Ordered by name and version, and then by path as text, an absent path first.
#[derive(Drop)]
#[derive_where(Debug, PartialEq, Eq, PartialOrd, Ord, Hash)]
pub struct RegistryNvReference<R> {
    reference: PackageNvReference,
    #[derive_where(skip)]
    registry: PhantomData<R>,
}

impl<R> Model for RegistryNvReference<R> {
    ghost use Rattle.deno_semver.specs.declared.package.nv_reference.PackageNvReference.{PackageNvReference};

    ghost Value = { PackageNvReference };

    ghost view = { λ reference. reference.reference };

    ghost inverse = { λ reference. record { reference = reference; registry = record {} } };
}

impl<R: Registry> RegistryNvReference<R> {
    /// Wraps a reference as one to a package of the registry.
    pub fn new(inner: PackageNvReference) -> Self
        ensures { result ≡ inner }
    {
        RegistryNvReference {
            reference: inner,
            registry: PhantomData,
        }
    }

    /// Parses a reference such as `jsr:@scope/name@1.0.0/mod.ts` (specifiers of JSR and of npm): the registry's scheme, at
    /// most one `/`, a name and version split as by [`PackageNv::from_str`], and nothing or a `/` and the path of a module,
    /// which may be empty.
    ///
    /// The text of a parsed reference parses to the same reference if its name doesn't begin with `/`. An invalid version
    /// fails with the message of its parse error; anything else that is wrong, such as another scheme, fails with "Unexpected
    /// character.". Otherwise fails only out of memory.
    pub fn from_str(alloc: Global, nv: &str) -> Result<Self, PackageNvReferenceParseError>
        ensures parsed { IsParsedNvReference R.kind nv.now result }
        ensures reads_back { IfOk result (NvReferenceReadsBack R.kind) }
    {
        let kind = R::kind();
        let Some(body) = kind.after_scheme(nv) else {
            return Err(of_nv_error(unexpected(alloc, nv)));
        };
        let (front, rest) = match nv_at_front(alloc, without_slash(body), nv) {
            Ok(parts) => parts,
            Err(error) => return Err(of_nv_error(error)),
        };
        if rest.is_empty() {
            return Ok(RegistryNvReference::new(PackageNvReference {
                nv: front,
                sub_path: None,
            }));
        }
        let Some(path) = after(rest, '/') else {
            drop(front);
            return Err(of_nv_error(unexpected(alloc, nv)));
        };
        match PackageSubPath::from_str(alloc, path) {
            Ok(path) => Ok(RegistryNvReference::new(PackageNvReference {
                nv: front,
                sub_path: Some(path),
            })),
            Err(_) => {
                drop(front);
                Err(of_nv_error(memory(alloc)))
            }
        }
    }

    /// Parses the text of a URL as a reference ([`RegistryNvReference::from_str`]).
    pub fn from_specifier(
        alloc: Global,
        specifier: &Url,
    ) -> Result<Self, PackageNvReferenceParseError>
        ensures parsed { IsParsedNvReference R.kind (serialize specifier.now) result }
        ensures reads_back { IfOk result (NvReferenceReadsBack R.kind) }
    {
        RegistryNvReference::from_str(alloc, specifier.as_str())
    }

    /// Returns the URL that the crate `url` makes of the scheme, `/` and the reference. Fails with `SpecifierError::Url` if
    /// the text isn't valid under the URL Standard as that crate states it; otherwise fails only out of memory, which
    /// includes a URL of 4 GB.
    pub fn as_specifier(&self, alloc: Global) -> Result<Url, SpecifierError>
        ensures { IsSpecifier (specifier_text R.kind self.now) result }
    {
        let (scheme, reference) = (R::kind().scheme_with_colon(), &self.reference);
        let Ok(text) = format!(in alloc; "{scheme}/{reference}") else {
            return Err(SpecifierError::Memory);
        };
        match Url::parse(alloc, text.as_str()) {
            Ok(url) => Ok(url),
            Err(ParseError::OutOfMemory | ParseError::Overflow) => Err(SpecifierError::Memory),
            Err(_) => Err(SpecifierError::Url),
        }
    }

    /// Returns the name and version.
    pub fn nv(&self) -> &PackageNv
        ensures { result.now ≡ self.now.nv }
    {
        &self.reference.nv
    }

    /// Returns the module's path, if there is one.
    pub fn sub_path(&self) -> Option<&str>
        ensures { option_copied result ≡ self.now.sub_path }
    {
        sub_path_text(&self.reference.sub_path)
    }

    /// Returns the reference without its registry.
    pub fn into_inner(self) -> PackageNvReference
        ensures { result ≡ self }
    {
        let RegistryNvReference {
            reference,
            registry: _,
        } = self;
        reference
    }

    /// Copies the reference. Fails only out of memory.
    pub fn copy(&self) -> Result<Self, AllocError>
        ensures { IfOk result (λ reference. reference ≡ self.now) }
    {
        Ok(RegistryNvReference::new(self.reference.copy()?))
    }
}

/// The scheme and the reference.
impl<R: Registry> fmt::Display for RegistryNvReference<R> {
    ghost output = { λ reference. Some (with_scheme R.kind (nv_reference_text reference)) };

    fn fmt<W: fmt::Write>(&self, f: &mut fmt::Formatter<W>) -> fmt::Result {
        let (scheme, reference) = (R::kind().scheme_with_colon(), &self.reference);
        write!(f, "{scheme}{reference}")
    }
}

impl<R: Registry> StringAppendable for RegistryNvReference<R> {
    ghost text = { λ reference. with_scheme R.kind (nv_reference_text reference) };

    ghost displays = { λ x. refl };
}
