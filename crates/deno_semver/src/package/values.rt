//! Registries; package requirements and names with versions: fields, texts and copies.

ghost use Rattle.std.specs.Prelude.{◌≡◌, IfOk, Some, refl};
ghost use Rattle.std.specs.Option.{option_copied};
ghost use Rattle.deno_semver.specs.NameAndVersion.{nv_text, scope_of};
ghost use Rattle.deno_semver.specs.RequirementText.{req_text};
ghost use Rattle.deno_semver.specs.Kind.{scheme_of};
ghost use Rattle.deno_semver.specs.ReferenceReading.{IsAfterScheme};

use semver_base::string::{SmallStackString, StackString, StringAppendable};
use semver_base::version::Version;
use semver_req::req::VersionReq;
use std::alloc::AllocError;
use std::fmt;

/// A package's registry.
///
/// JSR is below npm.
#[derive(Clone, Copy, Debug, PartialEq, Eq, PartialOrd, Ord, Hash)]
pub enum PackageKind {
    /// JSR.
    Jsr,
    /// npm.
    Npm,
}

impl PackageKind {
    /// Returns the scheme of the registry's specifiers, with its colon: `jsr:` or `npm:`.
    pub fn scheme_with_colon(self) -> &'static str
        ensures { result.now ≡ scheme_of self }
    {
        match self {
            PackageKind::Jsr => "jsr:",
            PackageKind::Npm => "npm:",
        }
    }

    /// Returns what follows the registry's scheme, if the text begins with it.
    pub fn after_scheme(self, text: &str) -> Option<&str>
        ensures { IsAfterScheme self text.now result }
    {
        text.strip_prefix(self.scheme_with_colon())
    }
}

/// A package's name, with its scope if it has one.
pub type PackageName = StackString;

/// The path of a module in a package.
pub type PackageSubPath = SmallStackString;

/// The path's text, if there is a path.
pub(crate) fn sub_path_text(path: &Option<PackageSubPath>) -> Option<&str>
    ensures { option_copied result ≡ path.now }
{
    match path {
        Some(path) => Some(path.as_str()),
        None => None,
    }
}

/// Copies the path, if there is one. Fails only out of memory.
pub(super) fn copied_sub_path(
    path: &Option<PackageSubPath>,
) -> Result<Option<PackageSubPath>, AllocError>
    ensures { IfOk result (λ copy. copy ≡ path.now) }
{
    match path {
        Some(path) => Ok(Some(path.copy()?)),
        None => Ok(None),
    }
}

/// A package requirement: a package's name, and which of its versions match.
///
/// Two are equal if their names are and their version requirements mean the same. It is displayed as its name, followed by
/// `@` and the version requirement's text unless that is `*`.
#[derive(Debug, PartialEq, Eq, Hash, Drop)]
pub struct PackageReq {
    pub name: PackageName,
    pub version_req: VersionReq,
}

impl PackageReq {
    /// Copies the package requirement. Fails only out of memory.
    pub fn copy(&self) -> Result<Self, AllocError>
        ensures { IfOk result (λ req. req ≡ self.now) }
    {
        Ok(PackageReq {
            name: self.name.copy()?,
            version_req: self.version_req.copy()?,
        })
    }
}

/// `name@text`, or the name alone if the version requirement's text is `*`.
impl fmt::Display for PackageReq {
    ghost output = { λ req. Some (req_text req) };

    fn fmt<W: fmt::Write>(&self, f: &mut fmt::Formatter<W>) -> fmt::Result {
        let (name, text) = (self.name.as_str(), self.version_req.version_text());
        if text == "*" {
            return f.write_str(name);
        }
        write!(f, "{name}@{text}")
    }
}

impl StringAppendable for PackageReq {
    ghost text = { req_text };

    ghost displays = { λ x. refl };
}

/// A package's name and one of its versions.
///
/// Ordered by name as text, and then by version.
#[derive(Debug, PartialEq, Eq, PartialOrd, Ord, Hash, Drop)]
pub struct PackageNv {
    pub name: PackageName,
    pub version: Version,
}

impl PackageNv {
    /// Copies the name and version. Fails only out of memory.
    pub fn copy(&self) -> Result<Self, AllocError>
        ensures { IfOk result (λ nv. nv ≡ self.now) }
    {
        Ok(PackageNv {
            name: self.name.copy()?,
            version: self.version.copy()?,
        })
    }

    /// Returns the scope of a name that begins with `@`: the part before its first `/`, or the whole name if it has none.
    pub fn scope(&self) -> Option<&str>
        ensures { option_copied result ≡ scope_of self.now.name }
    {
        let name = self.name.as_str();
        if !name.starts_with('@') {
            return None;
        }
        match name.split_once('/') {
            Some((scope, _)) => Some(scope),
            None => Some(name),
        }
    }
}

/// `name@version`.
impl fmt::Display for PackageNv {
    ghost output = { λ nv. Some (nv_text nv) };

    fn fmt<W: fmt::Write>(&self, f: &mut fmt::Formatter<W>) -> fmt::Result {
        let (name, version) = (self.name.as_str(), &self.version);
        write!(f, "{name}@{version}")
    }
}

impl StringAppendable for PackageNv {
    ghost text = { nv_text };

    ghost displays = { λ x. refl };
}
