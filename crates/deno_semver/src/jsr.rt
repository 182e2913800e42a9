//! JSR: references to packages, the names of their exports, and their dependencies.

ghost use Rattle.std.specs.Prelude.{◌≡◌, IfOk};
ghost use Rattle.std.specs.Cow.{cow_str_bytes};
ghost use Rattle.std.specs.Option.{option_copied};
ghost use Rattle.deno_semver.specs.ExportName.{IsExportName, export_name};
ghost use Rattle.deno_semver.specs.declared.package.values.PackageKind.TheVariants.{Jsr};

mod dependency;

use crate::package::{
    PackageKind, Registry, RegistryNvReference, RegistryReqReference, without_slash,
};
pub use dependency::{JsrDepPackageReq, JsrDepPackageReqParseError};
use std::alloc::{AllocError, Global};
use std::borrow::CowStr;

/// JSR, as the registry of a reference.
pub enum JsrRegistry {}

impl Registry for JsrRegistry {
    ghost kind = { Jsr };

    fn kind() -> PackageKind {
        PackageKind::Jsr
    }
}

/// A reference to a JSR package, such as `jsr:@scope/name@1/mod.ts`.
pub type JsrPackageReqReference = RegistryReqReference<JsrRegistry>;

/// A reference to one version of a JSR package, such as `jsr:@scope/name@1.0.0/mod.ts`.
pub type JsrPackageNvReference = RegistryNvReference<JsrRegistry>;

/// Returns the name of the export that a path in a JSR package means: `.`, the package's own export, without a path and for
/// an empty path, `/` and `.`. Any other path loses one trailing `/`, and then gets `./` in front in place of one `/`, unless
/// it begins with `./` (the exports of JSR's packages; the crate `deno_semver`).
///
/// Fails only out of memory.
pub fn normalized_export_name(
    alloc: Global,
    sub_path: Option<&str>,
) -> Result<CowStr<'_, Global>, AllocError>
    ensures value { IfOk result
        (λ name. cow_str_bytes name ≡ export_name (option_copied sub_path.entry)) }
    ensures form { IfOk result (λ name. IsExportName (cow_str_bytes name)) }
{
    let Some(path) = sub_path else {
        return Ok(CowStr::Borrowed("."));
    };
    if matches!(path, "" | "/" | ".") {
        return Ok(CowStr::Borrowed("."));
    }
    let path = path.strip_suffix('/').unwrap_or(path);
    if path.starts_with("./") {
        return Ok(CowStr::Borrowed(path));
    }
    let path = without_slash(path);
    Ok(CowStr::Owned(format!(in alloc; "./{path}")?))
}

impl RegistryReqReference<JsrRegistry> {
    /// Returns the name of the export that the path means ([`normalized_export_name`]). Fails only out of memory.
    pub fn export_name(&self, alloc: Global) -> Result<CowStr<'_, Global>, AllocError>
        ensures { IfOk result (λ name. cow_str_bytes name ≡ export_name self.now.sub_path) }
    {
        normalized_export_name(alloc, self.sub_path())
    }
}

impl RegistryNvReference<JsrRegistry> {
    /// Returns the name of the export that the path means ([`normalized_export_name`]). Fails only out of memory.
    pub fn export_name(&self, alloc: Global) -> Result<CowStr<'_, Global>, AllocError>
        ensures { IfOk result (λ name. cow_str_bytes name ≡ export_name self.now.sub_path) }
    {
        normalized_export_name(alloc, self.sub_path())
    }
}
