//! The texts of references to one version of a package, such as `jsr:@scope/name@1.2.3/mod.ts`, and of dependencies, such as
//! `npm:name@^1`.

ghost use Rattle.std.specs.Prelude.{◌≡◌, IfErr, IfOk, Ok, Result, string_bytes};
ghost use Rattle.std.specs.Option.{option_copied};
ghost use Rattle.semver_base.specs.declared.failure.Rejection.{Rejection};
ghost use Rattle.deno_semver.specs.NvReference.{IsParsedNvReference};
ghost use Rattle.deno_semver.specs.declared.package.nv_reference.PackageNvReference.{PackageNvReference};
ghost use Rattle.answers.specs.Asking.{IsAnswer};
ghost use Rattle.package_answers.specs.Specifiers.{DependencyParts, VersionReferenceParts};
ghost use Rattle.answers.specs.declared.asking.Kind.TheVariants as kind;

use crate::names::{message_failure, nv_json};
use crate::packages::{package_json, parts_failure};
use crate::references::{export_json, registry_name, registry_of};
use answers::asking::{Kind, Problem};
use answers::object::{Object, json_text};
use deno_semver::ParseFailure;
use deno_semver::jsr::{JsrDepPackageReq, JsrDepPackageReqParseError, JsrPackageNvReference};
use deno_semver::npm::NpmPackageNvReference;
use deno_semver::package::{PackageKind, PackageNvReference, PackageNvReferenceParseError};
use semver_req::common::values::Flavour;
use semver_req::laws::texts_are_rejected_for_one_reason;
use std::alloc::Global;

/// Parses a dependency, with this grammar for its range, and returns its parts as the text of a JSON object.
pub fn dependency_parts(alloc: Global, flavour: Flavour, text: &str) -> Result<String, Problem>
    ensures { IsAnswer (DependencyParts flavour text.now)
        (λ text. string_bytes text) result }
{
    texts_are_rejected_for_one_reason();
    let parsed = match flavour {
        Flavour::Npm => JsrDepPackageReq::from_str_loose(alloc, text),
        Flavour::Normal => JsrDepPackageReq::from_str_normalized(alloc, text),
        Flavour::Specifier => JsrDepPackageReq::from_str(alloc, text),
    };
    let dependency = match parsed {
        Ok(dependency) => dependency,
        Err(error) => {
            let failure = match error {
                JsrDepPackageReqParseError::NotExpectedScheme(_scheme) => {
                    ParseFailure::with_texts(alloc, "Neither jsr: nor npm: stands in front.", None)
                }
                JsrDepPackageReqParseError::PackageReqParse(error) => {
                    parts_failure(alloc, error.source)
                }
                JsrDepPackageReqParseError::Memory => ParseFailure::memory(),
            };
            return Err(Problem::of(Kind::Reference, 0, failure));
        }
    };
    let normal = dependency.to_string_normalized(alloc)?;
    let json = Object::new(alloc)
        .put_text("kind", Some(registry_name(dependency.kind)))
        .put_text("normal", Some(normal.as_str()))
        .put("package", package_json(alloc, &dependency.req))
        .into_json();
    Ok(json_text(alloc, json)?)
}

/// A reference to one version of a package of either registry.
#[derive(Drop)]
pub struct VersionReference {
    pub kind: PackageKind,
    pub reference: PackageNvReference,
}

impl VersionReference {
    /// Returns the path, if there is one.
    pub fn path(&self) -> Option<&str>
        ensures { option_copied result ≡ self.now.reference.sub_path }
    {
        match &self.reference.sub_path {
            Some(path) => Some(path.as_str()),
            None => None,
        }
    }
}

// Parses a reference to a version of a package of the registry.
fn parse_reference(
    alloc: Global,
    kind: PackageKind,
    text: &str,
) -> Result<PackageNvReference, PackageNvReferenceParseError>
    ensures { IsParsedNvReference kind text.now result }
{
    match kind {
        PackageKind::Jsr => match JsrPackageNvReference::from_str(alloc, text) {
            Ok(reference) => Ok(reference.into_inner()),
            Err(error) => Err(error),
        },
        PackageKind::Npm => match NpmPackageNvReference::from_str(alloc, text) {
            Ok(reference) => Ok(reference.into_inner()),
            Err(error) => Err(error),
        },
    }
}

/// Parses a reference to a version, of a JSR package if the text begins with `jsr:`, else of an npm package, and returns its parts
/// as the text of a JSON object.
pub fn version_reference_parts(alloc: Global, text: &str) -> Result<String, Problem>
    ensures { IsAnswer (VersionReferenceParts text.now) (λ text. string_bytes text) result }
{
    let kind = registry_of(text);
    let read = match parse_reference(alloc, kind, text) {
        Ok(reference) => VersionReference { kind, reference },
        Err(error) => {
            let failure = message_failure(alloc, error.message.as_str());
            return Err(Problem::of(Kind::Reference, 0, failure));
        }
    };
    let json = Object::new(alloc)
        .put("export", export_json(alloc, read.kind, read.path()))
        .put_text("kind", Some(registry_name(read.kind)))
        .put("package", nv_json(alloc, &read.reference.nv))
        .put_text("path", read.path())
        .into_json();
    Ok(json_text(alloc, json)?)
}
