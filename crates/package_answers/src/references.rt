//! The text of a reference to a package, such as `jsr:@scope/name@1/mod.ts`.

ghost use Rattle.std.specs.Prelude.{◌≡◌, ◌⊎◌, IfErr, IfOk, List, None, Ok, Result, string_bytes, ℕ};
ghost use Rattle.std.specs.Option.{option_copied};
ghost use Rattle.serde_json.specs.View.{view};
ghost use Rattle.deno_semver.specs.ReferenceOutcome.{IsParsedReference, IsReferenceOutcome, IsReferenceRejection, unboxed};
ghost use Rattle.deno_semver.specs.declared.package.reference.PackageReqReference.{PackageReqReference};
ghost use Rattle.answers.specs.Asking.{IsAnswer};
ghost use Rattle.answers.specs.Object.{text_or_null};
ghost use Rattle.package_answers.specs.References.{AreReferenceErrors, IsReference, IsReferenceErrorsText, IsRegistryOf, ReferenceParts, export_of, registry_text, reference_failure, reference_json};
ghost use Rattle.answers.specs.declared.asking.Kind.TheVariants as kind;

use crate::errors::{PackageErrors, Part, errors_text};
use crate::packages::{errors_at, fault_place, package_json, parts_failure, range_errors};
use answers::asking::{Kind, Problem};
use answers::object::{Object, json_text, text_json};
use deno_semver::ParseFailure;
use deno_semver::jsr::{JsrPackageReqReference, normalized_export_name};
use deno_semver::laws::{references_have_one_outcome, requirements_stand_at_one_place};
use deno_semver::npm::NpmPackageReqReference;
use deno_semver::package::{PackageKind, PackageReqReference, PackageReqReferenceParseError};
use semver_req::common::values::Flavour;
use semver_req::laws::{texts_are_rejected_for_one_reason, texts_have_one_list_of_errors};
use serde_json::Value;
use std::alloc::{AllocError, Global};

/// A reference to a package of either registry.
#[derive(Drop)]
pub struct Reference {
    pub kind: PackageKind,
    pub reference: PackageReqReference,
}

impl Reference {
    /// Returns the path, if there is one.
    pub fn path(&self) -> Option<&str>
        ensures { option_copied result ≡ self.now.reference.sub_path }
    {
        match &self.reference.sub_path {
            Some(path) => Some(path.as_str()),
            None => None,
        }
    }

    /// Returns the registry's name.
    pub fn registry(&self) -> &'static str
        ensures { result.now ≡ registry_text self.now.kind }
    {
        registry_name(self.kind)
    }
}

/// The registry's name.
pub(crate) fn registry_name(kind: PackageKind) -> &'static str
    ensures { result.now ≡ registry_text kind }
{
    match kind {
        PackageKind::Jsr => "jsr",
        PackageKind::Npm => "npm",
    }
}

/// For JSR, the export that the path means.
pub(crate) fn export_json(
    alloc: Global,
    kind: PackageKind,
    path: Option<&str>,
) -> Result<Value, AllocError>
    ensures { IfOk result
        (λ json. view json ≡ text_or_null (export_of kind (option_copied path.entry))) }
{
    match kind {
        PackageKind::Jsr => {
            let export = normalized_export_name(alloc, path)?;
            text_json(alloc, export.as_str())
        }
        PackageKind::Npm => Ok(Value::Null),
    }
}

/// Returns the parts of a reference as JSON: its registry, its package, its path or null, and for JSR the export that the
/// path means.
pub fn reference_json(alloc: Global, read: &Reference) -> Result<Value, AllocError>
    ensures { IfOk result (λ json. view json ≡ reference_json read.now) }
{
    Object::new(alloc)
        .put("export", export_json(alloc, read.kind, read.path()))
        .put_text("kind", Some(read.registry()))
        .put("package", package_json(alloc, &read.reference.req))
        .put_text("path", read.path())
        .into_json()
}

/// The registry whose parser parses the text: JSR if the text begins with its scheme, else npm.
pub(crate) fn registry_of(text: &str) -> PackageKind
    ensures { IsRegistryOf text.now result }
{
    match text.strip_prefix("jsr:") {
        Some(_) => PackageKind::Jsr,
        None => PackageKind::Npm,
    }
}

/// Parses a reference to a package of the registry.
pub(crate) fn parse(
    alloc: Global,
    kind: PackageKind,
    text: &str,
) -> Result<PackageReqReference, PackageReqReferenceParseError>
    ensures { IsParsedReference kind text.now result }
{
    match kind {
        PackageKind::Jsr => match JsrPackageReqReference::from_str(alloc, text) {
            Ok(reference) => Ok(reference.into_inner()),
            Err(error) => Err(error),
        },
        PackageKind::Npm => match NpmPackageReqReference::from_str(alloc, text) {
            Ok(reference) => Ok(reference.into_inner()),
            Err(error) => Err(error),
        },
    }
}

/// What is wrong with the text of a reference.
pub(crate) fn reference_failure(
    alloc: Global,
    error: &PackageReqReferenceParseError,
) -> ParseFailure
    ensures { (result ≡ None) ⊎ (result ≡ reference_failure (unboxed error.now)) }
{
    match error {
        PackageReqReferenceParseError::NotExpectedScheme(_) => {
            ParseFailure::with_texts(alloc, "Neither jsr: nor npm: stands in front.", None)
        }
        PackageReqReferenceParseError::Invalid(error) => match error.source.copy() {
            Ok(source) => parts_failure(alloc, source),
            Err(_) => ParseFailure::memory(),
        },
        PackageReqReferenceParseError::InvalidPathWithVersion(error) => {
            let (scheme, suggested) = (error.kind.scheme_with_colon(), &error.suggested);
            match format!(in alloc; "The version stands in the path; write {scheme}{suggested}") {
                Ok(message) => ParseFailure::with_texts(alloc, message.as_str(), None),
                Err(_) => ParseFailure::memory(),
            }
        }
        PackageReqReferenceParseError::Memory => ParseFailure::memory(),
    }
}

/// Parses a reference, to a JSR package if the text begins with `jsr:`, else to an npm package, with the strict grammar for
/// its range.
pub fn read_reference(alloc: Global, text: &str) -> Result<Reference, Problem>
    ensures { IsAnswer (IsReference text.now) (λ read. read) result }
{
    texts_are_rejected_for_one_reason();
    let kind = registry_of(text);
    match parse(alloc, kind, text) {
        Ok(reference) => Ok(Reference { kind, reference }),
        Err(error) => {
            let failure = reference_failure(alloc, &error);
            Err(Problem::of(Kind::Reference, 0, failure))
        }
    }
}

/// Parses a reference, and returns its parts as the text of a JSON object.
pub fn reference_parts(alloc: Global, text: &str) -> Result<String, Problem>
    ensures { IsAnswer (ReferenceParts text.now) (λ text. string_bytes text) result }
{
    let read = read_reference(alloc, text)?;
    Ok(json_text(alloc, reference_json(alloc, &read))?)
}

/// What is wrong with the text of a reference, and where, as for [`package_errors`](crate::packages::package_errors).
pub fn reference_errors(alloc: Global, text: &str) -> Result<PackageErrors, AllocError>
    ensures { IfOk result (AreReferenceErrors text.now) }
{
    let kind = registry_of(text);
    let body = kind.after_scheme(text).unwrap_or("");
    let before = text.len() - body.len();
    match parse(alloc, kind, text) {
        Ok(_reference) => range_errors(alloc, Flavour::Specifier, before, body),
        Err(error) => {
            // Where the error is, and which part is missing there; `None` if the range is invalid.
            let place = match &error {
                PackageReqReferenceParseError::NotExpectedScheme(_) => {
                    Some((0, Some(Part::Scheme)))
                }
                PackageReqReferenceParseError::Invalid(error) => {
                    match fault_place(body, &error.source) {
                        Some((place, missing)) => Some((before + place, missing)),
                        None => None,
                    }
                }
                PackageReqReferenceParseError::InvalidPathWithVersion(_) => {
                    match text.rsplit_once('@') {
                        Some((path, _version)) => Some((path.len(), None)),
                        None => None,
                    }
                }
                PackageReqReferenceParseError::Memory => None,
            };
            let failure = reference_failure(alloc, &error);
            errors_at(alloc, place, failure, Flavour::Specifier, before, body)
        }
    }
}

/// Returns those errors as the text of a JSON array.
pub fn reference_errors_text(alloc: Global, text: &str) -> Result<String, AllocError>
    ensures is { IfOk result (λ json. IsReferenceErrorsText text.now (string_bytes json)) }
    ensures only { (other : List ℕ) → IsReferenceErrorsText text.now other
        → IfOk result (λ json. string_bytes json ≡ other) }
{
    texts_are_rejected_for_one_reason();
    texts_have_one_list_of_errors();
    requirements_stand_at_one_place();
    references_have_one_outcome();
    let errors = reference_errors(alloc, text)?;
    errors_text(alloc, text.len(), &errors)
}
