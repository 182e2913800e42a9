//! Laws of equality, and of what texts and JSON parse to, each as the contract of a call.
//!
//! `==` of each type in this crate holds exactly if the two values are the same, as contracts see them; of package
//! requirements, if the names are the same and the version requirements mean the same. A caller whose proof needs this calls
//! `Same::is_same` of `semver_base`, or a function here, in place of `==`. Equal values hash alike: `equal_hash_alike` of
//! `semver_base` says so of each type that has `Hash`.

ghost use Rattle.std.specs.Prelude.{◌≡◌, ◌↔◌, IsTrue};
ghost use Rattle.std.proofs.Common.{rules};
ghost use Rattle.deno_semver.specs.Equal.{AreEqualDependencies, AreEqualReferences};
ghost use Rattle.deno_semver.specs.Json.{IsJsonOfRange, IsJsonOfSet, IsJsonOfVersionReq, IsStringOf, IsTextOfDependency, IsTextOfNv, IsTextOfReference, IsTextOfReq, IsTextOfVersion};
ghost use Rattle.deno_semver.specs.OneOutcome.{DependenciesHaveOneOutcome, NamesWithVersionsHaveOneOutcome, PackageTextsHaveOneCut, PackageTextsHaveOneOutcome, ReferencesHaveOneOutcome, ParsesToOne, VersionReferencesHaveOneOutcome};
ghost use Rattle.deno_semver.specs.PackagePlaces.{RequirementsStandAtOnePlace};
ghost use Rattle.deno_semver.specs.ReferenceOutcome.{unboxed};
ghost use Rattle.deno_semver.specs.Sameness.{nv_reference_reported, nv_reported};
ghost use Rattle.deno_semver.specs.Stored.{StoredRequirementsAreReadAgain};
ghost use Rattle.deno_semver.specs.StoredList.{IsJsonOfReqs};
ghost use Rattle.deno_semver.specs.declared.package.values.PackageKind.{PackageKind};

use crate::json::JsonError;
use crate::jsr::JsrDepPackageReq;
use crate::package::{
    PackageKind, PackageNv, PackageNvReference, PackageReq, PackageReqPartsParseError,
    PackageReqReference, PackageReqReferenceInvalidParseError,
    PackageReqReferenceInvalidWithVersionParseError, PackageReqReferenceParseError,
    RegistryNvReference, RegistryReqReference, SpecifierError,
};
use semver_base::laws::{Same, version_texts_have_one_outcome};
use semver_req::laws::{
    normal_texts_keep_their_meaning, one_rereading_stabilizes, read_requirements_are_answers,
    requirements_hold_no_separator, star_is_any_version, tags_read_back, texts_have_one_outcome,
};

impl Same for PackageKind {
    ghost decides = { Prim.search rules };
}

impl Same for PackageNv {
    ghost decides = { nv_reported };
}

impl Same for PackageNvReference {
    ghost decides = { nv_reference_reported };
}

impl<R> Same for RegistryNvReference<R> {
    ghost decides = { nv_reference_reported };
}

impl Same for PackageReqPartsParseError {
    ghost decides = { Prim.search rules };
}

impl Same for PackageReqReferenceInvalidParseError {
    ghost decides = { Prim.search rules };
}

impl Same for PackageReqReferenceInvalidWithVersionParseError {
    ghost decides = { Prim.search rules };
}

impl Same for SpecifierError {
    ghost decides = { Prim.search rules };
}

impl Same for JsonError {
    ghost decides = { Prim.search rules };
}

/// Whether two package requirements are equal: their names are the same and they mean the same, whatever texts they were
/// parsed from.
pub fn equal_package_requirements(one: &PackageReq, other: &PackageReq) -> bool
    ensures { IsTrue result
        ↔ ((one.now.name ≡ other.now.name) × (one.now.version_req.inner ≡ other.now.version_req.inner)) }
{
    one == other
}

/// Whether two references are equal: their package requirements are equal, and their paths are the same.
pub fn equal_references(one: &PackageReqReference, other: &PackageReqReference) -> bool
    ensures { IsTrue result ↔ AreEqualReferences one.now other.now }
{
    one == other
}

/// Whether two references to packages of a registry are equal.
pub fn equal_registry_references<R>(
    one: &RegistryReqReference<R>,
    other: &RegistryReqReference<R>,
) -> bool
    ensures { IsTrue result ↔ AreEqualReferences one.now other.now }
{
    one == other
}

/// Whether two dependencies are equal: their registries are the same, and their package requirements are equal.
pub fn equal_dependencies(one: &JsrDepPackageReq, other: &JsrDepPackageReq) -> bool
    ensures { IsTrue result ↔ AreEqualDependencies one.now other.now }
{
    one == other
}

/// Whether two reference errors are the same, wherever their boxes lie.
pub fn same_reference_errors(
    one: &PackageReqReferenceParseError,
    other: &PackageReqReferenceParseError,
) -> bool
    ensures { IsTrue result ↔ (unboxed one.now ≡ unboxed other.now) }
{
    one == other
}

/// A text splits as the text of a package in at most one way.
pub fn package_texts_have_one_cut()
    ensures { PackageTextsHaveOneCut }
{}

/// The version requirement in the text of a package stands at one place.
pub fn requirements_stand_at_one_place()
    ensures { RequirementsStandAtOnePlace }
{}

/// A text has at most one outcome as the text of a package, with each of the three grammars of versions: never two package
/// requirements, nor one and a fault, nor two faults.
pub fn package_texts_have_one_outcome()
    ensures { PackageTextsHaveOneOutcome }
{
    texts_have_one_outcome();
}

/// A text has at most one outcome as a reference to a package of either registry.
pub fn references_have_one_outcome()
    ensures { ReferencesHaveOneOutcome }
{
    texts_have_one_outcome();
}

/// The text of a JSR package's dependency parses to one dependency or has one first fault, never two and never both.
pub fn dependencies_have_one_outcome()
    ensures { DependenciesHaveOneOutcome }
{
    package_texts_have_one_outcome();
}

/// A text parses to one name with a version or has one parse error, never two and never both.
pub fn names_with_versions_have_one_outcome()
    ensures { NamesWithVersionsHaveOneOutcome }
{
    version_texts_have_one_outcome();
}

/// A text has at most one outcome as a reference to a version of either registry.
pub fn version_references_have_one_outcome()
    ensures { VersionReferencesHaveOneOutcome }
{
    version_texts_have_one_outcome();
}

/// JSON parses to at most one version, one range, and one set of ranges.
pub fn json_parses_to_one_range()
    ensures versions { ParsesToOne (IsStringOf IsTextOfVersion) }
    ensures ranges { ParsesToOne IsJsonOfRange }
    ensures sets { ParsesToOne IsJsonOfSet }
{
    version_texts_have_one_outcome();
}

/// JSON parses to at most one version requirement, one package requirement, one list of these, one name with a version, one
/// reference to a version of a registry, and one dependency. Which list an array parses to is unspecified where the order
/// leaves equal ones.
pub fn json_parses_to_one_value()
    ensures requirements { ParsesToOne IsJsonOfVersionReq }
    ensures package_requirements { ParsesToOne (IsStringOf IsTextOfReq) }
    ensures lists { ParsesToOne IsJsonOfReqs }
    ensures names_with_versions { ParsesToOne (IsStringOf IsTextOfNv) }
    ensures references { (kind : PackageKind) → ParsesToOne (IsStringOf (IsTextOfReference kind)) }
    ensures dependencies { ParsesToOne (IsStringOf IsTextOfDependency) }
{
    texts_have_one_outcome();
    package_texts_have_one_outcome();
    names_with_versions_have_one_outcome();
    version_references_have_one_outcome();
    dependencies_have_one_outcome();
}

/// The JSON of a package requirement parsed by npm's grammar parses to one with the same name and the same tag, or ranges
/// that match the same versions if each of the first ones keeps its meaning; its own JSON parses to an equal one.
pub fn stored_requirements_are_read_again()
    ensures { StoredRequirementsAreReadAgain }
{
    normal_texts_keep_their_meaning();
    one_rereading_stabilizes();
    tags_read_back();
    read_requirements_are_answers();
    requirements_hold_no_separator();
    star_is_any_version();
}
