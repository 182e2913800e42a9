//! Questions about the step from one version to another, as node-semver asks them.

ghost use Rattle.std.specs.Prelude.{◌≡◌, IfOk, string_bytes};
ghost use Rattle.answers.specs.Asking.{IsAnswer};
ghost use Rattle.answers.specs.Steps.{Differs, Increments, IsPreText};

use crate::asking::{Kind, Problem};
use crate::questions::text_of_version;
use crate::reading::version;
use node_semver::difference::difference as kind_of_step;
use node_semver::identifiers;
use node_semver::increment::{self, Base, IncrementError};
use node_semver::release_type::ReleaseType;
use semver_base::failure::ParseFailure;
use semver_base::string::CowVec;
use semver_base::version::VersionPreOrBuild;
use std::alloc::Global;

// Parses the identifiers of a pre-release.
fn identifiers_of(alloc: Global, text: &str) -> Result<CowVec<VersionPreOrBuild>, Problem>
    ensures { IsAnswer (IsPreText text.now) (λ identifiers. identifiers) result }
{
    match identifiers::identifiers(alloc, text) {
        Ok(identifiers) => Ok(identifiers),
        Err(failure) => Err(Problem::of(Kind::Step, 0, failure)),
    }
}

/// What is the next version of this kind, as displayed? A pre-release begins with the identifiers and a number.
pub fn incremented(
    alloc: Global,
    release_type: ReleaseType,
    version_text: &str,
    identifiers_text: &str,
    base: Base,
) -> Result<String, Problem>
    ensures { IsAnswer (Increments release_type base version_text.now identifiers_text.now)
        (λ text. string_bytes text) result }
{
    let version = version(alloc, 0, version_text)?;
    let identifiers = identifiers_of(alloc, identifiers_text)?;
    match increment::increment(alloc, &version, release_type, &identifiers, base) {
        Ok(next) => Ok(text_of_version(alloc, &next)?),
        Err(IncrementError::OutOfMemory) => Err(Problem::OutOfMemory),
        Err(IncrementError::Refused(why)) => {
            let failure = ParseFailure::with_texts(alloc, why.message(), None);
            Err(Problem::of(Kind::Step, 0, failure))
        }
    }
}

/// Of which kind is the step between the two versions? There is none if they have the same precedence.
pub fn difference(
    alloc: Global,
    one_text: &str,
    other_text: &str,
) -> Result<Option<ReleaseType>, Problem>
    ensures { IsAnswer (Differs one_text.now other_text.now) (λ kind. kind) result }
{
    let one = version(alloc, 0, one_text)?;
    let other = version(alloc, 1, other_text)?;
    Ok(kind_of_step(&one, &other))
}
