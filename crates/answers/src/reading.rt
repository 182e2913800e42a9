//! Parsing the arguments of a question.

ghost use Rattle.std.specs.Prelude.{IfOk};
ghost use Rattle.semver_req.specs.Parsers.{AreReadOrTags, IsReadOrTag};
ghost use Rattle.answers.specs.Asking.{Each, IsAnswer};
ghost use Rattle.answers.specs.Reading.{IsRangeAt, IsVersionAt, texts_of};

use crate::asking::{Kind, Problem};
use semver_base::version::Version;
use semver_req::common::values::Flavour;
use semver_req::laws::texts_are_rejected_for_one_reason;
use semver_req::req::VersionReq;
use std::alloc::Global;

/// Parses the range at this place by the grammar.
pub fn range(
    alloc: Global,
    flavour: Flavour,
    place: usize,
    text: &str,
) -> Result<VersionReq, Problem>
    ensures answer { IsAnswer (IsRangeAt flavour place text.now) (λ req. req) result }
    ensures read { IfOk result (λ req. IsReadOrTag req.inner) }
{
    texts_are_rejected_for_one_reason();
    match VersionReq::parse(alloc, text, flavour) {
        Ok(range) => Ok(range),
        Err(failure) => Err(Problem::of(Kind::Range, place, failure)),
    }
}

/// Parses the ranges by the grammar.
pub fn ranges(alloc: Global, flavour: Flavour, texts: &[&str]) -> Result<Vec<VersionReq>, Problem>
    ensures answer { IsAnswer (Each (IsRangeAt flavour) 0 (texts_of texts.now))
        (λ all. all.items) result }
    ensures read { IfOk result (λ all. AreReadOrTags all.items) }
{
    let mut all = Vec::new(alloc);
    for text in texts {
        let range = range(alloc, flavour, all.len(), text)?;
        if all.push(range).is_err() {
            return Err(Problem::OutOfMemory);
        }
    }
    Ok(all)
}

/// Parses the version at this place.
pub fn version(alloc: Global, place: usize, text: &str) -> Result<Version, Problem>
    ensures { IsAnswer (IsVersionAt place text.now) (λ version. version) result }
{
    match Version::parse_standard(alloc, text) {
        Ok(version) => Ok(version),
        Err(error) => Err(Problem::of(Kind::Version, place, error.source)),
    }
}

/// Parses the versions.
pub fn versions(alloc: Global, texts: &[&str]) -> Result<Vec<Version>, Problem>
    ensures { IsAnswer (Each IsVersionAt 0 (texts_of texts.now)) (λ all. all.items) result }
{
    let mut all = Vec::new(alloc);
    for text in texts {
        let version = version(alloc, all.len(), text)?;
        if all.push(version).is_err() {
            return Err(Problem::OutOfMemory);
        }
    }
    Ok(all)
}
