//! How the text of a package is split.

ghost use Rattle.std.specs.Prelude.{◌≡◌, IfErr, IfNone, IfOk, IfSome};
ghost use Rattle.std.specs.Option.{option_copied};
ghost use Rattle.semver_base.specs.Characters.{slash};
ghost use Rattle.semver_base.specs.Grammar.{CutsRun, Stops};
ghost use Rattle.deno_semver.specs.Cuts.{is_not};
ghost use Rattle.deno_semver.specs.PackagePlaces.{IsRequirementAt, LacksRequirement};
ghost use Rattle.deno_semver.specs.PackageSteps.{IsCut, IsUncut};
ghost use Rattle.deno_semver.specs.PackageText.{IsNamePart, IsPathPart, starts_with_at, without_slash};

use super::errors::PackageReqPartsParseError;
use semver_base::lexical::after;

/// The parts of a package's text.
#[derive(Clone, Copy)]
pub(crate) struct Cut<'a> {
    // The name, preceded by the scope and `/` if there is one.
    pub(crate) name: &'a str,
    pub(crate) version: Option<&'a str>,
    // What follows the name and version: nothing, or a `/` and the path.
    pub(crate) tail: &'a str,
    pub(crate) path: &'a str,
}

/// The text without one leading `/`.
pub(crate) fn without_slash(text: &str) -> &str
    ensures { result.now ≡ without_slash text.now }
{
    match after(text, '/') {
        Some(rest) => rest,
        None => text,
    }
}

// The text before the first `/`, and the rest from that `/` on.
fn segment_and_rest(text: &str) -> (&str, &str)
    ensures { CutsRun (is_not slash) text.now result.0.now result.1.now }
{
    match text.find('/') {
        Some(at) => text.split_at(at),
        None => (text, ""),
    }
}

// What follows the leading `/`, or nothing.
fn path_of(tail: &str) -> &str
    ensures { Stops (is_not slash) tail.now → IsPathPart tail.now result.now }
{
    match after(tail, '/') {
        Some(path) => path,
        None => "",
    }
}

// The texts before and after the last `@`.
fn name_and_version(last: &str) -> (&str, Option<&str>)
    ensures { IsNamePart last.now result.0.now (option_copied result.1) }
{
    match last.rsplit_once('@') {
        Some((name, version)) => (name, Some(version)),
        None => (last, None),
    }
}

/// Whether the text begins with `@`.
pub(crate) fn starts_with_at(text: &str) -> bool
    ensures { result ≡ starts_with_at text.now }
{
    match text.as_bytes().first() {
        Some(first) => *first == b'@',
        None => false,
    }
}

/// The parts of a package's text, or which part is missing.
pub(crate) fn parts_of(text: &str) -> Result<Cut<'_>, PackageReqPartsParseError>
    ensures cut { IfOk result (λ c. IsCut text.now c.name.now (option_copied c.version)
        c.tail.now c.path.now) }
    ensures uncut { IfErr result (IsUncut text.now) }
{
    let body = without_slash(text);
    let (first, tail) = segment_and_rest(body);
    if first.is_empty() {
        return Err(PackageReqPartsParseError::NoPackageName);
    }
    if !starts_with_at(first) {
        let (name, version) = name_and_version(first);
        return Ok(Cut {
            name,
            version,
            tail,
            path: path_of(tail),
        });
    }
    let (last, tail) = segment_and_rest(path_of(tail));
    if last.is_empty() {
        return Err(PackageReqPartsParseError::InvalidPackageName);
    }
    let (name, version) = name_and_version(last);
    let (name, _) = body.split_at(first.len() + 1 + name.len());
    Ok(Cut {
        name,
        version,
        tail,
        path: path_of(tail),
    })
}

/// Returns the text of the version requirement in a package's text, and the index at which it begins; `None` if there is none.
///
/// It follows the last `@` of the name, and ends before the next `/`.
pub fn version_req_text(text: &str) -> Option<(usize, &str)>
    ensures requirement { IfSome result (λ r. IsRequirementAt text.now r.0 r.1.now) }
    ensures none { IfNone result (LacksRequirement text.now) }
{
    let Ok(cut) = parts_of(text) else {
        return None;
    };
    let Some(version) = cut.version else {
        return None;
    };
    Some((text.len() - cut.tail.len() - version.len(), version))
}
