//! Which of several versions match a range, and which of those that were parsed is the best match.

ghost use Rattle.std.specs.Prelude.{◌≡◌, IfErr, IfOk, None};
ghost use Rattle.semver_req.specs.Requirement.{inner_means_with, tag_of};
ghost use Rattle.semver_req.specs.Resolve.{IsBestMatch, IsOnlyMatch};
ghost use Rattle.answers.specs.Asking.{IsAnswer};
ghost use Rattle.answers.specs.Filtering.{Filter, IsLine, VersionLines, better_line, line_answer, line_passes, list_answer, list_matches};
ghost use Rattle.answers.specs.Reading.{texts_of};
ghost use Rattle.answers.specs.declared.asking.Problem.TheVariants as problem;

use crate::asking::{Answer, Problem};
use crate::questions::End;
use crate::reading::{range, version};
use semver_base::range::PreRelease;
use semver_base::version::Version;
use semver_req::common::values::Flavour;
use semver_req::laws::one_walk_finds_the_best;
use semver_req::range_set_or_tag::PackageTag;
use semver_req::req::VersionReq;
use std::alloc::{AllocError, Global};

// The version of a text; none if the text isn't a version.
fn version_line(alloc: Global, place: usize, text: &str) -> Result<Option<Version>, Problem>
    ensures answer { IsAnswer (IsLine (λ v. v) place text.now) (λ line. line) result }
    ensures problem { IfErr result (λ p. p ≡ problem.OutOfMemory) }
{
    match version(alloc, place, text) {
        Ok(version) => Ok(Some(version)),
        Err(Problem::Invalid(_)) => Ok(None),
        Err(Problem::OutOfMemory) => Err(Problem::OutOfMemory),
    }
}

// Whether the version of a line matches the range, which isn't a tag.
fn line_answer(pre_release: PreRelease, range: &VersionReq, line: &Option<Version>) -> Option<bool>
    requires { tag_of range.now.inner ≡ None }
    ensures { result
        ≡ line_answer (λ v. inner_means_with pre_release range.now.inner v) line.now }
{
    match line {
        Some(version) => Some(range.matches_with(version, pre_release)),
        None => None,
    }
}

/// Which of the versions match the range? Of each text the answer is whether its version matches, or none if it isn't a
/// version.
pub fn filter(
    alloc: Global,
    flavour: Flavour,
    pre_release: PreRelease,
    range_text: &str,
    version_texts: &[&str],
) -> Result<Answer<Vec<Option<bool>>>, Problem>
    ensures { IsAnswer
        (Filter pre_release flavour range_text.now (texts_of version_texts.now))
        (λ answer. list_answer (λ list. list.items) answer) result }
{
    let range = range(alloc, flavour, 0, range_text)?;
    if let Some(tag) = range.tag() {
        return Ok(Answer::Tag(PackageTag::from_str(alloc, tag)?));
    }
    let mut answers = Vec::new(alloc);
    for text in version_texts {
        let line = version_line(alloc, answers.len(), text)?;
        let answer = line_answer(pre_release, &range, &line);
        if answers.push(answer).is_err() {
            return Err(Problem::OutOfMemory);
        }
    }
    Ok(Answer::Value(answers))
}

/// Parses several versions, which can then be asked of by many ranges; none for a text that isn't a version. Fails only out of
/// memory.
pub fn version_lines(alloc: Global, texts: &[&str]) -> Result<Vec<Option<Version>>, Problem>
    ensures answer { IsAnswer (VersionLines (texts_of texts.now)) (λ lines. lines.items) result }
    ensures problem { IfErr result (λ p. p ≡ problem.OutOfMemory) }
{
    let mut lines = Vec::new(alloc);
    for text in texts {
        let line = version_line(alloc, lines.len(), text)?;
        if lines.push(line).is_err() {
            return Err(Problem::OutOfMemory);
        }
    }
    Ok(lines)
}

/// Which of the versions that were parsed match the range? Fails only out of memory.
pub fn list_matches(
    alloc: Global,
    pre_release: PreRelease,
    range: &VersionReq,
    lines: &[Option<Version>],
) -> Result<Answer<Vec<Option<bool>>>, AllocError>
    ensures { IfOk result (λ answer. list_answer (λ list. list.items) answer
        ≡ list_matches pre_release range.now.inner lines.now) }
{
    if let Some(tag) = range.tag() {
        return Ok(Answer::Tag(PackageTag::from_str(alloc, tag)?));
    }
    let mut answers = Vec::new(alloc);
    for line in lines {
        answers.push(line_answer(pre_release, range, line))?;
    }
    Ok(Answer::Value(answers))
}

/// Which of the versions that were parsed is at this end of those that match the range, which isn't a tag? Returns its place; of
/// versions equal but for builds, the first.
pub fn list_best(
    end: End,
    pre_release: PreRelease,
    range: &VersionReq,
    lines: &[Option<Version>],
) -> Option<usize>
    requires { tag_of range.now.inner ≡ None }
    ensures best { IsBestMatch (better_line end)
        (line_passes (λ v. inner_means_with pre_release range.now.inner v)) lines.now result }
    ensures only { IsOnlyMatch (better_line end)
        (line_passes (λ v. inner_means_with pre_release range.now.inner v)) lines.now result }
{
    one_walk_finds_the_best::<Option<Version>>();
    let mut best: Option<(usize, &Version)> = None;
    for (place, line) in lines.iter().enumerate() {
        if let Some(version) = line {
            let is_better = range.matches_with(version, pre_release)
                && match best {
                    None => true,
                    Some((_, known)) => end.is_better(version, known),
                };
            if is_better {
                best = Some((place, version));
            }
        }
    }
    match best {
        None => None,
        Some((place, _)) => Some(place),
    }
}
