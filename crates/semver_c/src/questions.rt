//! Questions that take several steps, and questions about the values that handles hold.

ghost use Rattle.std.specs.Prelude.{◌≡◌, IfOk, is_some, string_bytes};
ghost use Rattle.std.specs.Cow.{cow_str_bytes};
ghost use Rattle.std.specs.Option.{option_copied, option_map};
ghost use Rattle.semver_base.specs.SortKey.{sort_key};
ghost use Rattle.semver_base.specs.VersionText.{version_text};
ghost use Rattle.semver_req.specs.Requirement.{inner_text, tag_of};
ghost use Rattle.answers.specs.Filtering.{list_answer, list_matches};
ghost use Rattle.answers.specs.Questions.{Orders, match_of};
ghost use Rattle.answers.specs.Sorting.{SortedLines};
ghost use Rattle.package_answers.specs.Packages.{IsPackage};
ghost use Rattle.answers.specs.Steps.{Differs};
ghost use Rattle.answers.specs.declared.sorting.Order.TheVariants.{Ascending};
ghost use Rattle.answers.specs.Reading.{IsVersionAt};
ghost use Rattle.semver_c.specs.Arguments.{IsCallAnswer, IsCallOutcome, pre_release_by};
ghost use Rattle.semver_c.specs.Codes.{match_code};
ghost use Rattle.semver_c.specs.Held.{IsHeldBest, OfHeld, of_both, of_one};
ghost use Rattle.semver_c.specs.Questions.{BestLine, ByOne, CoercesTo, CommonBy, CommonOfAll, ErrorsBy, ExportNameOf, Filters, IncrementBy, LowestBy, MatchesHeld, NumbersOf, OfText, OfTexts, PackageErrorsBy, RangeBy, ReferenceErrorsOf, SimplifiesBy, SortsOf, TagBy, VersionErrorOf, VersionListOf};

use crate::arguments::{
    Problem, base_of, direction_of, line_list, parts, pre_release, release_type_of, text_of,
    with_text, with_texts,
};
use crate::codes::Code;
use answers::asking::Answer;
use answers::errors::{errors_of_range, version_error};
use answers::filtering::{self, list_best, list_matches, version_lines};
use answers::questions::{Best, End, best_match, common_version, order, text_of_version};
use answers::reading::{range, version};
use answers::simplifying::simplified;
use answers::sorting::{self, Order, sort};
use answers::steps::{difference, incremented};
use deno_semver::jsr::normalized_export_name;
use deno_semver::package::PackageReq;
use deno_semver::{PreRelease, Version, VersionReq};
use node_semver::coerce::coerce;
use node_semver::release_type::ReleaseType;
use package_answers::packages::{package_errors_text, read_package};
use package_answers::references::reference_errors_text;
use std::alloc::Global;
use std::borrow::CowStr;
use std::cmp::Ordering;

/// What is wrong with the range, and where?
pub fn errors_of(alloc: Global, grammar: u32, range: &[u8]) -> Result<String, Problem>
    ensures { IsCallAnswer (ErrorsBy grammar range.now) string_bytes result }
{
    let given = with_text(grammar, range)?;
    errors_of_range(alloc, given.flavour, given.text).map_err(Problem::from)
}

/// What is wrong with the package, and where?
pub fn package_errors_of(alloc: Global, grammar: u32, bytes: &[u8]) -> Result<String, Problem>
    ensures { IsCallAnswer (PackageErrorsBy grammar bytes.now)
        string_bytes result }
{
    let given = with_text(grammar, bytes)?;
    package_errors_text(alloc, given.flavour, given.text).map_err(Problem::from)
}

/// What is wrong with the reference, and where?
pub fn reference_errors_of(alloc: Global, reference: &[u8]) -> Result<String, Problem>
    ensures { IsCallAnswer (ReferenceErrorsOf reference.now) string_bytes result }
{
    let text = text_of(reference)?;
    reference_errors_text(alloc, text).map_err(Problem::from)
}

/// Where does the text stop being a version?
pub fn version_error_of(alloc: Global, version: &[u8]) -> Result<usize, Problem>
    ensures { IsCallAnswer (VersionErrorOf version.now) (λ place. place) result }
{
    let text = text_of(version)?;
    version_error(alloc, text).map_err(Problem::from)
}

/// Which of the versions, one per line, match the range?
pub fn filter(
    alloc: Global,
    grammar: u32,
    range: &[u8],
    versions: &[u8],
    pre_releases: u32,
) -> Result<Answer<Vec<Option<bool>>>, Problem>
    ensures { IsCallAnswer (Filters pre_releases grammar range.now versions.now)
        (λ answer. list_answer (λ list. list.items) answer) result }
{
    let given = with_texts(grammar, range, versions)?;
    let lines = line_list(alloc, given.other)?;
    let pre_release = pre_release(pre_releases);
    filtering::filter(
        alloc,
        given.flavour,
        pre_release,
        given.one,
        lines.as_slice(),
    )
    .map_err(Problem::from)
}

/// Which of the versions, one per line, is the highest or lowest that matches the range?
pub fn best_line(
    alloc: Global,
    end: End,
    grammar: u32,
    range: &[u8],
    versions: &[u8],
    pre_releases: u32,
) -> Result<Answer<Option<Best>>, Problem>
    ensures { IsCallAnswer (BestLine end pre_releases grammar range.now versions.now)
        (λ answer. answer) result }
{
    let given = with_texts(grammar, range, versions)?;
    let lines = line_list(alloc, given.other)?;
    let pre_release = pre_release(pre_releases);
    best_match(
        alloc,
        end,
        given.flavour,
        pre_release,
        given.one,
        lines.as_slice(),
    )
    .map_err(Problem::from)
}

/// What is a short range that matches the same versions of the list, one per line?
pub fn simplified_of(
    alloc: Global,
    grammar: u32,
    range: &[u8],
    versions: &[u8],
    pre_releases: u32,
) -> Result<Answer<String>, Problem>
    ensures { IsCallAnswer (SimplifiesBy pre_releases grammar range.now versions.now)
        (λ answer. list_answer string_bytes answer) result }
{
    let given = with_texts(grammar, range, versions)?;
    let lines = line_list(alloc, given.other)?;
    let pre_release = pre_release(pre_releases);
    simplified(
        alloc,
        given.flavour,
        pre_release,
        given.one,
        lines.as_slice(),
    )
    .map_err(Problem::from)
}

/// In which order do the versions stand, one per line?
pub fn sorted_lines(alloc: Global, versions: &[u8]) -> Result<Vec<usize>, Problem>
    ensures { IsCallAnswer (SortsOf versions.now) (λ places. places.items) result }
{
    let text = text_of(versions)?;
    let lines = line_list(alloc, text)?;
    sort(alloc, lines.as_slice(), Order::Ascending).map_err(Problem::from)
}

/// What is the next version of this kind?
pub fn increment_of(
    alloc: Global,
    release_type: u32,
    version: &[u8],
    identifiers: &[u8],
    base: u32,
) -> Result<String, Problem>
    ensures { IsCallAnswer (IncrementBy release_type version.now identifiers.now base)
        string_bytes result }
{
    let release_type = release_type_of(release_type)?;
    let base = base_of(base)?;
    let version = text_of(version)?;
    let identifiers = text_of(identifiers)?;
    incremented(alloc, release_type, version, identifiers, base).map_err(Problem::from)
}

/// Which version does the text hold?
pub fn coerced_of(
    alloc: Global,
    direction: u32,
    bytes: &[u8],
    pre_releases: u32,
) -> Result<Answer<Option<Version>>, Problem>
    ensures { IsCallAnswer (CoercesTo direction bytes.now pre_releases) (λ answer. answer) result }
{
    let direction = direction_of(direction)?;
    let text = text_of(bytes)?;
    match coerce(alloc, text, direction, parts(pre_releases)) {
        Ok(found) => Ok(Answer::Value(found)),
        Err(error) => Err(Problem::from(error)),
    }
}

/// Of which kind is the step between the two versions?
pub fn difference_of(
    alloc: Global,
    one: &[u8],
    other: &[u8],
) -> Result<Option<ReleaseType>, Problem>
    ensures { IsCallAnswer (OfTexts one.now other.now Differs) (λ kind. kind) result }
{
    let one = text_of(one)?;
    let other = text_of(other)?;
    difference(alloc, one, other).map_err(Problem::from)
}

/// Which of the two versions comes before the other?
pub fn order_of(alloc: Global, one: &[u8], other: &[u8]) -> Result<Ordering, Problem>
    ensures { IsCallAnswer (OfTexts one.now other.now Orders) (λ order. order) result }
{
    let one = text_of(one)?;
    let other = text_of(other)?;
    order(alloc, one, other).map_err(Problem::from)
}

/// What is the lowest version that the range matches?
pub fn lowest(
    alloc: Global,
    grammar: u32,
    range: &[u8],
    pre_releases: u32,
) -> Result<Answer<Option<Version>>, Problem>
    ensures { IsCallAnswer (LowestBy pre_releases grammar range.now) (λ answer. answer) result }
{
    let given = with_text(grammar, range)?;
    let pre_release = pre_release(pre_releases);
    common_version(alloc, given.flavour, pre_release, &[given.text]).map_err(Problem::from)
}

/// What is the lowest version that both ranges match?
pub fn common(
    alloc: Global,
    grammar: u32,
    one: &[u8],
    other: &[u8],
    pre_releases: u32,
) -> Result<Answer<Option<Version>>, Problem>
    ensures { IsCallAnswer (CommonBy pre_releases grammar one.now other.now)
        (λ answer. answer) result }
{
    let given = with_texts(grammar, one, other)?;
    let pre_release = pre_release(pre_releases);
    common_version(alloc, given.flavour, pre_release, &[given.one, given.other]).map_err(
        Problem::from,
    )
}

/// What is the lowest version that all of the ranges match, one per line?
pub fn common_of_all(
    alloc: Global,
    grammar: u32,
    ranges: &[u8],
    pre_releases: u32,
) -> Result<Answer<Option<Version>>, Problem>
    ensures { IsCallAnswer (CommonOfAll pre_releases grammar ranges.now)
        (λ answer. answer) result }
{
    let given = with_text(grammar, ranges)?;
    let lines = line_list(alloc, given.text)?;
    let pre_release = pre_release(pre_releases);
    common_version(alloc, given.flavour, pre_release, lines.as_slice()).map_err(Problem::from)
}

/// Whether the range is a tag.
pub fn is_tag(range: &VersionReq) -> bool
    ensures { result ≡ is_some (tag_of range.now.inner) }
{
    range.tag().is_some()
}

/// Is the range a tag?
pub fn names_tag(alloc: Global, grammar: u32, bytes: &[u8]) -> Result<bool, Problem>
    ensures { IsCallAnswer (TagBy grammar bytes.now) (λ answer. answer) result }
{
    let given = with_text(grammar, bytes)?;
    let range = range(alloc, given.flavour, 0, given.text)?;
    Ok(is_tag(&range))
}

/// What is the name of the export that the path means?
pub fn export_name_of<'a>(alloc: Global, bytes: &'a [u8]) -> Result<CowStr<'a, Global>, Problem>
    ensures { IsCallAnswer (ExportNameOf bytes.now) (λ name. cow_str_bytes name) result }
{
    let text = text_of(bytes)?;
    normalized_export_name(alloc, Some(text)).map_err(Problem::from)
}

/// A range, with its canonical form.
#[derive(Drop)]
pub struct ReadRange {
    pub range: VersionReq,
    pub canonical: String,
}

/// Parses a range.
pub fn read_range(alloc: Global, grammar: u32, bytes: &[u8]) -> Result<ReadRange, Problem>
    ensures answer { IsCallAnswer (RangeBy grammar bytes.now) (λ read. read.range) result }
    ensures canonical { IfOk result
        (λ read. string_bytes read.canonical ≡ inner_text read.range.inner) }
{
    let given = with_text(grammar, bytes)?;
    let range = range(alloc, given.flavour, 0, given.text)?;
    let canonical = range.to_string_normalized(alloc)?;
    Ok(ReadRange { range, canonical })
}

/// Parses a package.
pub fn read_package_of(alloc: Global, grammar: u32, bytes: &[u8]) -> Result<PackageReq, Problem>
    ensures { IsCallAnswer (ByOne grammar bytes.now IsPackage) (λ req. req) result }
{
    let given = with_text(grammar, bytes)?;
    read_package(alloc, given.flavour, given.text).map_err(Problem::from)
}

/// A version, with its text as displayed.
#[derive(Drop)]
pub struct ReadVersion {
    pub version: Version,
    pub displayed: String,
}

/// Parses a version.
pub fn read_version(alloc: Global, bytes: &[u8]) -> Result<ReadVersion, Problem>
    ensures answer { IsCallAnswer (OfText bytes.now (IsVersionAt 0)) (λ read. read.version) result }
    ensures displayed { IfOk result
        (λ read. string_bytes read.displayed ≡ version_text read.version) }
{
    let text = text_of(bytes)?;
    let version = version(alloc, 0, text)?;
    let displayed = text_of_version(alloc, &version)?;
    Ok(ReadVersion { version, displayed })
}

/// The three numbers of a version, and whether it has neither a pre-release nor a build.
#[derive(Clone, Copy)]
pub struct Numbers {
    pub major: u64,
    pub minor: u64,
    pub patch: u64,
    pub is_unqualified: bool,
}

/// What are the numbers of the version?
pub fn numbers_of(alloc: Global, bytes: &[u8]) -> Result<Numbers, Problem>
    ensures { IsCallAnswer (NumbersOf bytes.now) (λ numbers. numbers) result }
{
    let text = text_of(bytes)?;
    let version = version(alloc, 0, text)?;
    Ok(Numbers {
        major: version.major,
        minor: version.minor,
        patch: version.patch,
        is_unqualified: version.pre.is_empty() && version.build.is_empty(),
    })
}

/// Parses several versions, one per line.
pub fn read_list(alloc: Global, bytes: &[u8]) -> Result<Vec<Option<Version>>, Problem>
    ensures { IsCallAnswer (VersionListOf bytes.now) (λ list. list.items) result }
{
    let text = text_of(bytes)?;
    let lines = line_list(alloc, text)?;
    version_lines(alloc, lines.as_slice()).map_err(Problem::from)
}

// ---- of values that handles hold

/// What is the canonical form of the range?
pub fn canonical_held(alloc: Global, range: Option<&VersionReq>) -> Result<String, Problem>
    ensures { IsCallOutcome (of_one (λ req. inner_text req.inner) (option_copied range.entry))
        string_bytes result }
{
    match range {
        Some(range) => range.to_string_normalized(alloc).map_err(Problem::from),
        None => Err(Problem::NoValue),
    }
}

/// How is the version displayed?
pub fn displayed_held(alloc: Global, version: Option<&Version>) -> Result<String, Problem>
    ensures { IsCallOutcome (of_one version_text (option_copied version.entry))
        string_bytes result }
{
    match version {
        Some(version) => text_of_version(alloc, version).map_err(Problem::from),
        None => Err(Problem::NoValue),
    }
}

/// What is the sort key of the version?
pub fn key_held(alloc: Global, version: Option<&Version>) -> Result<String, Problem>
    ensures { IsCallOutcome (of_one sort_key (option_copied version.entry)) string_bytes result }
{
    match version {
        Some(version) => version.sort_key(alloc).map_err(Problem::from),
        None => Err(Problem::NoValue),
    }
}

/// Which of the versions match the range?
pub fn filter_held(
    alloc: Global,
    lines: Option<&[Option<Version>]>,
    range: Option<&VersionReq>,
    pre_releases: u32,
) -> Result<Answer<Vec<Option<bool>>>, Problem>
    ensures { IsCallOutcome
        (of_both (λ lines req. list_matches (pre_release_by pre_releases) req.inner lines)
        (option_copied lines.entry) (option_copied range.entry))
        (λ answer. list_answer (λ list. list.items) answer) result }
{
    let (Some(lines), Some(range)) = (lines, range) else {
        return Err(Problem::NoValue);
    };
    list_matches(alloc, pre_release(pre_releases), range, lines).map_err(Problem::from)
}

/// Which of the versions at this end of the order matches the range? Its place is stored.
pub fn best_held(
    end: End,
    lines: Option<&[Option<Version>]>,
    range: Option<&VersionReq>,
    pre_releases: u32,
    place: &mut usize,
) -> Code
    ensures { IsHeldBest end pre_releases (option_copied lines.entry) (option_copied range.entry)
        place.old place.new result }
{
    let (Some(lines), Some(range)) = (lines, range) else {
        return Code::NoValue;
    };
    if let Some(_) = range.tag() {
        return Code::Tag;
    }
    match list_best(end, pre_release(pre_releases), range, lines) {
        Some(found) => {
            *place = found;
            Code::Yes
        }
        None => Code::No,
    }
}

/// In which order do the versions stand?
pub fn sorted_held(alloc: Global, lines: Option<&[Option<Version>]>) -> Result<Vec<usize>, Problem>
    ensures { IsCallAnswer (OfHeld (SortedLines Ascending) (option_copied lines.entry))
        (λ places. places.items) result }
{
    match lines {
        Some(lines) => sorting::sorted_lines(alloc, lines, Order::Ascending).map_err(Problem::from),
        None => Err(Problem::NoValue),
    }
}

/// The code of whether the version matches the range.
pub fn match_code(range: &VersionReq, version: &Version, pre_release: PreRelease) -> Code
    ensures { result ≡ match_code (match_of pre_release range.now.inner version.now) }
{
    match range.tag() {
        Some(_) => Code::Tag,
        None => Code::of_bool(range.matches_with(version, pre_release)),
    }
}

/// The code of whether the version in the bytes matches the range.
pub fn matches_held(
    alloc: Global,
    range: Option<&VersionReq>,
    bytes: &[u8],
    pre_releases: u32,
) -> Result<Code, Problem>
    ensures { IsCallAnswer (OfHeld (λ req. MatchesHeld pre_releases req bytes.now)
        (option_copied range.entry)) (λ code. code) result }
{
    let Some(range) = range else {
        return Err(Problem::NoValue);
    };
    let text = text_of(bytes)?;
    let version = version(alloc, 0, text)?;
    Ok(match_code(range, &version, pre_release(pre_releases)))
}
