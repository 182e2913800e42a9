//! The C API: questions as calls over bytes, each a pointer and a length, and values that are held across calls.
//!
//! Each call returns a code: 0 and above for an answer, negative for none ([`codes`]). The grammars are npm's, 0, the
//! normalized one, 1, and the strict one, 2. A text is written to the start of the caller's buffer if it fits, and its length
//! is always stored. A call of several arguments of one kind stores the place of the first that is invalid, counted from 0.
#![tactic(auto)]

ghost use Rattle.std.specs.Prelude.{◌≡◌, IfSome, IsUtf8, None, ℕ, is_some, length, string_bytes};
ghost use Rattle.semver_base.specs.Meaning.{release};
ghost use Rattle.semver_base.specs.Precedence.{precedence_cmp, version_cmp};
ghost use Rattle.semver_base.specs.SortKey.{sort_key};
ghost use Rattle.semver_base.specs.VersionText.{version_text};
ghost use Rattle.semver_req.specs.Requirement.{inner_overlap, inner_text, tag_of};
ghost use Rattle.semver_req.specs.Tag.{is_valid_tag};
ghost use Rattle.deno_semver.specs.ReqOrder.{inner_cmp};
ghost use Rattle.answers.specs.Filtering.{list_matches};
ghost use Rattle.answers.specs.Questions.{Canonical, Displayed, Orders, Overlaps, SortKeyOf, match_of};
ghost use Rattle.answers.specs.Sorting.{SortedLines};
ghost use Rattle.answers.specs.Steps.{Differs};
ghost use Rattle.answers.specs.declared.questions.End.TheVariants as end;
ghost use Rattle.answers.specs.declared.sorting.Order.TheVariants.{Ascending};
ghost use Rattle.node_semver.specs.declared.outside.Side.TheVariants as side;
ghost use Rattle.package_answers.specs.Packages.{IsPackage, PackageParts};
ghost use Rattle.answers.specs.Parts.{RangeParts, VersionParts};
ghost use Rattle.package_answers.specs.Names.{NameWithVersionParts};
ghost use Rattle.package_answers.specs.Specifiers.{DependencyParts, VersionReferenceParts};
ghost use Rattle.answers.specs.Reading.{IsVersionAt};
ghost use Rattle.package_answers.specs.References.{ReferenceParts};
ghost use Rattle.semver_c.specs.Arguments.{pre_release_by};
ghost use Rattle.semver_c.specs.Codes.{IsCode, IsPlaceReply, IsPlaced, IsReply, IsReported, IsUntouched, IsUntouchedWithoutValue, always_yes, as_place, best_code, best_place, bool_code, code_of, filter_code, filter_numbers, lowest_code, lowest_text, match_code, no_place, no_text, number_of, or_message, or_nothing, order_code, text_code, text_of, three_numbers, unqualified_code, yes};
ghost use Rattle.semver_c.specs.Held.{AreHeldScans, IsHeld, IsHeldBest, IsHeldEqual, IsScansCode, OfHeld, of_both, of_one, range_in, scan_at, scan_code, scans_in, version_in, versions_in};
ghost use Rattle.semver_c.specs.Questions.{BestLine, ByOne, ByTwo, CoercesTo, CommonBy, CommonOfAll, EquivalentBy, ErrorsBy, ExplainsBy, ExportNameOf, Filters, Fits, IncrementBy, Lies, LowestBy, MatchesHeld, NumbersOf, OfText, OfTexts, OutsideBy, PackageErrorsBy, RangeBy, ReferenceErrorsOf, SimplifiesBy, SortsOf, TagBy, VersionErrorOf, VersionListOf};
ghost use Rattle.semver_c.specs.declared.codes.Code.{Code};
ghost use Rattle.semver_c.specs.declared.codes.Code.TheVariants as code;

mod arguments;
mod codes;
mod handles;
mod questions;
mod reports;

use answers::explained_json::explain_as_json;
use answers::parts::{range_parts, version_parts};
use answers::questions::{
    End, canonical, displayed, equivalent, lies_outside, matches, overlaps, sort_key,
    version_outside,
};
use arguments::{Problem, ask, pre_release, text_of, with_text, with_texts};
use codes::Code;
use deno_semver::PreRelease;
use deno_semver::npm::is_valid_npm_tag;
use deno_semver::package::cmp_version_reqs;
use handles::{Held, RequirementHandle, ScansHandle, VersionHandle, VersionListHandle};
use node_semver::outside::Side;
use package_answers::names::name_with_version_parts;
use package_answers::packages::package_parts;
use package_answers::references::reference_parts;
use package_answers::specifiers::{dependency_parts, version_reference_parts};
use questions::{
    best_held, best_line, canonical_held, coerced_of, common, common_of_all, difference_of,
    displayed_held, errors_of, export_name_of, filter, filter_held, increment_of, is_tag, key_held,
    lowest, match_code, matches_held, names_tag, numbers_of, order_of, package_errors_of,
    read_list, read_package_of, read_range, read_version, reference_errors_of, simplified_of,
    sorted_held, sorted_lines, version_error_of,
};
use reports::{
    put, put_items, put_place, report_best, report_filter, report_held, report_lowest,
    report_match, report_places, report_problem, report_text, report_text_or_tag,
};
use semver_base::version::release;
use semver_req::laws::equal_requirements;
use std::alloc::Global;
use std::str;

/// Whether the version matches the range: yes, no, or that the range is a tag. Pre-releases match by npm's rule at 0, and
/// wherever they are between the bounds at any other number.
#[unsafe(no_mangle)]
pub extern "C" fn semver_fits(
    alloc: Global,
    grammar: u32,
    range: &[u8],
    version: &[u8],
    pre_releases: u32,
    out: &mut [u8],
    needed: &mut usize,
) -> i32
    ensures { IsReply (Fits pre_releases grammar range.now version.now)
        match_code (or_message no_text) out.old out.new needed.new result }
{
    let answer = ask(
        with_texts(grammar, range, version),
        |given| matches(
            alloc,
            given.flavour,
            pre_release(pre_releases),
            given.one,
            given.other,
        ),
    );
    report_match(answer, out, needed)
}

/// Whether the version is above each version that the range matches: yes, no, or that the range is a tag. Pre-releases match as in
/// `semver_fits`.
#[unsafe(no_mangle)]
pub extern "C" fn semver_above(
    alloc: Global,
    grammar: u32,
    range: &[u8],
    version: &[u8],
    pre_releases: u32,
    out: &mut [u8],
    needed: &mut usize,
) -> i32
    ensures { IsReply (Lies side.Above pre_releases grammar range.now version.now)
        match_code (or_message no_text) out.old out.new needed.new result }
{
    let answer = ask(
        with_texts(grammar, range, version),
        |given| lies_outside(
            alloc,
            Side::Above,
            given.flavour,
            pre_release(pre_releases),
            given.one,
            given.other,
        ),
    );
    report_match(answer, out, needed)
}

/// Whether the version is below each version that the range matches: yes, no, or that the range is a tag. Pre-releases match as in
/// `semver_fits`.
#[unsafe(no_mangle)]
pub extern "C" fn semver_below(
    alloc: Global,
    grammar: u32,
    range: &[u8],
    version: &[u8],
    pre_releases: u32,
    out: &mut [u8],
    needed: &mut usize,
) -> i32
    ensures { IsReply (Lies side.Below pre_releases grammar range.now version.now)
        match_code (or_message no_text) out.old out.new needed.new result }
{
    let answer = ask(
        with_texts(grammar, range, version),
        |given| lies_outside(
            alloc,
            Side::Below,
            given.flavour,
            pre_release(pre_releases),
            given.one,
            given.other,
        ),
    );
    report_match(answer, out, needed)
}

/// The next version of a kind, as displayed: yes. A pre-release begins with the identifiers, which may be empty, and the number
/// of `base`: 0, 1, or none at 2.
#[unsafe(no_mangle)]
pub extern "C" fn semver_increment(
    alloc: Global,
    release_type: u32,
    version: &[u8],
    identifiers: &[u8],
    base: u32,
    out: &mut [u8],
    needed: &mut usize,
) -> i32
    ensures { IsReply (IncrementBy release_type version.now identifiers.now base) always_yes
        (or_message (λ text. text)) out.old out.new needed.new result }
{
    let next = increment_of(alloc, release_type, version, identifiers, base);
    report_text(next, out, needed)
}

/// The version that a text holds, as displayed: yes; or no, if there is none. Of several it is the first at 0, and the one that ends last
/// at 1. Of `pre_releases` 0 takes its numbers alone, and any other number its pre-release and its build, too.
#[unsafe(no_mangle)]
pub extern "C" fn semver_coerce(
    alloc: Global,
    first_or_last: u32,
    text: &[u8],
    pre_releases: u32,
    out: &mut [u8],
    needed: &mut usize,
) -> i32
    ensures { IsReply (CoercesTo first_or_last text.now pre_releases) (lowest_code code.Yes code.No)
        (or_message lowest_text) out.old out.new needed.new result }
{
    let answer = coerced_of(alloc, first_or_last, text, pre_releases);
    report_lowest(alloc, answer, Code::Yes, Code::No, out, needed)
}

/// Of which kind the step between two versions is, in either direction, or that they have the same precedence. With an invalid
/// version `place` is which of the two it is.
#[unsafe(no_mangle)]
pub extern "C" fn semver_difference(
    alloc: Global,
    one: &[u8],
    other: &[u8],
    place: &mut usize,
) -> i32
    ensures code { IsCode (OfTexts one.now other.now Differs) code.Kind result }
    ensures place { IsPlaceReply (OfTexts one.now other.now Differs) no_place
        place.old place.new result }
{
    let answer = difference_of(alloc, one, other);
    put_place(&answer, place);
    let code = match answer {
        Ok(kind) => Code::Kind(kind),
        Err(problem) => problem.code(),
    };
    code.number()
}

/// The order of two versions, builds aside: before, same or after. With an invalid version `place` is which of the two it is.
#[unsafe(no_mangle)]
pub extern "C" fn semver_compare(alloc: Global, one: &[u8], other: &[u8], place: &mut usize) -> i32
    ensures code { IsCode (OfTexts one.now other.now Orders) order_code result }
    ensures place { IsPlaceReply (OfTexts one.now other.now Orders) no_place
        place.old place.new result }
{
    let answer = order_of(alloc, one, other);
    put_place(&answer, place);
    let code = match answer {
        Ok(order) => Code::of_order(order),
        Err(problem) => problem.code(),
    };
    code.number()
}

/// Whether the bounds of two ranges overlap: yes or no. With an invalid range `place` is which of the two it is.
#[unsafe(no_mangle)]
pub extern "C" fn semver_intersects(
    alloc: Global,
    grammar: u32,
    one: &[u8],
    other: &[u8],
    place: &mut usize,
) -> i32
    ensures code { IsCode (ByTwo grammar one.now other.now Overlaps) bool_code result }
    ensures place { IsPlaceReply (ByTwo grammar one.now other.now Overlaps) no_place
        place.old place.new result }
{
    let answer = ask(
        with_texts(grammar, one, other),
        |given| overlaps(alloc, given.flavour, given.one, given.other),
    );
    put_place(&answer, place);
    let code = match answer {
        Ok(overlap) => Code::of_bool(overlap),
        Err(problem) => problem.code(),
    };
    code.number()
}

/// Whether the other range matches each version that the first one matches: yes; no, with the lowest that it doesn't; or that
/// one of them is a tag.
#[unsafe(no_mangle)]
pub extern "C" fn semver_within(
    alloc: Global,
    grammar: u32,
    one: &[u8],
    other: &[u8],
    pre_releases: u32,
    out: &mut [u8],
    needed: &mut usize,
    place: &mut usize,
) -> i32
    ensures answer { IsReply (OutsideBy pre_releases grammar one.now other.now)
        (lowest_code code.No code.Yes) (or_message lowest_text)
        out.old out.new needed.new result }
    ensures place { IsPlaceReply (OutsideBy pre_releases grammar one.now other.now) no_place
        place.old place.new result }
{
    let answer = ask(
        with_texts(grammar, one, other),
        |given| version_outside(
            alloc,
            given.flavour,
            pre_release(pre_releases),
            given.one,
            given.other,
        ),
    );
    put_place(&answer, place);
    report_lowest(alloc, answer, Code::No, Code::Yes, out, needed)
}

/// Whether two ranges match the same versions: yes, no, or that one of them is a tag.
#[unsafe(no_mangle)]
pub extern "C" fn semver_equivalent(
    alloc: Global,
    grammar: u32,
    one: &[u8],
    other: &[u8],
    pre_releases: u32,
    place: &mut usize,
) -> i32
    ensures code { IsCode (EquivalentBy pre_releases grammar one.now other.now) match_code result }
    ensures place { IsPlaceReply (EquivalentBy pre_releases grammar one.now other.now) no_place
        place.old place.new result }
{
    let answer = ask(
        with_texts(grammar, one, other),
        |given| equivalent(
            alloc,
            given.flavour,
            pre_release(pre_releases),
            given.one,
            given.other,
        ),
    );
    put_place(&answer, place);
    let code = match answer {
        Ok(answer) => Code::of_match(&answer),
        Err(problem) => problem.code(),
    };
    code.number()
}

/// The lowest version that both ranges match: yes, with its text; no, if there is none; or that one of them is a tag.
#[unsafe(no_mangle)]
pub extern "C" fn semver_common(
    alloc: Global,
    grammar: u32,
    one: &[u8],
    other: &[u8],
    pre_releases: u32,
    out: &mut [u8],
    needed: &mut usize,
    place: &mut usize,
) -> i32
    ensures answer { IsReply (CommonBy pre_releases grammar one.now other.now)
        (lowest_code code.Yes code.No) (or_message lowest_text)
        out.old out.new needed.new result }
    ensures place { IsPlaceReply (CommonBy pre_releases grammar one.now other.now) no_place
        place.old place.new result }
{
    let answer = common(alloc, grammar, one, other, pre_releases);
    put_place(&answer, place);
    report_lowest(alloc, answer, Code::Yes, Code::No, out, needed)
}

/// The lowest version that all ranges match, one per line, as `semver_common`; no, if there is no line. With an invalid range
/// `place` is its line, counted from 0.
#[unsafe(no_mangle)]
pub extern "C" fn semver_common_all(
    alloc: Global,
    grammar: u32,
    ranges: &[u8],
    pre_releases: u32,
    out: &mut [u8],
    needed: &mut usize,
    place: &mut usize,
) -> i32
    ensures answer { IsReply (CommonOfAll pre_releases grammar ranges.now)
        (lowest_code code.Yes code.No) (or_message lowest_text)
        out.old out.new needed.new result }
    ensures place { IsPlaceReply (CommonOfAll pre_releases grammar ranges.now) no_place
        place.old place.new result }
{
    let answer = common_of_all(alloc, grammar, ranges, pre_releases);
    put_place(&answer, place);
    report_lowest(alloc, answer, Code::Yes, Code::No, out, needed)
}

/// The lowest version that the range matches: yes, with its text; no, if there is none; or that it is a tag.
#[unsafe(no_mangle)]
pub extern "C" fn semver_min_version(
    alloc: Global,
    grammar: u32,
    range: &[u8],
    pre_releases: u32,
    out: &mut [u8],
    needed: &mut usize,
) -> i32
    ensures { IsReply (LowestBy pre_releases grammar range.now)
        (lowest_code code.Yes code.No) (or_message lowest_text)
        out.old out.new needed.new result }
{
    let answer = lowest(alloc, grammar, range, pre_releases);
    report_lowest(alloc, answer, Code::Yes, Code::No, out, needed)
}

/// The canonical form of the range: yes.
#[unsafe(no_mangle)]
pub extern "C" fn semver_normal(
    alloc: Global,
    grammar: u32,
    range: &[u8],
    out: &mut [u8],
    needed: &mut usize,
) -> i32
    ensures { IsReply (ByOne grammar range.now Canonical) always_yes (or_message (λ text. text))
        out.old out.new needed.new result }
{
    let answer = ask(
        with_text(grammar, range),
        |given| canonical(alloc, given.flavour, given.text),
    );
    report_text(answer, out, needed)
}

/// Whether the range is a tag: yes or no.
#[unsafe(no_mangle)]
pub extern "C" fn semver_is_tag(
    alloc: Global,
    grammar: u32,
    range: &[u8],
    out: &mut [u8],
    needed: &mut usize,
) -> i32
    ensures { IsReply (TagBy grammar range.now) bool_code (or_message no_text)
        out.old out.new needed.new result }
{
    match names_tag(alloc, grammar, range) {
        Ok(is_tag) => {
            put("", out, needed);
            Code::of_bool(is_tag).number()
        }
        Err(problem) => report_problem(&problem, out, needed),
    }
}

/// The version as displayed: yes.
#[unsafe(no_mangle)]
pub extern "C" fn semver_version(
    alloc: Global,
    version: &[u8],
    out: &mut [u8],
    needed: &mut usize,
) -> i32
    ensures { IsReply (OfText version.now Displayed) always_yes (or_message (λ text. text))
        out.old out.new needed.new result }
{
    let answer = ask(text_of(version), |text| displayed(alloc, text));
    report_text(answer, out, needed)
}

/// The sort key of the version, whose bytes compare as precedence does: yes.
#[unsafe(no_mangle)]
pub extern "C" fn semver_key(
    alloc: Global,
    version: &[u8],
    out: &mut [u8],
    needed: &mut usize,
) -> i32
    ensures { IsReply (OfText version.now SortKeyOf) always_yes (or_message (λ text. text))
        out.old out.new needed.new result }
{
    let answer = ask(text_of(version), |text| sort_key(alloc, text));
    report_text(answer, out, needed)
}

/// Whether the text may be the tag of a version: yes or no.
#[unsafe(no_mangle)]
pub extern "C" fn semver_may_be_tag(text: &[u8]) -> i32
    ensures tag { IsUtf8 text.now → result ≡ number_of (bool_code (is_valid_tag text.now)) }
    ensures not_utf8 { (IsUtf8 text.now → ⊥) → result ≡ number_of code.NotUtf8 }
{
    match str::from_utf8(text) {
        Ok(text) => Code::of_bool(is_valid_npm_tag(text)).number(),
        Err(_) => Code::NotUtf8.number(),
    }
}

/// Which versions of a list, one per line, match the range: yes, and answer n is that of line n: 1 it matches, 0 it doesn't,
/// -3 the version is invalid; or that the range is a tag. `needed` is the number of lines; if there are more than `answers`
/// holds, `answers` is unchanged. For any code but 1 it is unchanged too.
#[unsafe(no_mangle)]
pub extern "C" fn semver_filter(
    alloc: Global,
    grammar: u32,
    range: &[u8],
    versions: &[u8],
    pre_releases: u32,
    answers: &mut [i8],
    needed: &mut usize,
) -> i32
    ensures answer { IsReply (Filters pre_releases grammar range.now versions.now)
        filter_code (or_nothing filter_numbers)
        answers.old answers.new needed.new result }
    ensures no_answers { IsUntouched answers.old answers.new needed.new result }
{
    let answer = filter(alloc, grammar, range, versions, pre_releases);
    report_filter(alloc, answer, answers, needed)
}

/// Which of several versions, one per line, is the highest that matches the range, the first of equal ones: yes, the one at
/// `place`, counted from 0; no; or that the range is a tag. With an invalid version `place` is its line, with an invalid range
/// 0; for any other code it is unchanged.
#[unsafe(no_mangle)]
pub extern "C" fn semver_best(
    alloc: Global,
    grammar: u32,
    range: &[u8],
    versions: &[u8],
    pre_releases: u32,
    place: &mut usize,
) -> i32
    ensures code { IsCode (BestLine end.Highest pre_releases grammar range.now versions.now)
        best_code result }
    ensures place { IsPlaceReply (BestLine end.Highest pre_releases grammar range.now versions.now)
        best_place place.old place.new result }
{
    let answer = best_line(alloc, End::Highest, grammar, range, versions, pre_releases);
    report_best(answer, place)
}

/// Which of several versions, one per line, is the lowest that matches the range, the first of equal ones: yes, the one at
/// `place`, counted from 0; no; or that the range is a tag. With an invalid version `place` is its line, with an invalid range
/// 0; for any other code it is unchanged.
#[unsafe(no_mangle)]
pub extern "C" fn semver_lowest(
    alloc: Global,
    grammar: u32,
    range: &[u8],
    versions: &[u8],
    pre_releases: u32,
    place: &mut usize,
) -> i32
    ensures code { IsCode (BestLine end.Lowest pre_releases grammar range.now versions.now)
        best_code result }
    ensures place { IsPlaceReply (BestLine end.Lowest pre_releases grammar range.now versions.now)
        best_place place.old place.new result }
{
    let answer = best_line(alloc, End::Lowest, grammar, range, versions, pre_releases);
    report_best(answer, place)
}

/// A short range that matches the same versions of a list, one per line: yes, with its text, which is the range as it is
/// written, or the ranges in which the versions match, in canonical form; or that the range is a tag. With an invalid version
/// `place` is its line.
#[unsafe(no_mangle)]
pub extern "C" fn semver_simplify(
    alloc: Global,
    grammar: u32,
    range: &[u8],
    versions: &[u8],
    pre_releases: u32,
    out: &mut [u8],
    needed: &mut usize,
    place: &mut usize,
) -> i32
    ensures answer { IsReply (SimplifiesBy pre_releases grammar range.now versions.now) text_code
        (or_message text_of) out.old out.new needed.new result }
    ensures place { IsPlaceReply (SimplifiesBy pre_releases grammar range.now versions.now) no_place
        place.old place.new result }
{
    let answer = simplified_of(alloc, grammar, range, versions, pre_releases);
    put_place(&answer, place);
    report_text_or_tag(answer, out, needed)
}

/// The places of several versions, one per line, in the order of precedence: yes. The place of the lowest comes first, places
/// are counted from 0, and versions that differ only in the build keep their order. `needed` is the number of lines; if there
/// are more than places, these stay as they were. With an invalid version `place` is its line.
#[unsafe(no_mangle)]
pub extern "C" fn semver_sort(
    alloc: Global,
    versions: &[u8],
    places: &mut [usize],
    needed: &mut usize,
    place: &mut usize,
) -> i32
    ensures answer { IsReply (SortsOf versions.now) always_yes (or_nothing (λ places. places))
        places.old places.new needed.new result }
    ensures no_places { IsUntouched places.old places.new needed.new result }
    ensures place { IsPlaceReply (SortsOf versions.now) no_place place.old place.new result }
{
    let answer = sorted_lines(alloc, versions);
    put_place(&answer, place);
    report_places(answer, places, needed)
}

/// The parts of a package, as JSON: yes. The grammar is that of its range.
#[unsafe(no_mangle)]
pub extern "C" fn semver_package(
    alloc: Global,
    grammar: u32,
    text: &[u8],
    out: &mut [u8],
    needed: &mut usize,
) -> i32
    ensures { IsReply (ByOne grammar text.now PackageParts) always_yes (or_message (λ text. text))
        out.old out.new needed.new result }
{
    let answer = ask(
        with_text(grammar, text),
        |given| package_parts(alloc, given.flavour, given.text),
    );
    report_text(answer, out, needed)
}

/// The parts of a reference to a JSR or npm package, as JSON: yes. The grammar of its range is the strict one.
#[unsafe(no_mangle)]
pub extern "C" fn semver_reference(
    alloc: Global,
    text: &[u8],
    out: &mut [u8],
    needed: &mut usize,
) -> i32
    ensures { IsReply (OfText text.now ReferenceParts) always_yes (or_message (λ text. text))
        out.old out.new needed.new result }
{
    let answer = ask(text_of(text), |text| reference_parts(alloc, text));
    report_text(answer, out, needed)
}

/// The errors of a package, as JSON: yes. There are none if it is valid and its range has none.
#[unsafe(no_mangle)]
pub extern "C" fn semver_package_errors(
    alloc: Global,
    grammar: u32,
    text: &[u8],
    out: &mut [u8],
    needed: &mut usize,
) -> i32
    ensures { IsReply (PackageErrorsBy grammar text.now) always_yes (or_message (λ text. text))
        out.old out.new needed.new result }
{
    report_text(package_errors_of(alloc, grammar, text), out, needed)
}

/// The errors of a reference, as JSON: yes. There are none if it is valid and its range has none.
#[unsafe(no_mangle)]
pub extern "C" fn semver_reference_errors(
    alloc: Global,
    text: &[u8],
    out: &mut [u8],
    needed: &mut usize,
) -> i32
    ensures { IsReply (ReferenceErrorsOf text.now) always_yes (or_message (λ text. text))
        out.old out.new needed.new result }
{
    report_text(reference_errors_of(alloc, text), out, needed)
}

/// The parts of a version, as JSON: yes.
#[unsafe(no_mangle)]
pub extern "C" fn semver_version_parts(
    alloc: Global,
    version: &[u8],
    out: &mut [u8],
    needed: &mut usize,
) -> i32
    ensures { IsReply (OfText version.now VersionParts) always_yes (or_message (λ text. text))
        out.old out.new needed.new result }
{
    let answer = ask(text_of(version), |text| version_parts(alloc, text));
    report_text(answer, out, needed)
}

/// The three numbers of a version: yes, if it has neither a pre-release nor a build, or no, if it has one. Then `needed` is 3; if there
/// is room for fewer, `numbers` stays as it was, as it does for any other code.
#[unsafe(no_mangle)]
pub extern "C" fn semver_version_numbers(
    alloc: Global,
    version: &[u8],
    numbers: &mut [u64],
    needed: &mut usize,
) -> i32
    ensures answer { IsReply (NumbersOf version.now) unqualified_code (or_nothing three_numbers)
        numbers.old numbers.new needed.new result }
    ensures no_numbers { IsUntouchedWithoutValue numbers.old numbers.new needed.new result }
{
    match numbers_of(alloc, version) {
        Ok(read) => {
            put_items(&[read.major, read.minor, read.patch], numbers, needed);
            Code::of_bool(read.is_unqualified).number()
        }
        Err(problem) => {
            put_items(&[], numbers, needed);
            problem.code().number()
        }
    }
}

/// The ranges of a range, as JSON: yes, or that it is a tag.
#[unsafe(no_mangle)]
pub extern "C" fn semver_ranges(
    alloc: Global,
    grammar: u32,
    range: &[u8],
    out: &mut [u8],
    needed: &mut usize,
) -> i32
    ensures { IsReply (ByOne grammar range.now RangeParts) text_code (or_message text_of)
        out.old out.new needed.new result }
{
    let answer = ask(
        with_text(grammar, range),
        |given| range_parts(alloc, given.flavour, given.text),
    );
    report_text_or_tag(answer, out, needed)
}

/// What the range means, as JSON: yes, with its alternatives and its canonical form; or that it is a tag.
#[unsafe(no_mangle)]
pub extern "C" fn semver_explain(
    alloc: Global,
    grammar: u32,
    range: &[u8],
    pre_releases: u32,
    out: &mut [u8],
    needed: &mut usize,
) -> i32
    ensures { IsReply (ExplainsBy pre_releases grammar range.now) text_code (or_message text_of)
        out.old out.new needed.new result }
{
    let answer = ask(
        with_text(grammar, range),
        |given| explain_as_json(alloc, given.flavour, pre_release(pre_releases), given.text),
    );
    report_text_or_tag(answer, out, needed)
}

/// The invalid alternatives of a range, with what is wrong in each and where, as JSON: yes. A tag isn't a range, so it is one, too.
#[unsafe(no_mangle)]
pub extern "C" fn semver_errors(
    alloc: Global,
    grammar: u32,
    range: &[u8],
    out: &mut [u8],
    needed: &mut usize,
) -> i32
    ensures { IsReply (ErrorsBy grammar range.now) always_yes (or_message (λ text. text))
        out.old out.new needed.new result }
{
    report_text(errors_of(alloc, grammar, range), out, needed)
}

/// Where the text stops being a version: yes, and `place` is the index of its first byte that no version has there; its length, if it is
/// a version or only stops too early.
#[unsafe(no_mangle)]
pub extern "C" fn semver_version_error(alloc: Global, version: &[u8], place: &mut usize) -> i32
    ensures code { IsCode (VersionErrorOf version.now) always_yes result }
    ensures place { IsPlaceReply (VersionErrorOf version.now) as_place place.old place.new result }
{
    let code = match version_error_of(alloc, version) {
        Ok(found) => {
            *place = found;
            Code::Yes
        }
        Err(problem) => {
            *place = problem.place_or(*place);
            problem.code()
        }
    };
    code.number()
}

/// The parts of a name with a version, as JSON: yes.
#[unsafe(no_mangle)]
pub extern "C" fn semver_name_with_version(
    alloc: Global,
    text: &[u8],
    out: &mut [u8],
    needed: &mut usize,
) -> i32
    ensures { IsReply (OfText text.now NameWithVersionParts) always_yes (or_message (λ text. text))
        out.old out.new needed.new result }
{
    let answer = ask(text_of(text), |text| name_with_version_parts(alloc, text));
    report_text(answer, out, needed)
}

/// The parts of a reference to one version of a JSR or npm package, as JSON: yes.
#[unsafe(no_mangle)]
pub extern "C" fn semver_version_reference(
    alloc: Global,
    text: &[u8],
    out: &mut [u8],
    needed: &mut usize,
) -> i32
    ensures { IsReply (OfText text.now VersionReferenceParts) always_yes (or_message (λ text. text))
        out.old out.new needed.new result }
{
    let answer = ask(text_of(text), |text| version_reference_parts(alloc, text));
    report_text(answer, out, needed)
}

/// The parts of a dependency, as JSON: yes. The grammar is that of its range.
#[unsafe(no_mangle)]
pub extern "C" fn semver_dependency(
    alloc: Global,
    grammar: u32,
    text: &[u8],
    out: &mut [u8],
    needed: &mut usize,
) -> i32
    ensures { IsReply (ByOne grammar text.now DependencyParts) always_yes
        (or_message (λ text. text)) out.old out.new needed.new result }
{
    let answer = ask(
        with_text(grammar, text),
        |given| dependency_parts(alloc, given.flavour, given.text),
    );
    report_text(answer, out, needed)
}

/// The name of the export that the path of a module in a JSR package means: yes.
#[unsafe(no_mangle)]
pub extern "C" fn semver_export_name(
    alloc: Global,
    path: &[u8],
    out: &mut [u8],
    needed: &mut usize,
) -> i32
    ensures { IsReply (ExportNameOf path.now) always_yes (or_message (λ text. text))
        out.old out.new needed.new result }
{
    match export_name_of(alloc, path) {
        Ok(name) => {
            put(name.as_str(), out, needed);
            Code::Yes.number()
        }
        Err(problem) => report_problem(&problem, out, needed),
    }
}

/// Parses a range into a handle, and frees what that held: yes, with its canonical form or the tag. For any other code the handle
/// stays as it was.
#[unsafe(no_mangle)]
pub extern "C" fn semver_req_read(
    alloc: Global,
    grammar: u32,
    text: &[u8],
    handle: &mut RequirementHandle,
    out: &mut [u8],
    needed: &mut usize,
) -> i32
    ensures held { IsHeld (RangeBy grammar text.now) (λ req. req) range_in
        handle.old.value handle.new.value result }
    ensures text { IsReply (RangeBy grammar text.now) always_yes
        (or_message (λ req. inner_text req.inner)) out.old out.new needed.new result }
{
    match read_range(alloc, grammar, text) {
        Ok(read) => {
            let held = Held::Range(read.range);
            report_held(alloc, handle, held, read.canonical.as_str(), out, needed)
        }
        Err(problem) => report_problem(&problem, out, needed),
    }
}

/// Parses a package: yes, with its name; the handle holds its range, as for `semver_req_read`. The grammar is that of the range.
#[unsafe(no_mangle)]
pub extern "C" fn semver_package_read(
    alloc: Global,
    grammar: u32,
    text: &[u8],
    handle: &mut RequirementHandle,
    out: &mut [u8],
    needed: &mut usize,
) -> i32
    ensures held { IsHeld (ByOne grammar text.now IsPackage) (λ req. req.version_req) range_in
        handle.old.value handle.new.value result }
    ensures text { IsReply (ByOne grammar text.now IsPackage) always_yes
        (or_message (λ req. req.name)) out.old out.new needed.new result }
{
    match read_package_of(alloc, grammar, text) {
        Ok(read) => {
            let held = Held::Range(read.version_req);
            report_held(alloc, handle, held, read.name.as_str(), out, needed)
        }
        Err(problem) => report_problem(&problem, out, needed),
    }
}

/// Parses a version into a handle, as `semver_req_read`: yes, with its text as displayed.
#[unsafe(no_mangle)]
pub extern "C" fn semver_version_read(
    alloc: Global,
    text: &[u8],
    handle: &mut VersionHandle,
    out: &mut [u8],
    needed: &mut usize,
) -> i32
    ensures held { IsHeld (OfText text.now (IsVersionAt 0)) (λ version. version) version_in
        handle.old.value handle.new.value result }
    ensures text { IsReply (OfText text.now (IsVersionAt 0)) always_yes (or_message version_text)
        out.old out.new needed.new result }
{
    match read_version(alloc, text) {
        Ok(read) => {
            let held = Held::Version(read.version);
            report_held(alloc, handle, held, read.displayed.as_str(), out, needed)
        }
        Err(problem) => report_problem(&problem, out, needed),
    }
}

/// Frees what the handle holds, if anything, leaving it empty.
#[unsafe(no_mangle)]
pub extern "C" fn semver_req_free(alloc: Global, handle: &mut RequirementHandle)
    ensures { handle.new.value ≡ None }
{
    handle.free(alloc);
}

/// Frees what the handle holds, if anything, leaving it empty.
#[unsafe(no_mangle)]
pub extern "C" fn semver_version_free(alloc: Global, handle: &mut VersionHandle)
    ensures { handle.new.value ≡ None }
{
    handle.free(alloc);
}

/// Whether the version matches the range of the handle, like `semver_fits`.
#[unsafe(no_mangle)]
pub extern "C" fn semver_req_fits(
    alloc: Global,
    handle: &mut RequirementHandle,
    version: &[u8],
    pre_releases: u32,
) -> i32
    ensures stays { handle.new.value ≡ handle.old.value }
    ensures code { IsCode (OfHeld (λ req. MatchesHeld pre_releases req version.now)
        (range_in handle.old.value)) (λ code. code) result }
{
    match matches_held(alloc, handle.range(), version, pre_releases) {
        Ok(code) => code.number(),
        Err(problem) => problem.code().number(),
    }
}

/// Whether the version of one handle matches the range of the other: 0 no, 1 yes, -1 the range is a tag.
#[unsafe(no_mangle)]
pub extern "C" fn semver_req_matches(
    range: &mut RequirementHandle,
    version: &mut VersionHandle,
    pre_releases: u32,
) -> i32
    ensures stays_range { range.new.value ≡ range.old.value }
    ensures stays_version { version.new.value ≡ version.old.value }
    ensures code { result ≡ code_of match_code
        (of_both (λ req v. match_of (pre_release_by pre_releases) req.inner v)
        (range_in range.old.value) (version_in version.old.value)) }
{
    let (Some(req), Some(v)) = (range.range(), version.version()) else {
        return Code::NoValue.number();
    };
    match_code(req, v, pre_release(pre_releases)).number()
}

/// Whether the release of these numbers matches the range of the handle, like `semver_req_matches`. Pre-releases don't matter.
#[unsafe(no_mangle)]
pub extern "C" fn semver_req_matches_release(
    alloc: Global,
    handle: &mut RequirementHandle,
    major: u64,
    minor: u64,
    patch: u64,
) -> i32
    ensures stays { handle.new.value ≡ handle.old.value }
    ensures code { (pre_releases : ℕ) → result ≡ code_of match_code
        (of_one (λ req. match_of (pre_release_by pre_releases) req.inner (release major minor patch))
        (range_in handle.old.value)) }
{
    let Some(req) = handle.range() else {
        return Code::NoValue.number();
    };
    let version = release(alloc, major, minor, patch);
    match_code(req, &version, PreRelease::Restricted).number()
}

/// Whether the range of the handle is a tag: yes or no.
#[unsafe(no_mangle)]
pub extern "C" fn semver_req_is_tag(handle: &mut RequirementHandle) -> i32
    ensures stays { handle.new.value ≡ handle.old.value }
    ensures code { result ≡ code_of bool_code
        (of_one (λ req. is_some (tag_of req.inner)) (range_in handle.old.value)) }
{
    let code = match handle.range() {
        Some(req) => Code::of_bool(is_tag(req)),
        None => Code::NoValue,
    };
    code.number()
}

/// Whether the bounds of two handles overlap: 0 no, 1 yes.
#[unsafe(no_mangle)]
pub extern "C" fn semver_req_intersects(
    one: &mut RequirementHandle,
    other: &mut RequirementHandle,
) -> i32
    ensures stays_one { one.new.value ≡ one.old.value }
    ensures stays_other { other.new.value ≡ other.old.value }
    ensures code { result ≡ code_of bool_code (of_both (λ r s. inner_overlap r.inner s.inner)
        (range_in one.old.value) (range_in other.old.value)) }
{
    let (Some(r), Some(s)) = (one.range(), other.range()) else {
        return Code::NoValue.number();
    };
    Code::of_bool(r.intersects(s)).number()
}

/// The order of the versions of two handles, like `semver_compare`.
#[unsafe(no_mangle)]
pub extern "C" fn semver_version_compare(one: &mut VersionHandle, other: &mut VersionHandle) -> i32
    ensures stays_one { one.new.value ≡ one.old.value }
    ensures stays_other { other.new.value ≡ other.old.value }
    ensures code { result ≡ code_of order_code (of_both precedence_cmp
        (version_in one.old.value) (version_in other.old.value)) }
{
    let (Some(v), Some(w)) = (one.version(), other.version()) else {
        return Code::NoValue.number();
    };
    Code::of_order(v.cmp_precedence(w)).number()
}

/// The canonical form of the range of the handle: 1.
#[unsafe(no_mangle)]
pub extern "C" fn semver_req_normal(
    alloc: Global,
    handle: &mut RequirementHandle,
    out: &mut [u8],
    needed: &mut usize,
) -> i32
    ensures stays { handle.new.value ≡ handle.old.value }
    ensures text { IsReported always_yes (or_message (λ text. text))
        (of_one (λ req. inner_text req.inner) (range_in handle.old.value))
        out.old out.new needed.new result }
{
    report_text(canonical_held(alloc, handle.range()), out, needed)
}

/// The version of the handle as displayed: 1.
#[unsafe(no_mangle)]
pub extern "C" fn semver_version_text(
    alloc: Global,
    handle: &mut VersionHandle,
    out: &mut [u8],
    needed: &mut usize,
) -> i32
    ensures stays { handle.new.value ≡ handle.old.value }
    ensures text { IsReported always_yes (or_message (λ text. text))
        (of_one version_text (version_in handle.old.value))
        out.old out.new needed.new result }
{
    report_text(displayed_held(alloc, handle.version()), out, needed)
}

/// The sort key of the version of the handle: 1.
#[unsafe(no_mangle)]
pub extern "C" fn semver_version_key(
    alloc: Global,
    handle: &mut VersionHandle,
    out: &mut [u8],
    needed: &mut usize,
) -> i32
    ensures stays { handle.new.value ≡ handle.old.value }
    ensures text { IsReported always_yes (or_message (λ text. text))
        (of_one sort_key (version_in handle.old.value))
        out.old out.new needed.new result }
{
    report_text(key_held(alloc, handle.version()), out, needed)
}

/// The text that the range of the handle was parsed from: 1.
#[unsafe(no_mangle)]
pub extern "C" fn semver_req_text(
    handle: &mut RequirementHandle,
    out: &mut [u8],
    needed: &mut usize,
) -> i32
    ensures stays { handle.new.value ≡ handle.old.value }
    ensures text { IsPlaced (or_message (λ text. text)
        (of_one (λ req. req.raw_text) (range_in handle.old.value))) out.old out.new needed.new }
    ensures code { result ≡ code_of always_yes
        (of_one (λ req. req.raw_text) (range_in handle.old.value)) }
{
    match handle.range() {
        Some(req) => {
            put(req.version_text(), out, needed);
            Code::Yes.number()
        }
        None => report_problem(&Problem::NoValue, out, needed),
    }
}

/// The order of the versions of two handles; versions that differ only in the build are ordered by it.
#[unsafe(no_mangle)]
pub extern "C" fn semver_version_order(one: &mut VersionHandle, other: &mut VersionHandle) -> i32
    ensures stays_one { one.new.value ≡ one.old.value }
    ensures stays_other { other.new.value ≡ other.old.value }
    ensures code { result ≡ code_of order_code (of_both version_cmp
        (version_in one.old.value) (version_in other.old.value)) }
{
    let (Some(v), Some(w)) = (one.version(), other.version()) else {
        return Code::NoValue.number();
    };
    Code::of_order(v.cmp(w)).number()
}

/// Whether the ranges of two handles mean the same: 0 no, 1 yes. The texts that they were parsed from don't matter.
#[unsafe(no_mangle)]
pub extern "C" fn semver_req_equal(
    one: &mut RequirementHandle,
    other: &mut RequirementHandle,
) -> i32
    ensures stays_one { one.new.value ≡ one.old.value }
    ensures stays_other { other.new.value ≡ other.old.value }
    ensures code { IsHeldEqual (range_in one.old.value) (range_in other.old.value) result }
{
    let (Some(r), Some(s)) = (one.range(), other.range()) else {
        return Code::NoValue.number();
    };
    Code::of_bool(equal_requirements(r, s)).number()
}

/// The order of the ranges of two handles; a tag is before ranges, and of ranges those with higher starts and lower ends come first.
#[unsafe(no_mangle)]
pub extern "C" fn semver_req_order(
    one: &mut RequirementHandle,
    other: &mut RequirementHandle,
) -> i32
    ensures stays_one { one.new.value ≡ one.old.value }
    ensures stays_other { other.new.value ≡ other.old.value }
    ensures code { result ≡ code_of order_code (of_both (λ r s. inner_cmp r.inner s.inner)
        (range_in one.old.value) (range_in other.old.value)) }
{
    let (Some(r), Some(s)) = (one.range(), other.range()) else {
        return Code::NoValue.number();
    };
    Code::of_order(cmp_version_reqs(r, s)).number()
}

/// Parses several versions, one per line, into a handle, and frees what that held: yes, and `lines` is the number of lines. A line
/// that isn't a version keeps its place and matches nothing. For any other code the handle and `lines` stay as they were.
#[unsafe(no_mangle)]
pub extern "C" fn semver_list_read(
    alloc: Global,
    versions: &[u8],
    handle: &mut VersionListHandle,
    lines: &mut usize,
) -> i32
    ensures held { IsHeld (VersionListOf versions.now) (λ list. list) versions_in
        handle.old.value handle.new.value result }
    ensures lines { IfSome (versions_in handle.new.value)
        (λ list. (result ≡ yes) → lines.new ≡ length list) }
    ensures stays { (result ≡ yes → ⊥) → lines.new ≡ lines.old }
{
    match read_list(alloc, versions) {
        Ok(list) => {
            let count = list.len();
            match handle.hold(alloc, Held::Versions(list)) {
                Ok(()) => {
                    *lines = count;
                    Code::Yes.number()
                }
                Err(_) => Code::NoMemory.number(),
            }
        }
        Err(problem) => problem.code().number(),
    }
}

/// Frees what the handle holds, if anything, leaving it empty.
#[unsafe(no_mangle)]
pub extern "C" fn semver_list_free(alloc: Global, handle: &mut VersionListHandle)
    ensures { handle.new.value ≡ None }
{
    handle.free(alloc);
}

/// Which versions of the one handle match the range of the other: like `semver_filter`.
#[unsafe(no_mangle)]
pub extern "C" fn semver_list_filter(
    alloc: Global,
    list: &mut VersionListHandle,
    range: &mut RequirementHandle,
    pre_releases: u32,
    answers: &mut [i8],
    needed: &mut usize,
) -> i32
    ensures stays_list { list.new.value ≡ list.old.value }
    ensures stays_range { range.new.value ≡ range.old.value }
    ensures answer { IsReported filter_code (or_nothing filter_numbers)
        (of_both (λ lines req. list_matches (pre_release_by pre_releases) req.inner lines)
        (versions_in list.old.value) (range_in range.old.value))
        answers.old answers.new needed.new result }
    ensures no_answers { IsUntouched answers.old answers.new needed.new result }
{
    let answer = filter_held(alloc, list.versions(), range.range(), pre_releases);
    report_filter(alloc, answer, answers, needed)
}

/// Which version of the one handle is the highest that matches the range of the other, the first of equal ones: yes, the one at
/// `place`, counted from 0; no; or that the range is a tag. For any code but 1 `place` is unchanged.
#[unsafe(no_mangle)]
pub extern "C" fn semver_list_best(
    list: &mut VersionListHandle,
    range: &mut RequirementHandle,
    pre_releases: u32,
    place: &mut usize,
) -> i32
    ensures stays_list { list.new.value ≡ list.old.value }
    ensures stays_range { range.new.value ≡ range.old.value }
    ensures best { (code : Code) × (result ≡ number_of code)
        × IsHeldBest end.Highest pre_releases (versions_in list.old.value)
        (range_in range.old.value) place.old place.new code }
{
    best_held(
        End::Highest,
        list.versions(),
        range.range(),
        pre_releases,
        place,
    )
    .number()
}

/// Which version of the one handle is the lowest that matches the range of the other: like `semver_list_best`.
#[unsafe(no_mangle)]
pub extern "C" fn semver_list_lowest(
    list: &mut VersionListHandle,
    range: &mut RequirementHandle,
    pre_releases: u32,
    place: &mut usize,
) -> i32
    ensures stays_list { list.new.value ≡ list.old.value }
    ensures stays_range { range.new.value ≡ range.old.value }
    ensures best { (code : Code) × (result ≡ number_of code)
        × IsHeldBest end.Lowest pre_releases (versions_in list.old.value)
        (range_in range.old.value) place.old place.new code }
{
    best_held(
        End::Lowest,
        list.versions(),
        range.range(),
        pre_releases,
        place,
    )
    .number()
}

/// The places of the lines of the handle that are versions, in the order of precedence: yes. The place of the lowest comes first, places
/// are counted from 0, and versions that differ only in the build keep their order. `needed` is the number of these lines; if there
/// are more than places, these stay as they were.
#[unsafe(no_mangle)]
pub extern "C" fn semver_list_sort(
    alloc: Global,
    list: &mut VersionListHandle,
    places: &mut [usize],
    needed: &mut usize,
) -> i32
    ensures stays { list.new.value ≡ list.old.value }
    ensures answer { IsReply (OfHeld (SortedLines Ascending) (versions_in list.old.value))
        always_yes (or_nothing (λ places. places)) places.old places.new needed.new result }
    ensures no_places { IsUntouched places.old places.new needed.new result }
{
    report_places(sorted_held(alloc, list.versions()), places, needed)
}

/// Holds what the range of a handle matches, as scans of sort keys, and frees what the handle of the scans held: yes, and `count` is the
/// number of scans; or that the range is a tag. For any code but 1 the handle of the scans and `count` stay as they were.
#[unsafe(no_mangle)]
pub extern "C" fn semver_scans_read(
    alloc: Global,
    range: &mut RequirementHandle,
    pre_releases: u32,
    handle: &mut ScansHandle,
    count: &mut usize,
) -> i32
    ensures stays_range { range.new.value ≡ range.old.value }
    ensures code { IsScansCode (range_in range.old.value) result }
    ensures scans { result ≡ yes → AreHeldScans pre_releases (range_in range.old.value)
        (scans_in handle.new.value) count.new }
    ensures stays { (result ≡ yes → ⊥) → (handle.new.value ≡ handle.old.value)
        × (count.new ≡ count.old) }
{
    let Some(req) = range.range() else {
        return Code::NoValue.number();
    };
    if is_tag(req) {
        return Code::Tag.number();
    }
    let Ok(scans) = req.scans(alloc, pre_release(pre_releases)) else {
        return Code::NoMemory.number();
    };
    let length = scans.len();
    if handle.hold(alloc, Held::Scans(scans)).is_err() {
        return Code::NoMemory.number();
    }
    *count = length;
    Code::Yes.number()
}

/// Frees what the handle holds, if anything, leaving it empty.
#[unsafe(no_mangle)]
pub extern "C" fn semver_scans_free(alloc: Global, handle: &mut ScansHandle)
    ensures { handle.new.value ≡ None }
{
    handle.free(alloc);
}

/// The scan of the handle at this index, counted from 0: yes, if it is about pre-releases, or no, if it is about releases. If there is no
/// scan at the index, the code is that of a handle without a value.
#[unsafe(no_mangle)]
pub extern "C" fn semver_scan(
    handle: &mut ScansHandle,
    index: usize,
    low: &mut [u8],
    low_needed: &mut usize,
    high: &mut [u8],
    high_needed: &mut usize,
) -> i32
    ensures stays { handle.new.value ≡ handle.old.value }
    ensures code { result ≡ code_of scan_code (scan_at index (scans_in handle.old.value)) }
    ensures low { IsPlaced (or_nothing (λ scan. string_bytes scan.low)
        (scan_at index (scans_in handle.old.value))) low.old low.new low_needed.new }
    ensures high { IsPlaced (or_nothing (λ scan. string_bytes scan.high)
        (scan_at index (scans_in handle.old.value))) high.old high.new high_needed.new }
{
    let Some(scan) = handle.scans().and_then(|scans| scans.get(index)) else {
        put("", low, low_needed);
        put("", high, high_needed);
        return Code::NoValue.number();
    };
    put(scan.low.as_str(), low, low_needed);
    put(scan.high.as_str(), high, high_needed);
    Code::of_bool(scan.is_pre).number()
}

/// The version of this API: it changes when a call does.
#[unsafe(no_mangle)]
pub extern "C" fn semver_api() -> u32
    ensures { result ≡ 1 }
{
    1
}
