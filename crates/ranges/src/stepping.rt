//! `ranges increment` and `ranges difference`, the steps from one version to another, and `ranges coerce`.

use crate::comparing::{print_answer, reject};
use answers::questions::text_of_version;
use answers::steps;
use node_semver::coerce::{self, Direction, Parts};
use node_semver::identifiers::identifiers;
use node_semver::increment::Base;
use node_semver::release_type::ReleaseType;
use std::io::Write;
use terminal::console::{Console, Status, Stop};
use terminal::given::Given;

const KINDS: [ReleaseType; 8] = [
    ReleaseType::Major,
    ReleaseType::Minor,
    ReleaseType::Patch,
    ReleaseType::PreMajor,
    ReleaseType::PreMinor,
    ReleaseType::PrePatch,
    ReleaseType::PreRelease,
    ReleaseType::Release,
];

/// `ranges increment KIND VERSION`: the next version of this kind.
pub fn increment<O: Write, E: Write>(
    console: &mut Console<O, E>,
    given: Given<'_, '_>,
) -> Result<Status, Stop> {
    let name = given.text("KIND");
    let (version, preid) = (given.text("VERSION"), given.text("preid"));
    let base = match given.text("base") {
        "1" => Base::One,
        "none" => Base::Nothing,
        _ => Base::Zero,
    };
    let Some(kind) = KINDS.iter().copied().find(|kind| kind.name() == name) else {
        return Ok(Status::Usage);
    };
    match steps::incremented(console.alloc, kind, version, preid, base) {
        Ok(next) => print_answer(console, "version", Some(next.as_str())),
        Err(problem) => {
            let is_named = identifiers(console.alloc, preid).is_ok();
            let argument = if is_named { version } else { preid };
            reject(console, &[argument], &problem)
        }
    }
}

/// `ranges difference ONE OTHER`: the kind of the step between two versions, or `none` if they are equal.
pub fn difference<O: Write, E: Write>(
    console: &mut Console<O, E>,
    given: Given<'_, '_>,
) -> Result<Status, Stop> {
    let (one, other) = (given.text("ONE"), given.text("OTHER"));
    match steps::difference(console.alloc, one, other) {
        Ok(Some(kind)) => print_answer(console, "difference", Some(kind.name())),
        Ok(None) => print_answer(console, "difference", None),
        Err(problem) => reject(console, &[one, other], &problem),
    }
}

/// `ranges coerce TEXT`: the version that the string holds, or `none`.
pub fn coerce<O: Write, E: Write>(
    console: &mut Console<O, E>,
    given: Given<'_, '_>,
) -> Result<Status, Stop> {
    let direction = if given.has("rtl") {
        Direction::RightToLeft
    } else {
        Direction::LeftToRight
    };
    let parts = if given.has("pre") {
        Parts::All
    } else {
        Parts::Numbers
    };
    match coerce::coerce(console.alloc, given.text("TEXT"), direction, parts)? {
        Some(version) => {
            let version = text_of_version(console.alloc, &version)?;
            print_answer(console, "version", Some(version.as_str()))
        }
        None => print_answer(console, "version", None),
    }
}
