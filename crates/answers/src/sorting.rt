//! The order of several versions.

ghost use Rattle.std.specs.Prelude.{IfOk, map};
ghost use Rattle.answers.specs.Asking.{IsAnswer};
ghost use Rattle.answers.specs.Reading.{texts_of};
ghost use Rattle.answers.specs.Sorting.{AreOnlySortedPlaces, AreSortedPlaces, Sorts, standing, standing_from, standing_lines};

use crate::asking::Problem;
use crate::reading::versions;
use semver_base::version::Version;
use semver_req::laws::ascending_arrangements_tie;
use std::alloc::{AllocError, Global};

/// The order in which versions are sorted.
#[derive(Clone, Copy)]
pub enum Order {
    Ascending,
    Descending,
}

// A version, and its place in a list.
#[derive(Clone, Copy)]
struct Placed<'a> {
    version: &'a Version,
    place: usize,
}

// Puts placed versions in order, equal ones by their places, and returns the place of each.
fn places_in_order(
    alloc: Global,
    mut all: Vec<Placed<'_>>,
    order: Order,
) -> Result<Vec<usize>, AllocError>
    ensures sorted { IfOk result
        (λ places. AreSortedPlaces order (map standing all.entry.items) places.items) }
    ensures only { IfOk result
        (λ places. AreOnlySortedPlaces order (map standing all.entry.items) places.items) }
{
    ascending_arrangements_tie::<(Version, usize)>();
    match order {
        Order::Ascending => all.sort_by(|one, other| {
            let by_version = one.version.cmp_precedence(other.version);
            by_version.then(one.place.cmp(&other.place))
        })?,
        Order::Descending => all.sort_by(|one, other| {
            let by_version = other.version.cmp_precedence(one.version);
            by_version.then(one.place.cmp(&other.place))
        })?,
    }
    let sorted = all.as_slice();
    let mut places = Vec::new(alloc);
    for it in sorted {
        places.push(it.place)?;
    }
    Ok(places)
}

/// Returns the places of the versions in this order by precedence, counted from 0; versions that differ only in the build
/// keep their order. Fails only out of memory.
pub fn sorted_places(
    alloc: Global,
    versions: Vec<Version>,
    order: Order,
) -> Result<Vec<usize>, AllocError>
    ensures sorted { IfOk result
        (λ places. AreSortedPlaces order (standing_from 0 versions.items) places.items) }
    ensures only { IfOk result
        (λ places. AreOnlySortedPlaces order (standing_from 0 versions.items) places.items) }
{
    let listed = versions.as_slice();
    let mut all = Vec::new(alloc);
    for (place, version) in listed.iter().enumerate() {
        all.push(Placed { version, place })?;
    }
    places_in_order(alloc, all, order)
}

/// Returns the places of the lines that have a version, like [`sorted_places`].
pub fn sorted_lines(
    alloc: Global,
    lines: &[Option<Version>],
    order: Order,
) -> Result<Vec<usize>, AllocError>
    ensures sorted { IfOk result
        (λ places. AreSortedPlaces order (standing_lines 0 lines.now) places.items) }
    ensures only { IfOk result
        (λ places. AreOnlySortedPlaces order (standing_lines 0 lines.now) places.items) }
{
    let mut all = Vec::new(alloc);
    for (place, line) in lines.iter().enumerate() {
        if let Some(version) = line {
            all.push(Placed { version, place })?;
        }
    }
    places_in_order(alloc, all, order)
}

/// In which order do the versions stand? Returns the first one's place first.
pub fn sort(alloc: Global, texts: &[&str], order: Order) -> Result<Vec<usize>, Problem>
    ensures { IsAnswer (Sorts order (texts_of texts.now)) (λ places. places.items) result }
{
    let versions = versions(alloc, texts)?;
    Ok(sorted_places(alloc, versions, order)?)
}
