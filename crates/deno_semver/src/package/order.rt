//! The order of package requirements.

ghost use Rattle.std.specs.Prelude.{◌≡◌, refl};
ghost use Rattle.std.specs.Cmp.Lexicographic.{slice_cmp};
ghost use Rattle.std.specs.Ordering.{as_partial_cmp};
ghost use Rattle.deno_semver.specs.ReqOrder.{bound_kinds_cmp, build_of, cmp_by, inner_cmp, kind_place, req_cmp};
ghost use Rattle.deno_semver.specs.ReqOrderLaws.{req_po, req_ties, req_total};

use super::values::PackageReq;
use semver_base::range::{RangeBound, VersionBound, VersionBoundKind, VersionRange};
use semver_base::version::VersionPreOrBuild;
use semver_req::range_set_or_tag::RangeSetOrTag;
use semver_req::req::VersionReq;
use std::cmp::Ordering;

// The place of a kind in the order: an exclusive bound first.
fn kind_place(kind: VersionBoundKind) -> u8
    ensures { result ≡ kind_place kind }
{
    match kind {
        VersionBoundKind::Exclusive => 0,
        VersionBoundKind::Inclusive => 1,
    }
}

fn cmp_kind(a: &VersionBound, b: &VersionBound) -> Ordering
    ensures { result ≡ bound_kinds_cmp a.now b.now }
{
    kind_place(a.kind).cmp(&kind_place(b.kind))
}

// The build of the bound's version, if it has one.
fn build_of(bound: &RangeBound) -> &[VersionPreOrBuild]
    ensures { result.now ≡ build_of bound.now }
{
    match bound {
        RangeBound::Unbounded => &[],
        RangeBound::Version(bound) => bound.version.build.iter().as_slice(),
    }
}

// What two ranges are compared by.
#[derive(Clone, Copy)]
enum By {
    Bounds,
    Builds,
}

impl By {
    fn cmp(self, a: &VersionRange, b: &VersionRange) -> Ordering
        ensures { result ≡ cmp_by self a.now b.now }
    {
        match self {
            By::Bounds => {
                // The higher version first, then an exclusive bound, and no start last.
                let starts = match (&a.start, &b.start) {
                    (RangeBound::Unbounded, RangeBound::Unbounded) => Ordering::Equal,
                    (RangeBound::Unbounded, RangeBound::Version(_)) => Ordering::Greater,
                    (RangeBound::Version(_), RangeBound::Unbounded) => Ordering::Less,
                    (RangeBound::Version(a), RangeBound::Version(b)) => {
                        b.version.cmp_precedence(&a.version).then(cmp_kind(a, b))
                    }
                };
                // The lower version first, then an exclusive bound, and no end last.
                let ends = match (&a.end, &b.end) {
                    (RangeBound::Unbounded, RangeBound::Unbounded) => Ordering::Equal,
                    (RangeBound::Unbounded, RangeBound::Version(_)) => Ordering::Greater,
                    (RangeBound::Version(_), RangeBound::Unbounded) => Ordering::Less,
                    (RangeBound::Version(a), RangeBound::Version(b)) => {
                        a.version.cmp_precedence(&b.version).then(cmp_kind(a, b))
                    }
                };
                starts.then(ends)
            }
            By::Builds => build_of(&a.start)
                .cmp(build_of(&b.start))
                .then(build_of(&a.end).cmp(build_of(&b.end))),
        }
    }
}

// Compares range by range; if one list begins with the other, the shorter comes first.
fn cmp_ranges(a: &[VersionRange], b: &[VersionRange], by: By) -> Ordering
    ensures { result ≡ slice_cmp (cmp_by by) a.now b.now }
{
    for (x, y) in a.iter().zip(b) {
        let ordering = by.cmp(x, y);
        if ordering != Ordering::Equal {
            return ordering;
        }
    }
    a.len().cmp(&b.len())
}

/// The order of two version requirements, in which package requirements of one name stand: tags before ranges, and of ranges those with
/// higher starts and lower ends first. Requirements are equal in it only if they mean the same.
pub fn cmp_version_reqs(one: &VersionReq, other: &VersionReq) -> Ordering
    ensures { result ≡ inner_cmp one.now.inner other.now.inner }
{
    match (one.inner(), other.inner()) {
        (RangeSetOrTag::Tag(a), RangeSetOrTag::Tag(b)) => b.cmp(a),
        (RangeSetOrTag::Tag(_), RangeSetOrTag::RangeSet(_)) => Ordering::Less,
        (RangeSetOrTag::RangeSet(_), RangeSetOrTag::Tag(_)) => Ordering::Greater,
        (RangeSetOrTag::RangeSet(a), RangeSetOrTag::RangeSet(b)) => {
            let (a, b) = (a.0.iter().as_slice(), b.0.iter().as_slice());
            match cmp_ranges(a, b, By::Bounds) {
                Ordering::Equal => cmp_ranges(a, b, By::Builds),
                unequal => unequal,
            }
        }
    }
}

impl PartialOrd for PackageReq {
    ghost partial_cmp = { as_partial_cmp req_cmp };

    ghost laws = { req_po };

    fn partial_cmp(&self, other: &PackageReq) -> Option<Ordering> {
        Some(self.cmp(other))
    }
}

impl Ord for PackageReq {
    ghost cmp = { req_cmp };

    ghost total = { req_total };

    ghost matches_partial_cmp = { λ a b. refl };

    ghost matches_eq = { req_ties };

    fn cmp(&self, other: &PackageReq) -> Ordering {
        match self.name.cmp(&other.name) {
            Ordering::Equal => cmp_version_reqs(&self.version_req, &other.version_req),
            unequal => unequal,
        }
    }
}
