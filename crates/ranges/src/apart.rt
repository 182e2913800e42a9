//! Which of many ranges have no version in common.

use deno_semver::{PreRelease, RangeBound, VersionRange, VersionReq};
use std::alloc::{AllocError, Global};

// The range of a requirement that has a single one.
fn only_range(req: &VersionReq) -> Option<&VersionRange> {
    match req.range()?.0.iter().as_slice() {
        [only] => Some(only),
        _ => None,
    }
}

// Whether the lowest version that the range matches does so by the bounds alone. Pre-releases don't where they are restricted.
fn has_plain_match(
    alloc: Global,
    range: &VersionRange,
    pre_release: PreRelease,
) -> Result<bool, AllocError> {
    Ok(match range.min_version(alloc, pre_release)? {
        Some(lowest) => pre_release == PreRelease::Admitted || lowest.pre.is_empty(),
        None => false,
    })
}

// The range of a requirement that has a single one, with such a match.
fn plain_range<'r>(
    alloc: Global,
    req: &'r VersionReq,
    pre_release: PreRelease,
) -> Result<Option<&'r VersionRange>, AllocError> {
    match only_range(req) {
        Some(range) if has_plain_match(alloc, range, pre_release)? => Ok(Some(range)),
        _ => Ok(None),
    }
}

// Whether some version matches both, or both are the same tag.
fn have_common_version(
    alloc: Global,
    one: &VersionReq,
    other: &VersionReq,
    pre_release: PreRelease,
) -> Result<bool, AllocError> {
    if one.tag().is_some() || other.tag().is_some() || !one.intersects(other) {
        return Ok(one.intersects(other));
    }
    Ok(one.common_version(alloc, other, pre_release)?.is_some())
}

// Whether it was seen at once that all have a common version: each has a range that overlaps what those before it have in common.
fn have_common_range(
    alloc: Global,
    reqs: &[VersionReq],
    pre_release: PreRelease,
) -> Result<bool, AllocError> {
    let mut common = VersionRange::all();
    for req in reqs {
        let Some(set) = req.range() else {
            return Ok(false);
        };
        let mut ranges = set.0.iter();
        let Some(range) = ranges.find(|range| range.intersects_range(&common)) else {
            return Ok(false);
        };
        common = common.clamp(alloc, range)?;
    }
    has_plain_match(alloc, &common, pre_release)
}

// The requirements behind a place. A single range has a version in common with each plain one among them if it has one from the highest of
// their starts on, and one up to the lowest of their ends: one of the two is in the other range, or that one's own lies between them.
#[derive(Drop)]
struct Behind<'r> {
    pre_release: PreRelease,
    from: VersionRange,
    up_to: VersionRange,
    /// Those that are several ranges, or a tag, or have no plain match.
    others: Vec<&'r VersionReq>,
}

impl<'r> Behind<'r> {
    fn overlap(
        &self,
        alloc: Global,
        req: &VersionReq,
        behind: &[VersionReq],
    ) -> Result<bool, AllocError> {
        if let Some(range) = only_range(req)
            && has_plain_match(alloc, &range.clamp(alloc, &self.from)?, self.pre_release)?
            && has_plain_match(alloc, &range.clamp(alloc, &self.up_to)?, self.pre_release)?
        {
            for other in self.others.iter() {
                if !have_common_version(alloc, req, other, self.pre_release)? {
                    return Ok(false);
                }
            }
            return Ok(true);
        }
        for other in behind {
            if !have_common_version(alloc, req, other, self.pre_release)? {
                return Ok(false);
            }
        }
        Ok(true)
    }

    fn add(&mut self, alloc: Global, req: &'r VersionReq) -> Result<(), AllocError> {
        let Some(range) = plain_range(alloc, req, self.pre_release)? else {
            return Ok(self.others.push(req)?);
        };
        self.from = VersionRange {
            start: self.from.start.clamp_start(alloc, &range.start)?,
            end: RangeBound::Unbounded,
        };
        self.up_to = VersionRange {
            start: RangeBound::Unbounded,
            end: self.up_to.end.clamp_end(alloc, &range.end)?,
        };
        Ok(())
    }
}

/// The places of the first two ranges that no version matches both of. The time grows with the number of ranges, and with its square only
/// where many have several alternatives, or begin with a pre-release, and nothing in common.
pub fn first_apart(
    alloc: Global,
    reqs: &[VersionReq],
    pre_release: PreRelease,
) -> Result<Option<(usize, usize)>, AllocError> {
    if have_common_range(alloc, reqs, pre_release)? {
        return Ok(None);
    }
    let mut behind = Behind {
        pre_release,
        from: VersionRange::all(),
        up_to: VersionRange::all(),
        others: Vec::new(alloc),
    };
    let mut first = None;
    let mut place = reqs.len();
    for req in reqs.iter().rev() {
        if !behind.overlap(alloc, req, reqs.get(place..).unwrap_or(&[]))? {
            first = Some((place, req));
        }
        behind.add(alloc, req)?;
        place = place.saturating_sub(1);
    }
    let Some((behind, req)) = first else {
        return Ok(None);
    };
    for (place, other) in reqs.iter().enumerate().skip(behind) {
        if !have_common_version(alloc, req, other, pre_release)? {
            return Ok(Some((behind.saturating_sub(1), place)));
        }
    }
    Ok(None)
}
