//! Laws of versions that come next and of stretches, each as the contract of a call, which does nothing: a caller cites what it ensures.

ghost use Rattle.node_semver.specs.NextVersions.{IncrementsAreAbove, IncrementsReadBack, NextMajorsAreLowest, NextMinorsAreLowest, NextPatchesAreLowest};
ghost use Rattle.node_semver.specs.Simplify.{StretchesHoldMatches};

use semver_base::laws::version_texts_read_back;

/// The next version of a kind is above the version, unless a pre-release gets other identifiers.
pub fn increments_are_above()
    ensures { IncrementsAreAbove }
{}

/// The next major, minor or patch version is the lowest release of its kind above the version; and where there is none, its number
/// is too large.
pub fn next_releases_are_lowest()
    ensures major { NextMajorsAreLowest }
    ensures minor { NextMinorsAreLowest }
    ensures patch { NextPatchesAreLowest }
{}

/// The text of the next version parses to that version, if texts parse to the version and to the identifiers.
pub fn increments_read_back()
    ensures { IncrementsReadBack }
{
    version_texts_read_back();
}

/// The stretches of a list hold the places of the versions that match, and no others, and each is as long as it can be.
pub fn stretches_hold_matches()
    ensures { StretchesHoldMatches }
{}
