//! Versions and version requirements of npm and JSR packages: parsing, comparing and matching.
//!
//! A verified port of the crate `deno_semver`. The contracts that state what each call promises are in the crates
//! `semver_base` and `semver_req`; this crate exports their public names at the paths that users write.
#![tactic(auto)]

pub mod errors;
pub mod json;
pub mod jsr;
pub mod laws;
pub mod npm;
pub mod package;

pub use semver_base::failure::{ParseFailure, Rejection};
pub use semver_base::partial::{Partial, XRange};
pub use semver_base::range::scans::Scan;
pub use semver_base::range::{
    PreRelease, RangeBound, VersionBound, VersionBoundKind, VersionRange, VersionRangeSet,
};
pub use semver_base::string::{
    CowItem, CowVec, SmallStackString, StackString, StringAppendable, StringType,
};
pub use semver_base::version::{
    NpmVersionParseError, Version, VersionParseError, VersionPreOrBuild,
};
pub use semver_req::range_set_or_tag::{PackageTag, RangeSetOrTag};
pub use semver_req::req::{
    IntoVersionReq, VersionReq, VersionReqNormalizedParseError, wildcard_version_req,
};
pub use semver_req::resolve;
pub use semver_req::specifier::VersionReqSpecifierParseError;
