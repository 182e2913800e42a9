//! Where a text is wrong: the place at which it leaves its grammar, what could stand there, and which alternatives of a range are invalid.

pub use semver_req::error_places::causes::Cause;
pub use semver_req::error_places::expected::{Expected, Kind, expected_after};
pub use semver_req::error_places::pieces::{InvalidPiece, invalid_pieces};
pub use semver_req::error_places::{
    error_place, may_follow, version_error_place, version_may_follow,
};
