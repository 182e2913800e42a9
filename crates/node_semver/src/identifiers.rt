//! The identifiers of a pre-release, parsed alone.

ghost use Rattle.std.specs.Prelude.{◌≡◌, ◌⊎◌, IfErr, IfOk, List, None, Some, ℕ};
ghost use Rattle.node_semver.specs.Identifiers.{IsPre, IsNoPre, invalid_message};

use semver_base::failure::ParseFailure;
use semver_base::lexical;
use semver_base::lexical::values::Strictness;
use semver_base::string::CowVec;
use semver_base::version::VersionPreOrBuild;
use std::alloc::Global;

const INVALID: &str = "An identifier has only letters, digits and hyphens.";

/// Parses identifiers with a `.` between neighbours, as those of a version's pre-release are: a `-` before them and a `.` behind
/// them go. An empty text has none.
pub fn identifiers(alloc: Global, text: &str) -> Result<CowVec<VersionPreOrBuild>, ParseFailure>
    ensures read { IfOk result (IsPre text.now) }
    ensures rejected { IfErr result (λ failure. (failure ≡ None)
        ⊎ ((failure ≡ Some (invalid_message, None))
        × IsNoPre text.now)) }
    ensures only { IfOk result (λ read. (identifiers : List (List ℕ))
        → IsPre text.now identifiers → identifiers ≡ read) }
{
    let (qualifier, rest) = lexical::qualifier(alloc, text, Strictness::Loose)?;
    if rest.is_empty() && qualifier.build.is_empty() {
        return Ok(qualifier.pre);
    }
    Err(ParseFailure::with_texts(alloc, INVALID, None))
}
