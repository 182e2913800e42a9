//! Parsing by any of the three grammars.

ghost use Rattle.std.specs.Prelude.{IfErr};
ghost use Rattle.semver_req.specs.Parsers.{IsParserAnswer};
ghost use Rattle.semver_req.specs.TextRejection.{IsTextRejection};

use crate::common::values::Flavour;
use crate::req::VersionReq;
use semver_base::failure::ParseFailure;
use std::alloc::Global;

impl VersionReq {
    /// Parses a requirement by this grammar: npm's, the normalized one or that of package specifiers.
    ///
    /// Fails with that grammar's errors, or out of memory.
    pub fn parse(alloc: Global, text: &str, flavour: Flavour) -> Result<VersionReq, ParseFailure>
        ensures reads { IsParserAnswer (λ failure. failure) flavour text.now result }
        ensures rejection { IfErr result (IsTextRejection flavour text.now) }
    {
        match flavour {
            Flavour::Npm => Ok(VersionReq::parse_from_npm(alloc, text)?),
            Flavour::Normal => Ok(VersionReq::parse_from_normalized(alloc, text)?),
            Flavour::Specifier => Ok(VersionReq::parse_from_specifier(alloc, text)?),
        }
    }
}
