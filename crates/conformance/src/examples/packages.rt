//! Versions and requirements made by hand, URLs of references, and the JSON of lists.

use super::shown;
use crate::answer::{Answer, Fault, Reported, valid};
use crate::json::value_of;
use crate::kinds::{Parse, append};
use deno_semver::json::{reqs_from_json, reqs_to_json};
use deno_semver::jsr::{JsrDepPackageReq, JsrPackageNvReference, JsrPackageReqReference};
use deno_semver::npm::{NpmPackageNvReference, NpmPackageReqReference, parse_npm_version};
use deno_semver::package::{PackageReq, SpecifierError};
use deno_semver::{
    IntoVersionReq, PackageTag, ParseFailure, RangeSetOrTag, SmallStackString, Version,
    VersionPreOrBuild, VersionReq, wildcard_version_req,
};

/// How an identifier that no text has compares to one of a text; a version by npm's parser, and the requirement that it is
/// turned into.
pub fn versions(answer: &mut Answer) -> Reported {
    let alloc = answer.alloc;
    let identifier = VersionPreOrBuild::from_str(alloc, "+1")?;
    let mut version = Version::new(alloc);
    version.pre.push(identifier)?;
    let other = Version::parse("0.0.0-01", answer)?;
    answer.order(version.cmp_precedence(&other))?;
    let parsed = parse_npm_version(alloc, " v1.2.3-a. ").map_err(ParseFailure::from);
    let version = valid(parsed, answer)?;
    answer.displayed(&version)?;
    let requirement = version.into_req(alloc)?;
    answer.text(requirement.version_text())?;
    answer.made(requirement.to_string_normalized(alloc))
}

/// A copied requirement made of a text and a tag, and the wildcard.
pub fn requirements(answer: &mut Answer) -> Reported {
    let alloc = answer.alloc;
    let tag = PackageTag::from_str(alloc, "latest")?;
    let text = SmallStackString::from_str(alloc, " raw ")?;
    let made = VersionReq::from_raw_text_and_inner(text, RangeSetOrTag::Tag(tag));
    let copy = made.copy()?;
    answer.optional(copy.tag())?;
    answer.displayed(&copy)?;
    let wildcard = wildcard_version_req(alloc)?;
    answer.yes_or_no(wildcard.range().is_some())?;
    answer.text(wildcard.version_text())
}

/// Dependencies made of a package requirement.
pub fn dependencies(answer: &mut Answer) -> Reported {
    let jsr = JsrDepPackageReq::jsr(<PackageReq as Parse>::parse("@s/b@^1", answer)?);
    answer.displayed(&jsr)?;
    let npm = JsrDepPackageReq::npm(<PackageReq as Parse>::parse("c@1", answer)?);
    answer.displayed(&npm)
}

/// The URL of a reference, and the references that the URL parses to.
pub fn specifiers(answer: &mut Answer) -> Reported {
    let alloc = answer.alloc;
    let reference = JsrPackageNvReference::parse("jsr:@s/a@1.0.0/mod.ts", answer)?;
    let made = reference.as_specifier(alloc);
    drop(reference);
    let url = match made {
        Ok(url) => url,
        Err(SpecifierError::Memory) => return Err(Fault::OutOfMemory),
        Err(_) => return Err(Fault::OtherArguments),
    };
    answer.text(url.as_str())?;
    shown(JsrPackageNvReference::from_specifier(alloc, &url), answer)?;
    shown(JsrPackageReqReference::from_specifier(alloc, &url), answer)
}

/// The exports of references to JSR packages.
pub fn exports(answer: &mut Answer) -> Reported {
    let reference = JsrPackageReqReference::parse("jsr:@s/a@1/mod.ts", answer)?;
    answer.made(reference.export_name(answer.alloc))?;
    drop(reference);
    let reference = JsrPackageNvReference::parse("jsr:@s/a@1.0.0", answer)?;
    answer.made(reference.export_name(answer.alloc))
}

/// How references without their registry are written.
pub fn references(answer: &mut Answer) -> Reported {
    let reference = NpmPackageReqReference::parse("npm:a@1/b", answer)?.into_inner();
    let appended = append::<SmallStackString, _>(&reference, "x", answer);
    drop(reference);
    appended?;
    let reference = NpmPackageNvReference::parse("npm:a@1.2.3/b", answer)?.into_inner();
    append::<SmallStackString, _>(&reference, "x", answer)
}

/// The JSON of the list that a JSON array parses to, which is sorted.
pub fn json_list(answer: &mut Answer) -> Reported {
    let alloc = answer.alloc;
    let json = value_of(alloc, "[\"b@1\",\"a@^1.0\",\"b@1\",\"a@tag\"]")?;
    let reqs = valid(reqs_from_json(alloc, &json), answer)?;
    let again = reqs_to_json(alloc, reqs.as_slice())?;
    answer.made(again.to_string(alloc))
}
