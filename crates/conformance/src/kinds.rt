//! Calls on values of several kinds.

use crate::answer::{Answer, Fault, Item, OrFault, Reported, valid};
use crate::arguments::triple;
use deno_semver::jsr::{JsrDepPackageReq, JsrPackageNvReference, JsrPackageReqReference};
use deno_semver::npm::{NpmPackageNvReference, NpmPackageReqReference};
use deno_semver::package::{
    PackageNv, PackageReq, Registry, RegistryNvReference, RegistryReqReference,
};
use deno_semver::{
    ParseFailure, RangeSetOrTag, SmallStackString, StackString, StringAppendable, StringType,
    Version, VersionRange,
};
use std::fmt::Display;

/// A value that a text parses to; packages and their requirements by npm's grammar.
pub trait Parse: PartialEq + StringAppendable + Display + Drop {
    fn parse(text: &str, answer: &mut Answer) -> OrFault<Self>;
}

impl Parse for SmallStackString {
    fn parse(text: &str, answer: &mut Answer) -> OrFault<SmallStackString> {
        Ok(SmallStackString::from_str(answer.alloc, text)?)
    }
}

impl Parse for Version {
    fn parse(text: &str, answer: &mut Answer) -> OrFault<Version> {
        let parsed = Version::parse_standard(answer.alloc, text);
        valid(parsed.map_err(ParseFailure::from), answer)
    }
}

impl Parse for RangeSetOrTag {
    fn parse(text: &str, answer: &mut Answer) -> OrFault<RangeSetOrTag> {
        valid(RangeSetOrTag::parse_npm(answer.alloc, text), answer)
    }
}

impl Parse for PackageReq {
    fn parse(text: &str, answer: &mut Answer) -> OrFault<PackageReq> {
        valid(PackageReq::from_str_loose(answer.alloc, text), answer)
    }
}

impl Parse for PackageNv {
    fn parse(text: &str, answer: &mut Answer) -> OrFault<PackageNv> {
        valid(PackageNv::from_str(answer.alloc, text), answer)
    }
}

impl Parse for JsrDepPackageReq {
    fn parse(text: &str, answer: &mut Answer) -> OrFault<JsrDepPackageReq> {
        valid(JsrDepPackageReq::from_str_loose(answer.alloc, text), answer)
    }
}

impl<R: Registry> Parse for RegistryReqReference<R> {
    fn parse(text: &str, answer: &mut Answer) -> OrFault<RegistryReqReference<R>> {
        valid(RegistryReqReference::from_str(answer.alloc, text), answer)
    }
}

impl<R: Registry> Parse for RegistryNvReference<R> {
    fn parse(text: &str, answer: &mut Answer) -> OrFault<RegistryNvReference<R>> {
        valid(RegistryNvReference::from_str(answer.alloc, text), answer)
    }
}

/// A call on the kind of a value, its text and another text.
pub fn of_kind(call: &str, arguments: &[Item], answer: &mut Answer) -> Reported {
    let (kind, text, other) = triple(arguments)?;
    match kind {
        "text" => of_ordered::<SmallStackString>(call, text, other, answer),
        "version" => of_ordered::<Version>(call, text, other, answer),
        "package" => of_ordered::<PackageReq>(call, text, other, answer),
        "dependency" => of_ordered::<JsrDepPackageReq>(call, text, other, answer),
        "name-version" => of_ordered::<PackageNv>(call, text, other, answer),
        "jsr-version" => of_ordered::<JsrPackageNvReference>(call, text, other, answer),
        "npm-version" => of_ordered::<NpmPackageNvReference>(call, text, other, answer),
        "range" => of_any::<VersionRange>(call, text, other, answer),
        "inner" => of_any::<RangeSetOrTag>(call, text, other, answer),
        "jsr" => of_any::<JsrPackageReqReference>(call, text, other, answer),
        "npm" => of_any::<NpmPackageReqReference>(call, text, other, answer),
        _ => Err(Fault::OtherArguments),
    }
}

// `order-of`: how the value compares to that of the other text.
fn of_ordered<T: Parse + Ord>(call: &str, text: &str, other: &str, to: &mut Answer) -> Reported {
    if call != "order-of" {
        return of_any::<T>(call, text, other, to);
    }
    let value = T::parse(text, to)?;
    let other = T::parse(other, to)?;
    to.order(value.cmp(&other))
}

// `equal-of`: whether the value equals that of the other text. `written`: the value as displayed, and with the other text before it,
// in each type of texts.
fn of_any<T: Parse>(call: &str, text: &str, other: &str, answer: &mut Answer) -> Reported {
    let value = T::parse(text, answer)?;
    match call {
        "equal-of" => {
            let other = T::parse(other, answer)?;
            answer.yes_or_no(value == other)
        }
        "written" => {
            answer.displayed(&value)?;
            append::<String, T>(&value, other, answer)?;
            append::<SmallStackString, T>(&value, other, answer)?;
            append::<StackString, T>(&value, other, answer)
        }
        _ => Err(Fault::OtherArguments),
    }
}

/// Reports the start with the value appended to it.
pub fn append<S: StringType, T: StringAppendable>(
    value: &T,
    start: &str,
    answer: &mut Answer,
) -> Reported {
    let mut text = S::with_capacity(answer.alloc, start.len())?;
    text.push_str(start)?;
    value.append_to(answer.alloc, &mut text)?;
    answer.text(text.as_str())
}
