//! Calls on packages, names with versions, dependencies, and references.

use crate::answer::{Answer, Fault, Item, OrFault, ReportError, Reported, valid};
use crate::arguments::{only, pair};
use crate::kinds::Parse;
use deno_semver::jsr::{
    JsrDepPackageReq, JsrDepPackageReqParseError, JsrRegistry, normalized_export_name,
};
use deno_semver::npm::NpmRegistry;
use deno_semver::package::{
    PackageKind, PackageNv, PackageNvParseError, PackageNvReferenceParseError, PackageReq,
    PackageReqParseError, PackageReqPartsParseError, PackageReqReferenceParseError, Registry,
    RegistryNvReference, RegistryReqReference, SpecifierError,
};

// The kind of an error.
fn kind(error: &PackageReqPartsParseError) -> OrFault<&'static str> {
    match error {
        PackageReqPartsParseError::NoPackageName => Ok("NoPackageName"),
        PackageReqPartsParseError::InvalidPackageName => Ok("InvalidPackageName"),
        PackageReqPartsParseError::MissingAtSymbol => Ok("MissingAtSymbol"),
        PackageReqPartsParseError::SpecifierVersionReq(_) => Ok("SpecifierVersionReq"),
        PackageReqPartsParseError::NpmVersionReq(_) => Ok("NpmVersionReq"),
        PackageReqPartsParseError::NormalizedVersionReq(_) => Ok("NormalizedVersionReq"),
        PackageReqPartsParseError::Memory => Err(Fault::OutOfMemory),
    }
}

impl ReportError for PackageReqParseError {
    fn report(&self, answer: &mut Answer) -> Reported {
        let copy = self.copy()?;
        answer.texts(&["rejected", kind(&copy.source)?, copy.text.as_str()])
    }
}

impl ReportError for JsrDepPackageReqParseError {
    fn report(&self, answer: &mut Answer) -> Reported {
        match &self.copy()? {
            JsrDepPackageReqParseError::NotExpectedScheme(scheme) => {
                answer.texts(&["rejected", "NotExpectedScheme", scheme.as_str()])
            }
            JsrDepPackageReqParseError::PackageReqParse(error) => error.report(answer),
            JsrDepPackageReqParseError::Memory => Err(Fault::OutOfMemory),
        }
    }
}

impl ReportError for PackageReqReferenceParseError {
    fn report(&self, answer: &mut Answer) -> Reported {
        match &self.copy()? {
            PackageReqReferenceParseError::NotExpectedScheme(kind) => {
                answer.texts(&["rejected", "NotExpectedScheme", kind.scheme_with_colon()])
            }
            PackageReqReferenceParseError::Invalid(error) => {
                answer.texts(&["rejected", kind(&error.source)?, error.specifier.as_str()])
            }
            PackageReqReferenceParseError::InvalidPathWithVersion(error) => {
                let (current, suggested) = (error.current.as_str(), error.suggested.as_str());
                answer.texts(&["rejected", "InvalidPathWithVersion", current, suggested])
            }
            PackageReqReferenceParseError::Memory => Err(Fault::OutOfMemory),
        }
    }
}

// Reports the message and the text of an error; that for out of memory has no message.
fn reject(message: &str, text: &str, answer: &mut Answer) -> Reported {
    if message.is_empty() {
        return Err(Fault::OutOfMemory);
    }
    answer.texts(&["rejected", message, text])
}

impl ReportError for PackageNvParseError {
    fn report(&self, answer: &mut Answer) -> Reported {
        let copy = self.copy()?;
        reject(copy.message.as_str(), copy.text.as_str(), answer)
    }
}

impl ReportError for PackageNvReferenceParseError {
    fn report(&self, answer: &mut Answer) -> Reported {
        let copy = self.copy()?;
        reject(copy.message.as_str(), copy.text.as_str(), answer)
    }
}

/// `package`: what a text parses to as a package, by a grammar.
pub fn package(arguments: &[Item], answer: &mut Answer) -> Reported {
    let (grammar, text) = pair(arguments)?;
    let alloc = answer.alloc;
    let parsed = match grammar {
        "strict" => PackageReq::from_str(alloc, text),
        "loose" => PackageReq::from_str_loose(alloc, text),
        "normalized" => PackageReq::from_str_normalized(alloc, text),
        _ => return Err(Fault::OtherArguments),
    };
    let req = valid(parsed, answer)?.copy()?;
    answer.texts(&["read", req.name.as_str(), req.version_req.version_text()])?;
    answer.made(req.to_string_normalized(alloc))?;
    answer.displayed(&req)
}

/// `dependency`: what a text parses to as a dependency, by a grammar.
pub fn dependency(arguments: &[Item], answer: &mut Answer) -> Reported {
    let (grammar, text) = pair(arguments)?;
    let alloc = answer.alloc;
    let parsed = match grammar {
        "strict" => JsrDepPackageReq::from_str(alloc, text),
        "loose" => JsrDepPackageReq::from_str_loose(alloc, text),
        "normalized" => JsrDepPackageReq::from_str_normalized(alloc, text),
        _ => return Err(Fault::OtherArguments),
    };
    let dependency = valid(parsed, answer)?.copy()?;
    answer.text("read")?;
    answer.text(match dependency.kind {
        PackageKind::Jsr => "jsr",
        PackageKind::Npm => "npm",
    })?;
    let req = &dependency.req;
    answer.texts(&[req.name.as_str(), req.version_req.version_text()])?;
    answer.made(dependency.to_string_normalized(alloc))?;
    answer.displayed(&dependency)
}

/// `name-version`: what a text parses to as a name with a version.
pub fn name_version(arguments: &[Item], answer: &mut Answer) -> Reported {
    let nv = PackageNv::parse(only(arguments)?, answer)?.copy()?;
    answer.texts(&["read", nv.name.as_str()])?;
    answer.displayed(&nv.version)?;
    answer.optional(nv.scope())?;
    answer.displayed(&nv)?;
    let req = nv.into_req(answer.alloc)?;
    answer.made(req.to_string_normalized(answer.alloc))
}

/// `reference` or `version-reference`: what a text parses to as a reference to a package of a registry, or to a version of it.
pub fn reference(call: &str, arguments: &[Item], answer: &mut Answer) -> Reported {
    let (registry, text) = pair(arguments)?;
    match (call, registry) {
        ("reference", "jsr") => reference_of::<JsrRegistry>(text, answer),
        ("reference", "npm") => reference_of::<NpmRegistry>(text, answer),
        (_, "jsr") => version_reference_of::<JsrRegistry>(text, answer),
        (_, "npm") => version_reference_of::<NpmRegistry>(text, answer),
        _ => Err(Fault::OtherArguments),
    }
}

fn reference_of<R: Registry>(text: &str, answer: &mut Answer) -> Reported {
    let reference = RegistryReqReference::<R>::parse(text, answer)?.copy()?;
    let req = reference.req();
    answer.text("read")?;
    answer.text(req.name.as_str())?;
    answer.text(req.version_req.version_text())?;
    answer.optional(reference.sub_path())?;
    answer.displayed(&reference)?;
    let reported = report_export(R::kind(), reference.sub_path(), answer);
    drop(reference);
    reported
}

fn version_reference_of<R: Registry>(text: &str, answer: &mut Answer) -> Reported {
    let reference = RegistryNvReference::<R>::parse(text, answer)?.copy()?;
    let nv = reference.nv();
    answer.text("read")?;
    answer.text(nv.name.as_str())?;
    answer.displayed(&nv.version)?;
    answer.optional(reference.sub_path())?;
    answer.displayed(&reference)?;
    let reported = report_export(R::kind(), reference.sub_path(), answer);
    drop(reference);
    reported
}

/// `specifier`: the URL of a reference to a version of a package of a registry.
pub fn specifier(arguments: &[Item], answer: &mut Answer) -> Reported {
    let (registry, text) = pair(arguments)?;
    match registry {
        "jsr" => specifier_of::<JsrRegistry>(text, answer),
        "npm" => specifier_of::<NpmRegistry>(text, answer),
        _ => Err(Fault::OtherArguments),
    }
}

fn specifier_of<R: Registry>(text: &str, answer: &mut Answer) -> Reported {
    let reference = RegistryNvReference::<R>::parse(text, answer)?;
    let made = reference.as_specifier(answer.alloc);
    drop(reference);
    match made {
        Ok(url) => answer.text(url.as_str()),
        Err(SpecifierError::Memory) => Err(Fault::OutOfMemory),
        Err(_) => answer.text("rejected"),
    }
}

// Reports the name of the export of a JSR package, or null.
fn report_export(kind: PackageKind, path: Option<&str>, answer: &mut Answer) -> Reported {
    match kind {
        PackageKind::Npm => answer.optional(None),
        PackageKind::Jsr => {
            let name = normalized_export_name(answer.alloc, path)?;
            answer.text(name.as_str())
        }
    }
}

/// `export`: the name of the export at a path or null.
pub fn export(arguments: &[Item], answer: &mut Answer) -> Reported {
    match arguments {
        [path] => report_export(PackageKind::Jsr, path.as_deref(), answer),
        _ => Err(Fault::OtherArguments),
    }
}
