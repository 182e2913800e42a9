//! npm's rules for versions and version requirements: parsers, their errors, and which texts are tags; and references to npm
//! packages.

ghost use Rattle.deno_semver.specs.declared.package.values.PackageKind.TheVariants.{Npm};

use crate::package::{PackageKind, Registry, RegistryNvReference, RegistryReqReference};
pub use semver_req::npm::{
    NpmVersionParseError, NpmVersionReqParseError, is_valid_npm_tag, parse_npm_version,
    parse_npm_version_req,
};

/// npm, as the registry of a reference.
pub enum NpmRegistry {}

impl Registry for NpmRegistry {
    ghost kind = { Npm };

    fn kind() -> PackageKind {
        PackageKind::Npm
    }
}

/// A reference to an npm package, such as `npm:@scope/name@1/mod.js`.
pub type NpmPackageReqReference = RegistryReqReference<NpmRegistry>;

/// A reference to one version of an npm package, such as `npm:@scope/name@1.0.0/mod.js`.
pub type NpmPackageNvReference = RegistryNvReference<NpmRegistry>;
