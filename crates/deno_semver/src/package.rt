//! Packages: package requirements and names with versions, their parsing, texts and order.

mod cut;
mod errors;
mod name_version;
mod nv_reference;
mod order;
mod read;
mod reference;
mod registry;
mod values;

pub use cut::version_req_text;
pub(crate) use cut::without_slash;
pub use errors::{
    PackageReqParseError, PackageReqPartsParseError, PackageReqReferenceInvalidParseError,
    PackageReqReferenceInvalidWithVersionParseError, PackageReqReferenceParseError,
};
pub use name_version::PackageNvParseError;
pub use nv_reference::{PackageNvReference, PackageNvReferenceParseError, SpecifierError};
pub use order::cmp_version_reqs;
pub(crate) use read::normal_req_text;
pub use reference::PackageReqReference;
pub use registry::{Registry, RegistryNvReference, RegistryReqReference};
pub use values::{PackageKind, PackageName, PackageNv, PackageReq, PackageSubPath};
