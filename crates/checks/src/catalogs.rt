//! Catalogs: the ranges to which the manifests of a workspace refer by `catalog:`.

use manifests::entry::Entry;
use manifests::sections::Kind;
use std::alloc::{AllocError, Global};
use std::collections::BTreeMap;

/// The name of the catalog that a key or a reference names; the one without a name has two.
pub fn catalog_name(name: &str) -> &str {
    match name {
        "" | "default" => "catalog",
        name => name,
    }
}

/// What a catalog has for a package.
#[derive(Drop)]
pub struct Shelved {
    catalog: String,
    text: String,
}

/// What all catalogs have, by the names of packages.
pub type Catalogs = BTreeMap<String, Vec<Shelved>>;

/// Adds an entry, if it is of a catalog.
pub fn shelve(alloc: Global, catalogs: &mut Catalogs, entry: &Entry) -> Result<(), AllocError> {
    let is_catalog = matches!(
        entry.section,
        "catalog" | "catalogs" | "workspaces" | "workspace"
    );
    if entry.kind != Kind::Dependency || !is_catalog {
        return Ok(());
    }
    let shelved = Shelved {
        catalog: String::from_str(alloc, catalog_name(entry.object.as_str()))?,
        text: String::from_str(alloc, entry.text.as_str())?,
    };
    let name = entry.name.as_str();
    if !catalogs.contains_key(name) {
        let _ = catalogs.insert(String::from_str(alloc, name)?, Vec::new(alloc))?;
    }
    if let Some(all) = catalogs.get_mut(name) {
        all.push(shelved)?;
    }
    Ok(())
}

/// A part of the catalogs of pnpm-workspace.yaml that can't be read.
#[derive(Drop)]
pub struct Gap {
    /// The name of the catalog; empty if it's all of them.
    catalog: String,
    /// The name of the package; empty if it's all of the catalog.
    package: String,
}

impl Gap {
    /// The part that a mistake is in, if it is in one.
    pub fn of(alloc: Global, entry: &Entry) -> Result<Option<Gap>, AllocError> {
        let (object, name) = (entry.object.as_str(), entry.name.as_str());
        let is_mistake = matches!(entry.kind, Kind::Mistake(_));
        let (catalog, package) = match (entry.depth, object) {
            (_, _) if !is_mistake => return Ok(None),
            (0, _) if name == "catalog" => (name, ""),
            (0, _) if name == "catalogs" => ("", ""),
            (1, "catalog") => (object, name),
            (1, "catalogs") => (catalog_name(name), ""),
            (2, _) => (catalog_name(object), name),
            (_, _) => return Ok(None),
        };
        Ok(Some(Gap {
            catalog: String::from_str(alloc, catalog)?,
            package: String::from_str(alloc, package)?,
        }))
    }

    /// Whether it may hold what a catalog has for a package.
    pub fn covers(&self, catalog: &str, package: &str) -> bool {
        let (own, name) = (self.catalog.as_str(), self.package.as_str());
        (own.is_empty() || own == catalog_name(catalog)) && (name.is_empty() || name == package)
    }
}

/// What a catalog has for a package.
pub fn text_in<'c>(catalogs: &'c Catalogs, catalog: &str, name: &str) -> Option<&'c str> {
    let catalog = catalog_name(catalog);
    let all = catalogs.get(name)?;
    let found = all.iter().find(|it| it.catalog.as_str() == catalog)?;
    Some(found.text.as_str())
}

/// The text of a dependency, or what the catalog has for it that the text refers to.
pub fn resolved<'e>(catalogs: &'e Catalogs, entry: &'e Entry) -> Option<&'e str> {
    let text = entry.text.as_str();
    let Some(catalog) = text.strip_prefix("catalog:") else {
        return Some(text);
    };
    text_in(catalogs, catalog, entry.name.as_str())
}
