//! Which values of a manifest hold ranges.

/// What the text of a file should be.
#[derive(Clone, Copy, PartialEq, Eq)]
pub enum Kind {
    /// A range by npm's grammar.
    Range,
    /// What a package manager installs: such a range, a tag or another protocol.
    Dependency,
    /// A range that a runtime or a package manager should match.
    Engine,
    /// The package manager of `devEngines`, which Corepack reads: its object, its name or its `onFail`.
    Tool,
    /// A specifier, of which those of npm and JSR name a package.
    Specifier,
    /// A version.
    Version,
    /// The name of a package manager, and its version.
    Manager,
    /// What is said of a peer dependency beside its range.
    Meta,
    /// A pattern of the folders of workspaces.
    Workspace,
    /// The path or the URL of an import map.
    ImportMap,
    /// The level of a rule.
    Level,
    /// A key beside the levels of rules, which means nothing.
    Setting,
    /// What stands in place of such a level or of an object of settings, as the message says.
    OddSetting(&'static str),
    /// The name of the package.
    Name,
    /// Something else in place of that name.
    OddName,
    /// Whether the package is private.
    Private,
    /// A key of overrides: the name of a package, and perhaps a range behind an `@`. This text stands before another name, if one may follow.
    Override(&'static str),
    /// The object that workspaces may be.
    Workspaces,
    /// The key of the patterns in that object.
    Packages,
    /// A key that stands in its object before.
    Repeated,
    /// What is accepted of engines, and no range, as the message says.
    Odd(&'static str),
    /// What is accepted in place of a section, or of what it holds, as the message says.
    OddSection(&'static str),
    /// Something else, as the message says.
    Mistake(&'static str),
}

// Values at one place: the keys on the way, where `*` is any key, `[]` an item of an array, and `**`, at the end, one or more keys; what
// they are; and how many keys down anything else is a mistake.
#[derive(Clone, Copy)]
struct Section(&'static [&'static str], Kind, usize);

// Anything else is passed over.
const NEVER: usize = 100;

const SECTIONS: [Section; 34] = [
    Section(&["dependencies", "*"], Kind::Dependency, 1),
    Section(&["devDependencies", "*"], Kind::Dependency, 1),
    Section(&["peerDependencies", "*"], Kind::Dependency, 1),
    Section(&["optionalDependencies", "*"], Kind::Dependency, 1),
    Section(&["peerDependenciesMeta", "*"], Kind::Meta, NEVER),
    Section(&["overrides", "**"], Kind::Dependency, 1),
    Section(&["resolutions", "**"], Kind::Dependency, 1),
    Section(&["pnpm", "overrides", "*"], Kind::Dependency, 2),
    Section(&["catalog", "*"], Kind::Dependency, 1),
    Section(&["catalogs", "*", "*"], Kind::Dependency, 1),
    Section(&["workspaces", "catalog", "*"], Kind::Dependency, 2),
    Section(&["workspaces", "catalogs", "*", "*"], Kind::Dependency, 2),
    Section(&["engines", "*"], Kind::Engine, 1),
    Section(&["devEngines", "*", "version"], Kind::Engine, 3),
    Section(&["devEngines", "*", "[]", "version"], Kind::Engine, 4),
    Section(&["devEngines", "packageManager"], Kind::Tool, NEVER),
    Section(&["devEngines", "packageManager", "name"], Kind::Tool, NEVER),
    Section(
        &["devEngines", "packageManager", "onFail"],
        Kind::Tool,
        NEVER,
    ),
    Section(&["packageManager"], Kind::Manager, 1),
    Section(&["version"], Kind::Version, 1),
    Section(&["name"], Kind::Name, NEVER),
    Section(&["private"], Kind::Private, NEVER),
    Section(&["imports", "*"], Kind::Specifier, 1),
    Section(&["scopes", "*", "*"], Kind::Specifier, 1),
    Section(&["importMap"], Kind::ImportMap, NEVER),
    Section(&["workspaces", "[]"], Kind::Workspace, 1),
    Section(&["workspaces", "packages", "[]"], Kind::Workspace, 2),
    Section(&["workspace", "[]"], Kind::Workspace, NEVER),
    Section(&["workspace", "members", "[]"], Kind::Workspace, NEVER),
    Section(&["workspace", "catalog", "*"], Kind::Dependency, 2),
    Section(&["workspace", "catalogs", "*", "*"], Kind::Dependency, 2),
    Section(&["packages", "[]"], Kind::Workspace, NEVER),
    Section(&["ranges", "rules", "*"], Kind::Level, 1),
    Section(
        &["pnpm", "peerDependencyRules", "allowedVersions", "*"],
        Kind::Dependency,
        3,
    ),
];

/// What may stand at a place of a file.
#[derive(Clone, Copy)]
pub struct Place {
    /// What a text is there, and the first key on the way.
    pub text: Option<(Kind, &'static str)>,
    pub has_object: bool,
    pub has_array: bool,
    /// Whether anything else is a mistake.
    pub is_strict: bool,
}

impl Place {
    /// Where nothing holds ranges.
    pub const NOWHERE: Place = Place {
        text: None,
        has_object: false,
        has_array: false,
        is_strict: false,
    };
}

/// The key of an item of an array.
pub const ITEM: &str = "[]";

impl Section {
    // Adds what the section says of the place with these keys on the way.
    fn add(&self, place: &mut Place, path: &[String], last: &str, has_items: bool) {
        let Section(keys, kind, strict) = *self;
        let mut wanted = keys.iter().copied();
        let mut is_deep = false;
        let depth = path.len().saturating_add(1);
        for place in 0..depth {
            let key = match path.get(place) {
                Some(key) => key.as_str(),
                None => last,
            };
            let Some(want) = wanted.next() else {
                return;
            };
            if want == "**" {
                if has_items {
                    return;
                }
                is_deep = true;
                break;
            }
            let is_any = want == "*" && key != ITEM;
            if !is_any && want != key {
                return;
            }
        }
        place.is_strict |= depth >= strict;
        match wanted.next() {
            Some(ITEM) => place.has_array = true,
            Some(_) => place.has_object = true,
            None => {
                place.text = Some((kind, keys.first().copied().unwrap_or("")));
                place.has_object |= is_deep;
            }
        }
    }
}

/// What may stand at the place with these keys on the way, if some of them are items of arrays or none.
pub fn place_of(path: &[String], last: &str, has_items: bool) -> Place {
    let mut place = Place::NOWHERE;
    for section in &SECTIONS {
        section.add(&mut place, path, last, has_items);
    }
    place
}
