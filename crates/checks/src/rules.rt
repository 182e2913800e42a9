//! The rules of `ranges check`: what is legal, and probably a mistake.

use std::alloc::{AllocError, Global};
use std::fmt;
use strsim::osa_distance;

// The name that stands for every rule.
const ALL: &str = "all";

// Of so many letters one may be wrong.
const MANY_LETTERS: usize = 4;

/// How a finding by a rule counts.
#[derive(Clone, Copy, PartialEq, Eq)]
pub enum Level {
    Off,
    Warning,
    Error,
}

/// A rule about ranges, and about the files that hold them.
#[derive(Clone, Copy, PartialEq, Eq)]
pub enum Rule {
    AnyZero,
    ContainedAlternative,
    DisjointSections,
    DroppedAlternative,
    DuplicateKey,
    EmptyAlternative,
    IgnoredComparator,
    MetaWithoutRange,
    NoMatch,
    NotCanonical,
    NotUtf8,
    NpmDiffers,
    OddEngine,
    OddOverride,
    OddPath,
    OddSection,
    OddTag,
    OddVersion,
    OtherVersion,
    PreReleaseBound,
    UnmatchedWorkspace,
    UnreadRange,
}

/// A rule, its level where nothing sets it, what it finds, and what to do.
#[derive(Clone, Copy)]
pub struct About {
    pub rule: Rule,
    pub name: &'static str,
    pub level: Level,
    pub finds: &'static str,
    pub help: &'static str,
}

const COUNT: usize = 22;

/// All rules, by name.
pub const RULES: [About; COUNT] = [
    About {
        rule: Rule::AnyZero,
        name: "any-zero",
        level: Level::Warning,
        finds: "`^0` matches every 0.x, each of which may break what the one before did.",
        help: "Name the minor version, as in `^0.4`.",
    },
    About {
        rule: Rule::ContainedAlternative,
        name: "contained-alternative",
        level: Level::Warning,
        finds: "You don't need an alternative that another one contains.",
        help: "Leave it out: `^1.2 || ^1` means `^1`.",
    },
    About {
        rule: Rule::DisjointSections,
        name: "disjoint-sections",
        level: Level::Warning,
        finds: "Two sections ask for one package by ranges that share no version.",
        help: "Change one of the two ranges, so that they share a version.",
    },
    About {
        rule: Rule::DroppedAlternative,
        name: "dropped-alternative",
        level: Level::Warning,
        finds: "npm leaves out an alternative that isn't a range, and keeps the others.",
        help: "Write a range in its place, or leave it out: of `^1 || latest` npm reads `^1`.",
    },
    About {
        rule: Rule::DuplicateKey,
        name: "duplicate-key",
        level: Level::Warning,
        finds: "An object has a key twice. Readers of JSON take the last one.",
        help: "Keep one of the two.",
    },
    About {
        rule: Rule::EmptyAlternative,
        name: "empty-alternative",
        level: Level::Warning,
        finds: "An empty range or alternative matches every version.",
        help: "Write `*` if that is meant.",
    },
    About {
        rule: Rule::IgnoredComparator,
        name: "ignored-comparator",
        level: Level::Warning,
        finds: "npm ignores a word that isn't a comparator.",
        help: "Write `||` for `or`, a space for `and` and `&&`, and one of the two for `,`.",
    },
    About {
        rule: Rule::MetaWithoutRange,
        name: "meta-without-range",
        level: Level::Off,
        finds: "peerDependenciesMeta names a package that peerDependencies has no range for.",
        help: "Add its range to peerDependencies.",
    },
    About {
        rule: Rule::NoMatch,
        name: "no-match",
        level: Level::Warning,
        finds: "No version matches the range or the alternative.",
        help: "Correct its bounds, or leave it out.",
    },
    About {
        rule: Rule::NotCanonical,
        name: "not-canonical",
        level: Level::Off,
        finds: "The range isn't written in its canonical form.",
        help: "Write what `ranges canonical` prints, or run `ranges check --fix` with this rule on.",
    },
    About {
        rule: Rule::NotUtf8,
        name: "not-utf8",
        level: Level::Warning,
        finds: "A file of JSON has a byte that isn't valid UTF-8. npm reads U+FFFD in its place.",
        help: "Save the file as UTF-8.",
    },
    About {
        rule: Rule::NpmDiffers,
        name: "npm-differs",
        level: Level::Warning,
        finds: "npm reads the string differently from Deno.",
        help: "Write a range that both read alike: npm reads `1.x.3` as `1.x`.",
    },
    About {
        rule: Rule::OddEngine,
        name: "odd-engine",
        level: Level::Warning,
        finds: "`engines` or `devEngines` holds something other than a range: no version satisfies it, or package managers pass over it.",
        help: "Write a range in a string, as in `>=20`.",
    },
    About {
        rule: Rule::OddOverride,
        name: "odd-override",
        level: Level::Error,
        finds: "npm refuses the override as soon as the tree has its package.",
        help: "Correct the override, or leave it out.",
    },
    About {
        rule: Rule::OddPath,
        name: "odd-path",
        level: Level::Warning,
        finds: "npm takes a string with a `/` that looks like a range, a URL or a repository for a folder or something else.",
        help: "Leave the `/` out if a range is meant, begin the path of a folder with `./`, and write the whole URL of a repository.",
    },
    About {
        rule: Rule::OddSection,
        name: "odd-section",
        level: Level::Warning,
        finds: "A section of package.json isn't an object, or its name is misspelled, or an override is neither a string nor an object. npm usually passes over these.",
        help: "Write an object of names and ranges, as in `{\"react\": \"^18\"}`, and the name of the section as npm has it.",
    },
    About {
        rule: Rule::OddTag,
        name: "odd-tag",
        level: Level::Warning,
        finds: "The tag is one that hardly any package has.",
        help: "Write the range or the tag that is meant: `1-2`, `LATEST` and `undefined` are tags to npm.",
    },
    About {
        rule: Rule::OddVersion,
        name: "odd-version",
        level: Level::Warning,
        finds: "The version of a package isn't valid, or the pre-release of a version is itself a higher version, as of `1.0.0-2.0.0`.",
        help: "Write three numbers, or spaces around the `-` if you mean a range: `1.0.0 - 2.0.0`.",
    },
    About {
        rule: Rule::OtherVersion,
        name: "other-version",
        level: Level::Warning,
        finds: "The workspace has the package without a version, or in one that the range or the tag doesn't match, so it comes from the registry.",
        help: "Write a range that matches the version in the workspace.",
    },
    About {
        rule: Rule::PreReleaseBound,
        name: "pre-release-bound",
        level: Level::Off,
        finds: "A bound is a pre-release, so pre-releases of its three numbers match.",
        help: "Write the bound without its pre-release, unless that is meant.",
    },
    About {
        rule: Rule::UnmatchedWorkspace,
        name: "unmatched-workspace",
        level: Level::Warning,
        finds: "A pattern of workspaces matches no folder that has a manifest.",
        help: "Correct the pattern, or leave it out.",
    },
    About {
        rule: Rule::UnreadRange,
        name: "unread-range",
        level: Level::Warning,
        finds: "The package manager doesn't read this string, which it would refuse.",
        help: "Correct it, or leave it out.",
    },
];

impl Rule {
    /// The rule's name.
    pub fn name(self) -> &'static str {
        match RULES.iter().find(|about| about.rule == self) {
            Some(about) => about.name,
            None => "",
        }
    }
}

/// The levels of the rules, in their order.
#[derive(Clone, Copy)]
pub struct Levels([Level; COUNT]);

/// What isn't known of a setting.
#[derive(Clone, Copy)]
pub enum Unknown {
    /// The rule, and the one whose name is nearest.
    Rule(Option<&'static str>),
    Level,
    /// There is no level.
    NoLevel,
}

// The rule whose name is nearest to a text, if that may be meant.
fn nearest(alloc: Global, text: &str) -> Result<Option<&'static str>, AllocError> {
    let mut best = None;
    let mut least = usize::MAX;
    for about in &RULES {
        let edits = osa_distance(alloc, text, about.name)?;
        if edits < least && edits <= about.name.len() / MANY_LETTERS {
            best = Some(about.name);
            least = edits;
        }
    }
    Ok(best)
}

impl fmt::Display for Unknown {
    fn fmt<W: fmt::Write>(&self, f: &mut fmt::Formatter<W>) -> fmt::Result {
        match self {
            Unknown::NoLevel => {
                f.write_str("the level is missing: write NAME=off, NAME=warn or NAME=error")
            }
            Unknown::Level => f.write_str("no such level; there are off, warn and error"),
            Unknown::Rule(nearest) => {
                match nearest {
                    Some(nearest) => write!(f, "no such rule: is `{nearest}` meant? There are")?,
                    None => f.write_str("no such rule; there are")?,
                }
                let mut separator = " ";
                for about in &RULES {
                    write!(f, "{separator}{}", about.name)?;
                    separator = ", ";
                }
                Ok(())
            }
        }
    }
}

impl Levels {
    /// The levels where nothing sets them.
    pub fn new() -> Levels {
        let mut levels = [Level::Off; COUNT];
        for (level, about) in levels.iter_mut().zip(&RULES) {
            *level = about.level;
        }
        Levels(levels)
    }

    /// The level of a rule.
    pub fn of(&self, rule: Rule) -> Level {
        match self
            .0
            .iter()
            .zip(&RULES)
            .find(|(_, about)| about.rule == rule)
        {
            Some((level, _)) => *level,
            None => Level::Off,
        }
    }

    /// Sets the level of the rule with this name, or of all rules, or says what isn't known.
    pub fn set(
        &mut self,
        alloc: Global,
        name: &str,
        level: &str,
    ) -> Result<Option<Unknown>, AllocError> {
        let level = match level {
            "off" => Level::Off,
            "warn" | "warning" => Level::Warning,
            "error" => Level::Error,
            _ => return Ok(Some(Unknown::Level)),
        };
        if name == ALL {
            self.0 = [level; COUNT];
            return Ok(None);
        }
        let Some(place) = RULES.iter().position(|about| about.name == name) else {
            return Ok(Some(Unknown::Rule(nearest(alloc, name)?)));
        };
        if let Some(old) = self.0.get_mut(place) {
            *old = level;
        }
        Ok(None)
    }
}
