//! The program's arguments, parsed with the crate `clap`.

use clap::builder::PossibleValue;
use clap::{Arg, ArgAction, ArgMatches, Command};
use semver_base::range::PreRelease;
use semver_req::common::values::Flavour;
use std::alloc::{AllocError, Global};

/// The program's version.
pub const VERSION: &str = "0.1.0";

/// The grammars of ranges, and an old name of one that is still taken.
pub fn grammars<'a>() -> [PossibleValue<'a>; 3] {
    [
        PossibleValue::new("npm"),
        PossibleValue::new("normalized").aliases(&["normal"]),
        PossibleValue::new("strict"),
    ]
}

const COLORS: &[&str] = &["auto", "always", "never"];

const KINDS: &[&str] = &[
    "major",
    "minor",
    "patch",
    "premajor",
    "preminor",
    "prepatch",
    "prerelease",
    "release",
];

const BASES: &[&str] = &["0", "1", "none"];

const STATUSES: &str = "\
Exit status: 0 yes, or there is an answer; 1 no or none; 2 a tag; 3 an invalid argument or line; 4 unknown arguments;
5 out of memory; 6 input can't be read or output can't be written. check has its own (ranges check --help).

- stands for standard input: for its one line, or for many where a command takes a list.";

/// The options of a command; one that it doesn't have is off.
#[derive(Clone, Copy)]
pub struct Options {
    /// The grammar of ranges.
    pub flavour: Flavour,
    pub pre_release: PreRelease,
    /// Whether to print JSON.
    pub json: bool,
    /// Whether to print no result.
    pub quiet: bool,
    /// Whether the highest version comes first.
    pub reverse: bool,
    /// Whether a NUL byte ends each line, of input and of output.
    pub null: bool,
    /// Whether what isn't a version is passed over.
    pub skip_invalid: bool,
    /// Whether folders have all their manifests, also those that git ignores.
    pub no_ignore: bool,
}

impl Options {
    /// The options among the arguments.
    pub fn of(matches: &ArgMatches<'_>) -> Options {
        let flavour = match matches.get_str("grammar") {
            Some("normalized" | "normal") => Flavour::Normal,
            Some("strict") => Flavour::Specifier,
            _ => Flavour::Npm,
        };
        let pre_release = if matches.get_flag("pre") {
            PreRelease::Admitted
        } else {
            PreRelease::Restricted
        };
        Options {
            flavour,
            pre_release,
            json: matches.get_flag("json"),
            quiet: matches.get_flag("quiet"),
            reverse: matches.get_flag("reverse"),
            null: matches.get_flag("null"),
            skip_invalid: matches.get_flag("skip-invalid"),
            no_ignore: matches.get_flag("no-ignore"),
        }
    }

    /// What ends a line of output.
    pub fn line_end(self) -> &'static str {
        if self.null { "\0" } else { "\n" }
    }
}

// ---- arguments

/// How an argument is given.
#[derive(Clone, Copy)]
enum Form {
    /// An option without a value, its short name, and the options that it doesn't go with.
    Flag(Option<char>, &'static [&'static str]),
    /// An option without a value, its short name, and the option that it needs.
    FlagWith(Option<char>, &'static str),
    /// An option whose value is one of these, the first where it isn't given.
    Choice(&'static str, &'static [&'static str]),
    /// The option that names a grammar, and its short name.
    Grammar(char),
    /// An option with a value, and the options that it doesn't go with.
    Value(&'static str, &'static [&'static str]),
    /// An option with a value, any number of times.
    Values(&'static str),
    /// One of these texts.
    Word(&'static [&'static str]),
    /// A text, if it must be there.
    Text(bool),
    /// At least so many texts.
    Texts(usize),
}

/// An argument of a command.
#[derive(Clone, Copy)]
struct Argument {
    name: &'static str,
    form: Form,
    help: &'static str,
}

const JSON: Argument = Argument {
    name: "json",
    form: Form::Flag(Some('j'), &[]),
    help: "Print JSON",
};

const QUIET: Argument = Argument {
    name: "quiet",
    form: Form::Flag(Some('q'), &["json"]),
    help: "Print no result: the status says it",
};

const GRAMMAR: Argument = Argument {
    name: "grammar",
    form: Form::Grammar('g'),
    help: "The grammar of ranges: npm's, the normalized one, or the strict one of package specifiers",
};

const PRE: Argument = Argument {
    name: "pre",
    form: Form::Flag(Some('p'), &[]),
    help: "Match every pre-release between the bounds",
};

const NULL: Argument = Argument {
    name: "null",
    form: Form::Flag(Some('0'), &[]),
    help: "End lines of input and output with a NUL byte",
};

const NULL_PATHS: Argument = Argument {
    name: "null",
    form: Form::FlagWith(Some('0'), "files"),
    help: "With --files, end each path with a NUL byte",
};

const TAGS: Argument = Argument {
    name: "tags",
    form: Form::Flag(None, &[]),
    help: "Read git's tags: refs/tags/v1.2.3 is 1.2.3",
};

const TAG_PREFIX: Argument = Argument {
    name: "tag-prefix",
    form: Form::Value("PREFIX", &[]),
    help: "Read only tags that begin with PREFIX, and what follows it: with react@, react@18.2.0 is 18.2.0",
};

const SKIP_INVALID: Argument = Argument {
    name: "skip-invalid",
    form: Form::Flag(None, &[]),
    help: "Pass over what isn't a version",
};

const INVERT: Argument = Argument {
    name: "invert-match",
    form: Form::Flag(Some('v'), &[]),
    help: "Print the versions that don't match",
};

const REVERSE: Argument = Argument {
    name: "reverse",
    form: Form::Flag(Some('r'), &[]),
    help: "Print the highest version first",
};

const GITHUB: Argument = Argument {
    name: "github",
    form: Form::Flag(None, &["json"]),
    help: "Print GitHub Actions annotations",
};

const CANONICAL: Argument = Argument {
    name: "canonical",
    form: Form::Flag(Some('c'), &[]),
    help: "Print every range with its canonical form",
};

const RULE: Argument = Argument {
    name: "rule",
    form: Form::Values("NAME=LEVEL"),
    help: "Set the level of a rule, or of all rules: off, warn (or warning) or error",
};

const STRICT: Argument = Argument {
    name: "strict",
    form: Form::Flag(None, &[]),
    help: "Exit with 1 on a warning",
};

const SARIF: Argument = Argument {
    name: "sarif",
    form: Form::Flag(None, &["json", "github", "quiet"]),
    help: "Print SARIF 2.1.0",
};

const FIX: Argument = Argument {
    name: "fix",
    form: Form::Flag(None, &[]),
    help: "Correct mistakes that have one correction; with --rule not-canonical=warn, also rewrite ranges to their canonical form",
};

const DRY_RUN: Argument = Argument {
    name: "dry-run",
    form: Form::Flag(None, &["json", "github", "sarif"]),
    help: "Print what --fix changes, as a unified diff, and on standard error what it leaves",
};

const EXCLUDE: Argument = Argument {
    name: "exclude",
    form: Form::Values("PATTERN"),
    help: "In folders, leave out what this pattern of .gitignore matches",
};

const NO_IGNORE: Argument = Argument {
    name: "no-ignore",
    form: Form::Flag(None, &[]),
    help: "In folders, also take what git's ignore rules and .ignore match",
};

const LIST: Argument = Argument {
    name: "files",
    form: Form::Flag(
        None,
        &["json", "github", "sarif", "canonical", "fix", "dry-run"],
    ),
    help: "Print the files to check, and check nothing",
};

const STDIN_NAME: Argument = Argument {
    name: "stdin-filename",
    form: Form::Value("NAME", &[]),
    help: "With - as a file, read standard input as a file of this name would be, such as package.json",
};

const RANGE: Argument = Argument {
    name: "RANGE",
    form: Form::Text(true),
    help: "The range",
};

const RANGES: Argument = Argument {
    name: "RANGE",
    form: Form::Texts(1),
    help: "The ranges, or - for standard input, a range per line",
};

const TWO_RANGES: Argument = Argument {
    name: "RANGE",
    form: Form::Texts(2),
    help: "The ranges, two or more; one may be -, for the line of standard input",
};

const MORE_RANGES: Argument = Argument {
    name: "range",
    form: Form::Values("RANGE"),
    help: "Another range, which a version has to match too",
};

const WHERE: Argument = Argument {
    name: "where",
    form: Form::Value("KEY,PRE", &["json"]),
    help: "Print an SQL condition over two columns: KEY, the sort key, and PRE, whether the version is a pre-release",
};

const NEW: Argument = Argument {
    name: "NEW",
    form: Form::Text(true),
    help: "The new range",
};

const OLD: Argument = Argument {
    name: "OLD",
    form: Form::Text(true),
    help: "The old range",
};

const ONE: Argument = Argument {
    name: "ONE",
    form: Form::Text(true),
    help: "The first version",
};

const OTHER: Argument = Argument {
    name: "OTHER",
    form: Form::Text(true),
    help: "The other version",
};

const KIND: Argument = Argument {
    name: "KIND",
    form: Form::Word(KINDS),
    help: "Which next version to print",
};

const VERSION_BEFORE: Argument = Argument {
    name: "VERSION",
    form: Form::Text(true),
    help: "The version that it comes after",
};

const PREID: Argument = Argument {
    name: "preid",
    form: Form::Value("ID", &[]),
    help: "The identifiers with which a pre-release begins, such as beta",
};

const BASE: Argument = Argument {
    name: "base",
    form: Form::Choice("NUMBER", BASES),
    help: "The number that a new pre-release gets after its identifiers, or none",
};

const VERSIONS: Argument = Argument {
    name: "VERSION",
    form: Form::Texts(0),
    help: "A version; without any, or for -, standard input: a version per line, or a JSON array",
};

const FILES: Argument = Argument {
    name: "FILE",
    form: Form::Texts(0),
    help: "A package.json, deno.json, import map, pnpm-workspace.yaml, file with a range per line, folder, or - for standard input; without any, this folder and its workspaces",
};

const FOLDER: Argument = Argument {
    name: "FOLDER",
    form: Form::Text(false),
    help: "A folder with manifests; without one, this folder and its workspaces",
};

const NAMED: Argument = Argument {
    name: "package",
    form: Form::Values("NAME"),
    help: "Print only this package, even if one manifest alone asks for it",
};

const APART: Argument = Argument {
    name: "apart",
    form: Form::Flag(None, &[]),
    help: "Print only packages with no version that all accept",
};

const PACKAGE: Argument = Argument {
    name: "TEXT",
    form: Form::Text(true),
    help: "The package, such as @scope/name@^1.2",
};

const REFERENCE: Argument = Argument {
    name: "TEXT",
    form: Form::Text(true),
    help: "The reference, such as jsr:@scope/name@1/mod.ts",
};

const HOLDING: Argument = Argument {
    name: "TEXT",
    form: Form::Text(true),
    help: "The string that holds a version",
};

const RTL: Argument = Argument {
    name: "rtl",
    form: Form::Flag(None, &[]),
    help: "Print the version that ends last",
};

const WHOLE: Argument = Argument {
    name: "pre",
    form: Form::Flag(Some('p'), &[]),
    help: "Print the pre-release and the build behind the numbers, too",
};

fn option<'a>(alloc: Global, argument: &Argument, short: Option<char>) -> Arg<'a> {
    let option = Arg::new(alloc, argument.name).long(argument.name);
    match short {
        Some(short) => option.short(short),
        None => option,
    }
}

// ---- commands

/// A command: what it is for, its arguments, and examples.
#[derive(Clone, Copy)]
struct Entry {
    name: &'static str,
    about: &'static str,
    arguments: &'static [Argument],
    examples: &'static str,
}

// Commands that have another name, and that name.
const ALIASES: [(&str, &str); 2] = [("filter", "matches"), ("canonical", "normal")];

const ON_FILES: &[Entry] = &[
    Entry {
        name: "check",
        about: "Check the ranges of package.json, deno.json, import maps and pnpm-workspace.yaml",
        arguments: &[
            JSON, GITHUB, SARIF, CANONICAL, FIX, DRY_RUN, EXCLUDE, NO_IGNORE, LIST, NULL_PATHS,
            RULE, STRICT, QUIET, STDIN_NAME, FILES,
        ],
        examples: "\
Examples:
  ranges check
  ranges check --rule any-zero=off --rule no-match=error packages
  ranges check --strict --canonical packages/*/package.json
  ranges check --fix --dry-run
  ranges check --fix --rule not-canonical=warn
  ranges check --exclude fixtures --files .
  ranges check --stdin-filename package.json - < package.json

Rules: any-zero, contained-alternative, disjoint-sections, dropped-alternative, duplicate-key, empty-alternative,
ignored-comparator, no-match, not-utf8, npm-differs, odd-engine, odd-override, odd-path, odd-section, odd-tag, odd-version,
other-version, unmatched-workspace, unread-range. Unless you set them, these are off: meta-without-range, not-canonical,
pre-release-bound; odd-override is at the level error, and each other rule at the level warn, which prints a warning.

Exit status: 0 no error; 1 an error, or with --strict a warning, or --dry-run prints a change; 2 unknown arguments;
3 a file can't be read or written; 5 out of memory; 6 output can't be written. Only other commands end with 4.",
    },
    Entry {
        name: "asked",
        about: "Print the packages that several manifests ask for, and each range",
        arguments: &[JSON, PRE, EXCLUDE, NO_IGNORE, QUIET, FOLDER, NAMED, APART],
        examples: "\
Examples:
  ranges asked
  ranges asked --apart
  ranges asked --package react --package react-dom
  ranges asked --json packages",
    },
];

const ON_RANGES: &[Entry] = &[
    Entry {
        name: "explain",
        about: "Explain what ranges mean",
        arguments: &[JSON, GRAMMAR, PRE, RANGES],
        examples: "\
Examples:
  ranges explain '>=1.2 <2 || 3.x'
  ranges explain --json '^1.2.3-beta'",
    },
    Entry {
        name: "canonical",
        about: "Print the canonical form of ranges",
        arguments: &[JSON, GRAMMAR, RANGES],
        examples: "\
Examples:
  ranges canonical '>=1.2 <2 || 3.x'
  ranges canonical '1.x' '~2.3.0'",
    },
    Entry {
        name: "min",
        about: "Print the lowest version that a range matches",
        arguments: &[JSON, GRAMMAR, PRE, QUIET, RANGE],
        examples: "\
Examples:
  ranges min '>1.2.3'
  ranges min --pre '>1.2.3'",
    },
    Entry {
        name: "common",
        about: "Print the lowest version that all ranges match",
        arguments: &[JSON, GRAMMAR, PRE, QUIET, TWO_RANGES],
        examples: "\
Examples:
  ranges common '^1.2' '~1.4 || ^2'
  ranges common --pre '>1.0.0' '<1.0.1'",
    },
    Entry {
        name: "within",
        about: "Check whether OLD matches each version that NEW matches",
        arguments: &[JSON, GRAMMAR, PRE, QUIET, NEW, OLD],
        examples: "\
Examples:
  ranges within '^1.3' '^1.2'
  ranges within '>=1.3' '^1.2'",
    },
    Entry {
        name: "overlap",
        about: "Check whether each pair of ranges shares a version",
        arguments: &[JSON, GRAMMAR, PRE, QUIET, TWO_RANGES],
        examples: "\
Examples:
  ranges overlap '^1.2' '>=1.5 <3'
  ranges overlap --quiet '^1.2' '~1.4' '1.4.x'",
    },
    Entry {
        name: "scans",
        about: "Print what a range matches, as scans of an index on sort keys",
        arguments: &[JSON, GRAMMAR, PRE, QUIET, WHERE, RANGE],
        examples: "\
Examples:
  ranges scans '^1.2 || 3'
  ranges scans --where key,pre '^1.2'",
    },
    Entry {
        name: "package",
        about: "Print the parts of a package with a range",
        arguments: &[JSON, GRAMMAR, PACKAGE],
        examples: "\
Examples:
  ranges package '@scope/name@^1.2'
  ranges package --json react",
    },
    Entry {
        name: "reference",
        about: "Print the parts of a reference to a package",
        arguments: &[JSON, REFERENCE],
        examples: "\
Examples:
  ranges reference jsr:@scope/name@1/mod.ts
  ranges reference --json npm:preact",
    },
];

const ON_VERSIONS: &[Entry] = &[
    Entry {
        name: "filter",
        about: "Print the versions that match, in the order given",
        arguments: &[
            JSON,
            GRAMMAR,
            PRE,
            QUIET,
            INVERT,
            RANGE,
            NULL,
            TAGS,
            TAG_PREFIX,
            SKIP_INVALID,
            VERSIONS,
            MORE_RANGES,
        ],
        examples: "\
Examples:
  ranges filter '^1.2' 1.1.9 1.2.0 1.10.0
  ranges filter --invert-match '^1.2' 1.1.9 1.2.0 1.10.0
  ranges matches --quiet '^1.2' 1.3.0
  npm view react versions --json | ranges filter '^18'",
    },
    Entry {
        name: "best",
        about: "Print the highest version that matches",
        arguments: &[
            JSON,
            GRAMMAR,
            PRE,
            QUIET,
            RANGE,
            NULL,
            TAGS,
            TAG_PREFIX,
            SKIP_INVALID,
            VERSIONS,
            MORE_RANGES,
        ],
        examples: "\
Examples:
  ranges best '^1.2' 1.2.0 1.10.0 1.9.9
  git ls-remote --tags origin | ranges best --tags --skip-invalid '^1.2'
  git tag | ranges best --tag-prefix react@ '^18'",
    },
    Entry {
        name: "outdated",
        about: "Print the highest version that matches, and the highest of all",
        arguments: &[
            JSON,
            GRAMMAR,
            PRE,
            QUIET,
            RANGE,
            NULL,
            TAGS,
            TAG_PREFIX,
            SKIP_INVALID,
            VERSIONS,
        ],
        examples: "\
Examples:
  ranges outdated '^1.2' 1.2.0 1.10.0 2.0.0
  npm view react versions --json | ranges outdated '^17'",
    },
    Entry {
        name: "simplify",
        about: "Print a short range that matches the same versions",
        arguments: &[
            JSON,
            GRAMMAR,
            PRE,
            RANGE,
            NULL,
            TAGS,
            TAG_PREFIX,
            SKIP_INVALID,
            VERSIONS,
        ],
        examples: "\
Examples:
  ranges simplify '1.2.0 || 1.3.0 || 1.4.0' 1.1.0 1.2.0 1.3.0 1.4.0 1.5.0
  npm view react versions --json | ranges simplify '>=16.8 <17 || ^17 || ^18'",
    },
    Entry {
        name: "compare",
        about: "Print <, = or > for the order of two versions",
        arguments: &[JSON, ONE, OTHER],
        examples: "\
Examples:
  ranges compare 1.9.0 1.10.0
  ranges compare --json 1.0.0-rc.1 1.0.0",
    },
    Entry {
        name: "sort",
        about: "Sort versions by precedence",
        arguments: &[
            JSON,
            REVERSE,
            NULL,
            TAGS,
            TAG_PREFIX,
            SKIP_INVALID,
            VERSIONS,
        ],
        examples: "\
Examples:
  ranges sort 1.10.0 1.9.0 1.9.0-rc.1
  git tag | ranges sort --reverse --tags --skip-invalid",
    },
    Entry {
        name: "key",
        about: "Print the sort key of each version, for a column of a database",
        arguments: &[JSON, NULL, TAGS, TAG_PREFIX, SKIP_INVALID, VERSIONS],
        examples: "\
Examples:
  ranges key 1.10.0 1.10.0-beta.2
  ranges key --json < versions",
    },
    Entry {
        name: "increment",
        about: "Print the next major, minor, patch or pre-release version",
        arguments: &[JSON, PREID, BASE, KIND, VERSION_BEFORE],
        examples: "\
Examples:
  ranges increment minor 1.2.3
  ranges increment prerelease 1.2.3 --preid beta --base 1",
    },
    Entry {
        name: "difference",
        about: "Print what changed between two versions, such as minor",
        arguments: &[JSON, QUIET, ONE, OTHER],
        examples: "\
Examples:
  ranges difference 1.2.3 1.3.0
  ranges difference --json 1.0.0-rc.1 1.0.0",
    },
    Entry {
        name: "coerce",
        about: "Print the version that a string holds",
        arguments: &[JSON, WHOLE, RTL, HOLDING],
        examples: "\
Examples:
  ranges coerce v1.2
  ranges coerce --pre 'release 1.2.3-rc.1'
  ranges coerce --rtl 'node 20.11 replaces 18.19.1'",
    },
];

fn command<'a>(
    alloc: Global,
    entry: &Entry,
    grammars: &'a [PossibleValue<'a>],
) -> Result<Command<'a>, AllocError> {
    let mut command = Command::new(alloc, entry.name)
        .about(entry.about)
        .after_help(entry.examples)
        .version(VERSION)
        .args_override_self(true);
    for alias in &ALIASES {
        if entry.name == alias.0 {
            command = command.visible_alias(alias.1)?;
        }
    }
    for argument in entry.arguments {
        let arg = match argument.form {
            Form::Flag(short, others) => option(alloc, argument, short)
                .action(ArgAction::SetTrue)
                .conflicts_with_all(others)?,
            Form::FlagWith(short, other) => option(alloc, argument, short)
                .action(ArgAction::SetTrue)
                .requires_arg(other)?,
            Form::Choice(value, values) => option(alloc, argument, None)
                .value_name(value)
                .value_parser(values)
                .default_value(values.first().copied().unwrap_or("")),
            Form::Grammar(short) => option(alloc, argument, Some(short))
                .value_name("GRAMMAR")
                .value_parser(grammars)
                .default_value("npm"),
            Form::Value(value, others) => option(alloc, argument, None)
                .value_name(value)
                .conflicts_with_all(others)?,
            Form::Values(value) => option(alloc, argument, None)
                .value_name(value)
                .action(ArgAction::Append),
            Form::Word(words) => Arg::new(alloc, argument.name)
                .required(true)
                .value_parser(words),
            Form::Text(required) => Arg::new(alloc, argument.name).required(required),
            Form::Texts(count) => Arg::new(alloc, argument.name)
                .required(count > 0)
                .num_args(count..)
                .action(ArgAction::Append),
        };
        command = command.arg(arg.help(argument.help))?;
    }
    Ok(command)
}

// The program with these commands, too.
fn with_commands<'a>(
    alloc: Global,
    mut program: Command<'a>,
    entries: &[Entry],
    grammars: &'a [PossibleValue<'a>],
) -> Result<Command<'a>, AllocError> {
    for entry in entries {
        program = program.subcommand(command(alloc, entry, grammars)?)?;
    }
    Ok(program)
}

/// The program's commands, of which some take one of these grammars.
pub fn program<'a>(
    alloc: Global,
    grammars: &'a [PossibleValue<'a>],
) -> Result<Command<'a>, AllocError> {
    let color = Arg::new(alloc, "color")
        .long("color")
        .value_name("WHEN")
        .value_parser(COLORS)
        .default_value("auto")
        .global(true)
        .help("When to print colours");
    let program = Command::new(alloc, "ranges")
        .about("Explain version ranges of npm and JSR packages, and find the versions that match")
        .after_help(STATUSES)
        .version(VERSION)
        .args_override_self(true)
        .subcommand_required(true)
        .arg_required_else_help(true)
        .arg(color)?;
    let program = with_commands(alloc, program, ON_FILES, grammars)?;
    let program = with_commands(alloc, program, ON_RANGES, grammars)?;
    with_commands(alloc, program, ON_VERSIONS, grammars)
}
