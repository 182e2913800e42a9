//! What `ranges check` finds, and how it is printed.

use crate::errors::{add_first, first_hint, first_place, print_errors};
use crate::rewriting::replacement;
use crate::rules::{Level, Levels, RULES, Rule};
use answers::object::Object;
use clap::ArgMatches;
use manifests::entry::Entry;
use manifests::sections::Kind;
use package_answers::errors::PackageErrors;
use semver_req::common::values::Flavour;
use serde_json::Value;
use std::alloc::{AllocError, Global};
use std::fmt;
use std::io::Write;
use terminal::args::VERSION;
use terminal::console::{Console, END, ERROR, Status, Stop, WARNING, print_line};
use terminal::shown::{Quoted, Shown};

/// How findings are printed.
#[derive(Clone, Copy, PartialEq, Eq)]
pub enum Format {
    /// They aren't: only the status tells.
    Silent,
    Lines,
    Json,
    GitHub,
    Sarif,
}

/// Why there is a finding.
#[derive(Clone, Copy, PartialEq, Eq)]
pub enum Cause {
    /// What reads the file refuses the entry.
    Refused,
    Rule(Rule),
    /// The range is as it should be, and printed with its canonical form.
    Fine,
}

/// What was found in an entry.
#[derive(Clone, Copy)]
pub struct Finding<'f> {
    pub cause: Cause,
    pub message: &'f str,
    /// Where the text is wrong.
    pub errors: Option<&'f PackageErrors>,
}

impl<'f> Finding<'f> {
    /// A finding without the places of errors.
    pub fn new(cause: Cause, message: &'f str) -> Finding<'f> {
        Finding {
            cause,
            message,
            errors: None,
        }
    }

    /// A finding by a rule.
    pub fn by(rule: Rule, message: &'f str) -> Finding<'f> {
        Finding::new(Cause::Rule(rule), message)
    }

    // The rule's name in brackets, behind a space.
    fn ending(&self, alloc: Global) -> Result<String, AllocError> {
        match self.cause {
            Cause::Rule(rule) => format!(in alloc; " [{}]", rule.name()),
            Cause::Refused | Cause::Fine => Ok(String::new(alloc)),
        }
    }
}

/// By which rule a refusal of an entry counts that npm doesn't read, or doesn't always read.
#[derive(Clone, Copy)]
pub struct Aside {
    pub rule: Rule,
    /// What the message ends with.
    pub why: &'static str,
}

// How much a finding weighs.
#[derive(Clone, Copy, PartialEq, Eq)]
enum Weight {
    Error,
    Warning,
    Notice,
}

impl Weight {
    fn name(self) -> &'static str {
        match self {
            Weight::Error => "error",
            Weight::Warning => "warning",
            Weight::Notice => "notice",
        }
    }
}

/// A place in a file: the line and the column, counted from 1.
#[derive(Clone, Copy)]
pub struct Position {
    index: usize,
    line: usize,
    column: usize,
}

impl Position {
    /// The start of a file.
    pub const START: Position = Position {
        index: 0,
        line: 1,
        column: 1,
    };

    /// Moves on to this index of the file.
    pub fn move_to(&mut self, file: &str, index: usize) {
        for c in file.get(self.index..index).unwrap_or("").chars() {
            if c == '\n' {
                self.line = self.line.saturating_add(1);
                self.column = 1;
            } else {
                self.column = self.column.saturating_add(1);
            }
        }
        self.index = index;
    }
}

impl fmt::Display for Position {
    fn fmt<W: fmt::Write>(&self, f: &mut fmt::Formatter<W>) -> fmt::Result {
        write!(f, "{}:{}", self.line, self.column)
    }
}

/// The findings so far.
#[derive(Clone, Copy)]
pub struct Report<'r> {
    pub format: Format,
    /// Whether each range is printed with its canonical form.
    pub canonical: bool,
    pub levels: Levels,
    /// The name that standard input goes by.
    pub stdin: &'r str,
    pub file: &'r str,
    /// The text of the file.
    pub text: &'r str,
    pub position: Position,
    pub status: Status,
    /// The status of a warning.
    pub warning: Status,
    /// The keys of resolutions that name a package with a range, if the format is JSON: --fix leaves such ranges alone.
    pub pins: &'r [String],
    /// Whether --fix leaves the file alone.
    pub is_left: bool,
    /// What is said of refusals of this entry.
    pub aside: Option<Aside>,
}

impl Format {
    /// Prints what stands before all findings.
    pub fn begin<O: Write, E: Write>(self, console: &mut Console<O, E>) -> Result<(), Stop> {
        match self {
            Format::Sarif => {
                let rules = sarif_rules(console.alloc)?.to_string(console.alloc)?;
                Ok(write!(
                    console.out,
                    "{SARIF_FRONT}{rules},\"version\":\"{VERSION}\"{SARIF_MIDDLE}"
                )?)
            }
            Format::Silent | Format::Lines | Format::Json | Format::GitHub => Ok(()),
        }
    }

    /// Whether findings name paths from the top of the repository.
    pub fn is_of_repository(self) -> bool {
        matches!(self, Format::GitHub | Format::Sarif)
    }

    /// Prints what stands behind all findings, and to SARIF's readers whether each file could be read.
    pub fn end<O: Write, E: Write>(
        self,
        console: &mut Console<O, E>,
        status: Status,
    ) -> Result<(), Stop> {
        match self {
            Format::Silent | Format::Lines | Format::GitHub => Ok(()),
            Format::Json => console.end_items(),
            Format::Sarif => {
                console.end_items()?;
                let is_whole = matches!(status, Status::Answered | Status::Found);
                print_line(
                    &mut console.out,
                    format_args!(",\"invocations\":[{{\"executionSuccessful\":{is_whole}}}]}}]}}"),
                )
            }
        }
    }
}

impl<'r> Report<'r> {
    /// No finding so far, by the options of `check`.
    pub fn new(matches: &'r ArgMatches<'_>) -> Report<'r> {
        let stdin = match matches.get_str("stdin-filename") {
            Some(name) => name,
            None => "-",
        };
        let format = if matches.get_flag("json") {
            Format::Json
        } else if matches.get_flag("github") {
            Format::GitHub
        } else if matches.get_flag("sarif") {
            Format::Sarif
        } else {
            Format::Lines
        };
        let warning = if matches.get_flag("strict") {
            Status::Found
        } else {
            Status::Answered
        };
        Report {
            format,
            canonical: matches.get_flag("canonical"),
            levels: Levels::new(),
            stdin,
            file: "-",
            text: "",
            position: Position::START,
            status: Status::Answered,
            warning,
            pins: &[],
            is_left: false,
            aside: None,
        }
    }
}

// A text as GitHub reads it in an annotation, where in a property `:` and `,` are escaped too.
fn escaped(alloc: Global, text: &str, is_property: bool) -> Result<String, AllocError> {
    let mut all = String::new(alloc);
    for c in text.chars() {
        match c {
            '%' => all.push_str("%25")?,
            '\n' => all.push_str("%0A")?,
            ':' if is_property => all.push_str("%3A")?,
            ',' if is_property => all.push_str("%2C")?,
            c => all.push(c)?,
        }
    }
    Ok(all)
}

// A path as a URI.
fn uri(alloc: Global, path: &str) -> Result<String, AllocError> {
    let mut all = String::new(alloc);
    for byte in path.strip_prefix("./").unwrap_or(path).bytes() {
        if byte.is_ascii_alphanumeric() || matches!(byte, b'/' | b'.' | b'-' | b'_' | b'~') {
            all.push(byte as char)?;
        } else {
            let escape = format!(in alloc; "%{byte:02X}")?;
            all.push_str(escape.as_str())?;
        }
    }
    Ok(all)
}

// SARIF up to its rules, and between the program's version and its results.
const SARIF_FRONT: &str = "\
{\"$schema\":\"https://json.schemastore.org/sarif-2.1.0.json\",\"version\":\"2.1.0\",\
\"runs\":[{\"columnKind\":\"unicodeCodePoints\",\"tool\":{\"driver\":{\"name\":\"ranges\",\"rules\":";

const SARIF_MIDDLE: &str = "}},\"results\":";

// What is found without a rule: its name and level, what it is, and what to do.
const OTHERS: [[&str; 4]; 2] = [
    [
        "canonical",
        "note",
        "The canonical form of a range.",
        "Nothing is wrong: --canonical prints each range with this form.",
    ],
    [
        "invalid",
        "error",
        "A program that reads the file refuses this string.",
        "Write a range, a version or a specifier, as the message says.",
    ],
];

// A text as SARIF has it.
fn sarif_text(alloc: Global, text: &str) -> Result<Value, AllocError> {
    Object::new(alloc).put_text("text", Some(text)).into_json()
}

// A rule in SARIF: its name, its level, what it finds, and what to do. A rule without a level is off.
fn sarif_rule(
    alloc: Global,
    name: &str,
    level: Option<&str>,
    finds: &str,
    help: &str,
) -> Result<Value, AllocError> {
    let both = format!(in alloc; "{finds} {help}")?;
    let setting = match level {
        Some(level) => Object::new(alloc).put_text("level", Some(level)),
        None => Object::new(alloc).put("enabled", Ok(Value::Bool(false))),
    };
    Object::new(alloc)
        .put("defaultConfiguration", setting.into_json())
        .put("fullDescription", sarif_text(alloc, both.as_str()))
        .put("help", sarif_text(alloc, help))
        .put_text("id", Some(name))
        .put("shortDescription", sarif_text(alloc, finds))
        .into_json()
}

// The rules in SARIF.
fn sarif_rules(alloc: Global) -> Result<Value, AllocError> {
    let mut all = Vec::new(alloc);
    for about in &RULES {
        let level = match about.level {
            Level::Off => None,
            Level::Warning => Some("warning"),
            Level::Error => Some("error"),
        };
        all.push(sarif_rule(alloc, about.name, level, about.finds, about.help)?)?;
    }
    for [name, level, finds, help] in OTHERS {
        all.push(sarif_rule(alloc, name, Some(level), finds, help)?)?;
    }
    Ok(Value::Array(all))
}

// The grammar of an entry's range.
fn grammar(entry: &Entry) -> Option<Flavour> {
    match entry.kind {
        Kind::Specifier => Some(Flavour::Specifier),
        Kind::Version | Kind::Manager => None,
        _ => Some(Flavour::Npm),
    }
}

// Whether the entry's text is shown.
fn has_text(entry: &Entry) -> bool {
    !matches!(
        entry.kind,
        Kind::Mistake(_)
            | Kind::Odd(_)
            | Kind::OddSection(_)
            | Kind::OddSetting(_)
            | Kind::OddName
            | Kind::Meta
            | Kind::Repeated
            | Kind::Setting
            | Kind::Tool
            | Kind::Workspaces
    )
}

// The name of an entry; that of an engine isn't one of a package, and has its section in front.
fn name_of(alloc: Global, entry: &Entry) -> Result<String, AllocError> {
    let (object, name) = (entry.object.as_str(), entry.name.as_str());
    match (entry.section, object) {
        (_, "engines") if entry.depth == 1 => format!(in alloc; "engines.{name}"),
        ("devEngines", "[]" | "devEngines") => format!(in alloc; "devEngines.{name}"),
        ("devEngines", _) => format!(in alloc; "devEngines.{object}.{name}"),
        (_, _) => String::from_str(alloc, name),
    }
}

// The name of an entry and its text, where there are such, the message, and the rule.
fn line(alloc: Global, entry: &Entry, finding: Finding<'_>) -> Result<String, AllocError> {
    let name = name_of(alloc, entry)?;
    let (name, text) = (Shown(name.as_str()), Quoted(entry.text.as_str()));
    let (message, ending) = (Shown(finding.message), finding.ending(alloc)?);
    match (entry.name.is_empty(), has_text(entry)) {
        (true, false) => format!(in alloc; "{message}{ending}"),
        (false, false) => format!(in alloc; "{name}: {message}{ending}"),
        (true, true) => format!(in alloc; "{text}: {message}{ending}"),
        (false, true) => format!(in alloc; "{name}: {text}: {message}{ending}"),
    }
}

// The hint at the first error, if there is one.
fn hint_of(
    alloc: Global,
    entry: &Entry,
    finding: Finding<'_>,
) -> Result<Option<String>, AllocError> {
    let Some(errors) = finding.errors else {
        return Ok(None);
    };
    match first_hint(entry.text.as_str(), errors, grammar(entry)) {
        Some(hint) => Ok(Some(format!(in alloc; "{hint}")?)),
        None => Ok(None),
    }
}

// The same line, and the hint on a line of its own.
fn lines(alloc: Global, entry: &Entry, finding: Finding<'_>) -> Result<String, AllocError> {
    let mut all = line(alloc, entry, finding)?;
    if let Some(hint) = hint_of(alloc, entry, finding)? {
        all.push('\n')?;
        all.push_str(hint.as_str())?;
    }
    Ok(all)
}

impl Report<'_> {
    // How much a finding weighs, if it counts.
    fn weight(&self, cause: Cause) -> Option<Weight> {
        match cause {
            Cause::Refused => Some(Weight::Error),
            Cause::Fine => Some(Weight::Notice),
            Cause::Rule(rule) => match self.levels.of(rule) {
                Level::Off => None,
                Level::Warning => Some(Weight::Warning),
                Level::Error => Some(Weight::Error),
            },
        }
    }

    fn json(
        &self,
        alloc: Global,
        entry: &Entry,
        finding: Finding<'_>,
        weight: Weight,
    ) -> Result<Value, Stop> {
        let key = match weight {
            Weight::Error | Weight::Warning => "message",
            Weight::Notice => "canonical",
        };
        let text = if has_text(entry) {
            Some(entry.text.as_str())
        } else {
            None
        };
        let rule = match finding.cause {
            Cause::Rule(rule) => Some(rule.name()),
            Cause::Refused | Cause::Fine => None,
        };
        let name = name_of(alloc, entry)?;
        let hint = hint_of(alloc, entry, finding)?;
        let better = if self.is_left {
            None
        } else {
            replacement(alloc, &self.levels, self.pins, entry)?
        };
        let mut json = Object::new(alloc)
            .put("column", Ok(Value::from(self.position.column)))
            .put_text("file", Some(self.file))
            .put_text("hint", hint.as_deref())
            .put_text("level", Some(weight.name()))
            .put("line", Ok(Value::from(self.position.line)))
            .put_text(key, Some(finding.message))
            .put_text("name", Some(name.as_str()))
            .put_text("replacement", better.as_deref())
            .put_text("rule", rule)
            .put_text("text", text);
        if let Some(errors) = finding.errors {
            json = add_first(alloc, json, entry.text.as_str(), errors);
        }
        Ok(json.into_json()?)
    }

    // The column at which a finding begins, and the one behind its end.
    fn columns(&self, entry: &Entry, finding: Finding<'_>) -> (usize, usize) {
        let text = if has_text(entry) {
            entry.text.as_str()
        } else {
            ""
        };
        let (start, end) = match finding.errors {
            Some(errors) => first_place(text, errors).unwrap_or((0, text.len())),
            None => (0, text.len()),
        };
        let column = self.column_at(entry, start);
        let end = self.column_at(entry, end);
        (column, end.max(column.saturating_add(1)))
    }

    // The column of an index of the entry's text.
    fn column_at(&self, entry: &Entry, index: usize) -> usize {
        let mut position = self.position;
        position.move_to(self.text, entry.index_of(self.text, index));
        position.column
    }

    // A finding as an annotation of GitHub.
    fn annotation(
        &self,
        alloc: Global,
        entry: &Entry,
        finding: Finding<'_>,
        weight: Weight,
    ) -> Result<String, AllocError> {
        let message = lines(alloc, entry, finding)?;
        let message = escaped(alloc, message.as_str(), false)?;
        let file = format!(in alloc; "{}", Shown(self.file))?;
        let file = escaped(alloc, file.as_str(), true)?;
        let (level, line) = (weight.name(), self.position.line);
        let (column, end) = self.columns(entry, finding);
        format!(in alloc;
            "::{level} file={file},line={line},col={column},endColumn={end}::{message}"
        )
    }

    // A finding as a result of SARIF.
    fn sarif(
        &self,
        alloc: Global,
        entry: &Entry,
        finding: Finding<'_>,
        weight: Weight,
    ) -> Result<String, AllocError> {
        let message = lines(alloc, entry, finding)?;
        let message = Value::try_from_str(alloc, message.as_str())?.to_string(alloc)?;
        let uri = uri(alloc, self.file)?;
        let rule = match finding.cause {
            Cause::Rule(rule) => rule.name(),
            Cause::Refused => "invalid",
            Cause::Fine => "canonical",
        };
        let level = match weight {
            Weight::Notice => "note",
            weight => weight.name(),
        };
        let line = self.position.line;
        let (column, end) = self.columns(entry, finding);
        format!(in alloc;
            "{{\"ruleId\":\"{rule}\",\"level\":\"{level}\",\"message\":{{\"text\":{message}}},\"locations\":[{{\"physicalLocation\":{{\"artifactLocation\":{{\"uri\":\"{uri}\"}},\"region\":{{\"startLine\":{line},\"startColumn\":{column},\"endColumn\":{end}}}}}}}]}}"
        )
    }

    /// Counts a finding, unless its rule is off, and prints it. A refusal counts by the rule of the aside, if there is one.
    pub fn add<O: Write, E: Write>(
        &mut self,
        console: &mut Console<O, E>,
        entry: &Entry,
        finding: Finding<'_>,
    ) -> Result<(), Stop> {
        match self.aside {
            Some(Aside { rule, why }) if finding.cause == Cause::Refused => {
                let message = format!(in console.alloc; "{} ({why})", finding.message)?;
                let finding = Finding {
                    cause: Cause::Rule(rule),
                    message: message.as_str(),
                    ..finding
                };
                self.count(console, entry, finding)
            }
            _ => self.count(console, entry, finding),
        }
    }

    // Counts a finding, unless its rule is off, and prints it: as JSON, as GitHub's annotation, or as a line.
    fn count<O: Write, E: Write>(
        &mut self,
        console: &mut Console<O, E>,
        entry: &Entry,
        finding: Finding<'_>,
    ) -> Result<(), Stop> {
        let Some(weight) = self.weight(finding.cause) else {
            return Ok(());
        };
        let status = match weight {
            Weight::Error => Status::Found,
            Weight::Warning => self.warning,
            Weight::Notice => Status::Answered,
        };
        self.status = self.status.worse(status);
        match self.format {
            Format::Silent => Ok(()),
            Format::Json => {
                let json = self.json(console.alloc, entry, finding, weight)?;
                console.item(Ok(json))
            }
            Format::GitHub => {
                let text = self.annotation(console.alloc, entry, finding, weight)?;
                print_line(&mut console.out, text.as_str())
            }
            Format::Sarif => {
                let text = self.sarif(console.alloc, entry, finding, weight)?;
                console.item_text(text.as_str())
            }
            Format::Lines => self.print(console, entry, finding, weight),
        }
    }

    /// Counts and prints a finding by a rule.
    pub fn tell<O: Write, E: Write>(
        &mut self,
        console: &mut Console<O, E>,
        entry: &Entry,
        rule: Rule,
        message: Result<String, AllocError>,
    ) -> Result<(), Stop> {
        let message = message?;
        self.add(console, entry, Finding::by(rule, message.as_str()))
    }

    /// Counts and prints a finding with the places of errors.
    pub fn add_with<O: Write, E: Write>(
        &mut self,
        console: &mut Console<O, E>,
        entry: &Entry,
        cause: Cause,
        message: &str,
        errors: &PackageErrors,
    ) -> Result<(), Stop> {
        let finding = Finding {
            cause,
            message,
            errors: Some(errors),
        };
        self.add(console, entry, finding)
    }

    // Prints a finding as a line, and where the text is wrong.
    fn print<O: Write, E: Write>(
        &self,
        console: &mut Console<O, E>,
        entry: &Entry,
        finding: Finding<'_>,
        weight: Weight,
    ) -> Result<(), Stop> {
        let message = line(console.alloc, entry, finding)?;
        let style = console.terminal.out;
        let start = match weight {
            Weight::Error => style.code(ERROR),
            Weight::Warning | Weight::Notice => style.code(WARNING),
        };
        let (file, end) = (Shown(self.file), style.code(END));
        let line = self.position.line;
        let (column, _) = self.columns(entry, finding);
        write!(console.out, "{file}:{line}:{column}: ")?;
        if weight != Weight::Notice {
            write!(console.out, "{start}{}{end}: ", weight.name())?;
        }
        print_line(&mut console.out, message.as_str())?;
        match finding.errors {
            Some(errors) => {
                let text = entry.text.as_str();
                print_errors(&mut console.out, style, text, errors, grammar(entry))
            }
            None => Ok(()),
        }
    }
}
