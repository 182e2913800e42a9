//! What a file holds: the ranges of package.json, deno.json, import maps and plain lines.

use crate::collecting::{Collector, Format, Shape};
use crate::commented::without_comments;
use crate::entry::Entry;
use crate::json::mistake_in;
use crate::sections::Kind;
use crate::yaml::{entries_of_yaml, without_comment};
use std::alloc::{AllocError, Global};
use terminal::input::unescaped;

// Goes over JSON.
#[derive(Drop)]
struct Scanner<'t> {
    alloc: Global,
    file: &'t str,
    collector: Collector,
    /// Whether a value comes next, or is read.
    is_value: bool,
    /// What the text is that is read, if it is collected.
    value: Option<(Kind, &'static str)>,
    /// Where a text starts, behind its quote.
    text: Option<usize>,
    is_escaped: bool,
}

impl Scanner<'_> {
    // Takes the first character of a value.
    fn begin(&mut self, index: usize, c: char) -> Result<(), AllocError> {
        self.is_value = c == '"';
        let shape = match c {
            '"' => Shape::Text,
            '{' => Shape::Object,
            '[' => Shape::Array,
            'n' => Shape::Null,
            _ => Shape::Other,
        };
        self.value = self.collector.begin(shape, index)?;
        Ok(())
    }

    // Takes a character outside texts.
    fn structure(&mut self, index: usize, c: char) -> Result<(), AllocError> {
        if self.is_value && !c.is_ascii_whitespace() && c != ']' {
            self.begin(index, c)?;
        }
        match c {
            '"' => self.text = Some(index.saturating_add(1)),
            ':' => self.is_value = true,
            '{' | '[' => {
                let is_array = c == '[';
                self.collector.open(is_array)?;
                self.is_value = is_array;
            }
            '}' | ']' => {
                self.collector.close();
                self.is_value = false;
            }
            ',' => {
                self.collector.end_item();
                self.is_value = self.collector.is_in_array();
            }
            _ => (),
        }
        Ok(())
    }

    // Takes the next character.
    fn step(&mut self, index: usize, c: char) -> Result<(), AllocError> {
        let Some(start) = self.text else {
            return self.structure(index, c);
        };
        if self.is_escaped || c != '"' {
            self.is_escaped = !self.is_escaped && c == '\\';
            return Ok(());
        }
        // A key or a value ends.
        self.text = None;
        let raw = self.file.get(start..index).unwrap_or("");
        if !self.is_value {
            let key = unescaped(self.alloc, raw)?;
            return self.collector.take_key(key, start, index);
        }
        self.is_value = false;
        let Some((kind, section)) = self.value.take() else {
            return Ok(());
        };
        let text = unescaped(self.alloc, raw)?;
        self.collector.add(text, start, index, kind, section)
    }
}

// What is said of a list in place of a manifest, in which npm finds nothing to install.
fn of_list(alloc: Global, format: Format) -> Entry {
    let mut entry = Entry::of_file(alloc, 0, "a list: expected an object");
    if format == Format::Package {
        entry.kind = Kind::OddSection("a list: npm finds no names in it");
    }
    entry
}

// The entries of JSON, or the one mistake that it is.
fn of_text(alloc: Global, file: &str, format: Format) -> Result<Vec<Entry>, AllocError> {
    let mistake = match mistake_in(alloc, file)? {
        Some(mistake) => Entry::of_file(alloc, mistake.index, mistake.message),
        None if file.trim_start().starts_with('[') => of_list(alloc, format),
        None if !file.trim_start().starts_with('{') => {
            Entry::of_file(alloc, 0, "expected an object")
        }
        None => {
            let mut scanner = Scanner {
                alloc,
                file,
                collector: Collector::new(alloc, format),
                is_value: false,
                value: None,
                text: None,
                is_escaped: false,
            };
            for (index, c) in file.char_indices() {
                scanner.step(index, c)?;
            }
            let Scanner { collector, .. } = scanner;
            let Collector {
                is_lockfile,
                entries,
                ..
            } = collector;
            if !is_lockfile {
                return Ok(entries);
            }
            Entry::of_file(alloc, 0, LOCKFILE)
        }
    };
    Ok(vec![in alloc; mistake]?)
}

const LOCKFILE: &str = "a lockfile: check the manifest that it belongs to";

const YAML: &str = "YAML, which is read only in pnpm-workspace.yaml";

// How the names of lockfiles end.
const LOCKFILES: [&str; 4] = [".lock", "-lock.json", "-lock.yaml", "npm-shrinkwrap.json"];

// What a file without JSON is by its name or its first lines, if it holds no ranges.
fn other(name: &str, file: &str) -> Option<&'static str> {
    if name.ends_with(".yaml") || name.ends_with(".yml") {
        return Some(YAML);
    }
    let is_lock = |line: &str| {
        let starts = ["lockfileVersion:", "__metadata:", "# yarn lockfile"];
        starts.iter().any(|start| line.starts_with(*start))
    };
    if file.lines().take(10).any(is_lock) {
        return Some(LOCKFILE);
    }
    let mut lines = file.lines().map(|line| line.trim_end());
    let first = lines.find(|line| !line.is_empty() && !line.starts_with('#'))?;
    let key = first.split([':', ' '].as_slice()).next().unwrap_or("");
    let is_key = first.contains(": ") || first.ends_with(':');
    let is_word = !key.is_empty() && key.chars().all(|c| c.is_ascii_alphabetic());
    let is_specifier = matches!(first, "npm:" | "jsr:");
    if first == "---" || is_key && is_word && !is_specifier {
        Some(YAML)
    } else {
        None
    }
}

// The entries of a file with a range on each line, but for empty lines and comments. No range, tag or specifier has whitespace before a `#`.
fn of_lines(alloc: Global, file: &str) -> Result<Vec<Entry>, AllocError> {
    let mut entries = Vec::new(alloc);
    let mut start = 0usize;
    for line in file.split('\n') {
        let text = without_comment(line).trim();
        if !text.is_empty() {
            let indent = line.len().saturating_sub(line.trim_start().len());
            let kind = if text.starts_with("npm:") || text.starts_with("jsr:") {
                Kind::Specifier
            } else {
                Kind::Range
            };
            let start = start.saturating_add(indent);
            let entry = Entry {
                section: "",
                object: String::new(alloc),
                name: String::new(alloc),
                depth: 0,
                text: String::from_str(alloc, text)?,
                start,
                end: start.saturating_add(text.len()),
                kind,
            };
            entries.push(entry)?;
        }
        start = start.saturating_add(line.len()).saturating_add(1);
    }
    Ok(entries)
}

/// The entries of a file, in their order. JSON begins with a brace; any other file has a range on each line.
pub fn entries(alloc: Global, path: &str, file: &str) -> Result<Vec<Entry>, AllocError> {
    let name = path.rsplit('/').next().unwrap_or(path);
    let front = file.trim_start();
    if name == "pnpm-workspace.yaml" {
        return entries_of_yaml(alloc, file);
    }
    if LOCKFILES.iter().any(|end| name.ends_with(*end)) {
        return Ok(vec![in alloc; Entry::of_file(alloc, 0, LOCKFILE)]?);
    }
    let is_json = front.starts_with(['{', '/'].as_slice()) || name.ends_with(".json");
    let is_list = front.starts_with('[') && mistake_in(alloc, file)?.is_none();
    if !is_json && !is_list {
        return match other(name, file) {
            Some(message) => Ok(vec![in alloc; Entry::of_file(alloc, 0, message)]?),
            None => of_lines(alloc, file),
        };
    }
    let format = if name == "package.json" {
        Format::Package
    } else {
        Format::Json
    };
    // Deno's files may have comments, and standard input, of which no name is known.
    let may_have_comments = name.ends_with(".jsonc") || name.starts_with("deno.") || path == "-";
    if may_have_comments {
        of_text(alloc, without_comments(alloc, file)?.as_str(), format)
    } else {
        of_text(alloc, file, format)
    }
}
