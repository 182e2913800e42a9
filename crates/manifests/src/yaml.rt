//! The entries of pnpm-workspace.yaml. Of YAML this reads mappings, lists and texts, in block style and in flow style. What else stands where
//! ranges are is a mistake of its own, and is passed over elsewhere.

use crate::collecting::{Collector, Format, Shape};
use crate::entry::Entry;
use crate::quoted::{Quoted, read_quoted};
use crate::sections::Kind;
use std::alloc::{AllocError, AllocFailed, Global};

const INVALID: &str = "not valid YAML";

const MISPLACED: &str = "not valid YAML: it's indented less or more than what it belongs to";

const LONG: &str = "a text over several lines isn't read: write it on one";

const UNCLOSED: &str = "not valid YAML: it isn't closed";

const BARE: &str = "a mapping without braces isn't read: write them";

const COMPLEX: &str = "a key behind `?` isn't read: write it before a colon";

const MERGE: &str = "a merge key isn't read: write what it stands for";

/// Why reading ends early.
#[derive(Clone, Copy)]
enum Stop {
    OutOfMemory,
    /// What stands at this index is invalid, or isn't read here.
    Mistake(usize, &'static str),
}

impl From<AllocError> for Stop {
    fn from(_error: AllocError) -> Stop {
        Stop::OutOfMemory
    }
}

impl<T: Drop> From<AllocFailed<T>> for Stop {
    fn from(_error: AllocFailed<T>) -> Stop {
        Stop::OutOfMemory
    }
}

// A mapping or a list in block style, and the column of its keys or hyphens.
#[derive(Clone, Copy)]
struct Block {
    column: usize,
    is_list: bool,
}

// A key or a hyphen whose value hasn't come.
#[derive(Clone, Copy)]
struct Waiting {
    column: usize,
    is_hyphen: bool,
    /// The index in the file of what follows it.
    behind: usize,
}

// What may come next in flow style.
#[derive(Clone, Copy, PartialEq, Eq)]
enum Next {
    Key,
    /// The colon behind a key.
    Colon,
    Value,
    /// A comma, or what closes the mapping or the list.
    Comma,
}

// A key of a mapping in block style.
#[derive(Drop)]
struct Key {
    text: String,
    start: usize,
    end: usize,
    /// How many bytes of the line stand before what follows its colon.
    taken: usize,
}

/// A line without its comment, which begins with `#` at the front or behind whitespace.
pub fn without_comment(line: &str) -> &str {
    let mut is_front = true;
    for (index, c) in line.char_indices() {
        if c == '#' && is_front {
            return line.get(..index).unwrap_or("");
        }
        is_front = matches!(c, ' ' | '\t');
    }
    line
}

fn is_space(c: char) -> bool {
    matches!(c, ' ' | '\t' | '\r')
}

// Whether a line begins with a hyphen for an item of a list.
fn is_item(line: &str) -> bool {
    match line.strip_prefix('-') {
        Some(rest) => rest.is_empty() || rest.starts_with(is_space),
        None => false,
    }
}

// Where the colon behind a key stands in a line: whitespace follows it, or nothing.
fn colon(line: &str) -> Option<usize> {
    let mut last = None;
    for (index, c) in line.char_indices() {
        if let Some(colon) = last
            && is_space(c)
        {
            return Some(colon);
        }
        last = if c == ':' { Some(index) } else { None };
    }
    // Behind it the line ends.
    last
}

// What YAML takes a text without quotes for.
fn shape_of(text: &str) -> Shape {
    let digits = text.strip_prefix(['+', '-'].as_slice()).unwrap_or(text);
    let number = match digits.split_once(['e', 'E'].as_slice()) {
        Some((front, power)) => {
            let power = power.strip_prefix(['+', '-'].as_slice()).unwrap_or(power);
            if is_digits(power) { front } else { "" }
        }
        None => digits,
    };
    let is_decimal = match number.split_once('.') {
        Some((whole, "")) => is_digits(whole),
        Some((whole, fraction)) => is_digits(fraction) && (whole.is_empty() || is_digits(whole)),
        None => is_digits(number),
    };
    let is_based = match text.strip_prefix("0x").or(text.strip_prefix("0o")) {
        Some(rest) => !rest.is_empty() && rest.chars().all(|c| c.is_ascii_hexdigit()),
        None => false,
    };
    match text {
        "" | "~" | "null" | "Null" | "NULL" => Shape::Null,
        "true" | "True" | "TRUE" | "false" | "False" | "FALSE" => Shape::Other,
        _ if is_decimal || is_based => Shape::Other,
        _ => Shape::Text,
    }
}

fn is_digits(text: &str) -> bool {
    !text.is_empty() && text.chars().all(|c| c.is_ascii_digit())
}

// What begins with this character in place of a text, and isn't read.
fn unread(c: char) -> Option<&'static str> {
    Some(match c {
        '&' => "an anchor isn't read: leave it out",
        '*' => "YAML takes it for an alias: write it in quotes, or what it stands for",
        '!' => "a type isn't read: leave it out",
        '|' | '>' => "YAML takes it for the start of a text: write it in quotes",
        _ => return None,
    })
}

// Goes over a file.
#[derive(Drop)]
struct Reader<'t> {
    alloc: Global,
    file: &'t str,
    /// The index of what isn't read yet.
    at: usize,
    blocks: Vec<Block>,
    waiting: Option<Waiting>,
    /// Lines that are indented farther than this belong to what is passed over.
    passed: Option<usize>,
    collector: Collector,
}

impl<'t> Reader<'t> {
    fn rest(&self) -> &'t str {
        self.file.get(self.at..).unwrap_or("")
    }

    // What is left of the line.
    fn line_rest(&self) -> &'t str {
        self.rest().split('\n').next().unwrap_or("")
    }

    fn take(&mut self, count: usize) {
        self.at = self.at.saturating_add(count);
    }

    fn skip_line(&mut self) {
        self.take(self.line_rest().len().saturating_add(1));
    }

    // Takes what a line begins with, up to the other text, with which it ends.
    fn take_until(&mut self, line: &str, rest: &str) {
        self.take(line.len().saturating_sub(rest.len()));
    }

    fn mistake(&self, message: &'static str) -> Stop {
        Stop::Mistake(self.at, message)
    }

    // Ends a line: only a comment may be left of it.
    fn end_line(&mut self) -> Result<(), Stop> {
        let line = self.line_rest();
        if !without_comment(line).trim().is_empty() || line.starts_with('#') {
            return Err(self.mistake(INVALID));
        }
        self.skip_line();
        Ok(())
    }

    // The text in quotes at an index.
    fn quoted_at(&self, index: usize) -> Result<Quoted, Stop> {
        let text = self.file.get(index..).unwrap_or("");
        match read_quoted(self.alloc, text)? {
            Some(quoted) => Ok(quoted),
            None => Err(Stop::Mistake(index, UNCLOSED)),
        }
    }

    // Takes a text in quotes as the next value.
    fn quoted_value(&mut self) -> Result<(), Stop> {
        let start = self.at;
        let Quoted {
            text,
            length,
            is_long,
        } = self.quoted_at(start)?;
        let found = self.collector.begin(Shape::Text, start)?;
        self.take(length);
        let Some((kind, section)) = found else {
            return Ok(());
        };
        if is_long {
            return Err(Stop::Mistake(start, LONG));
        }
        let (first, end) = (start.saturating_add(1), self.at.saturating_sub(1));
        self.collector.add(text, first, end, kind, section)?;
        Ok(())
    }

    // Takes a text without quotes as the next value.
    fn plain_value(&mut self, text: &str) -> Result<(), Stop> {
        let start = self.at;
        self.take(text.len());
        if let Some(message) = text.chars().next().and_then(unread)
            && self.collector.is_asked()
        {
            let kind = Kind::Mistake(message);
            return Ok(self.collector.add_kind(start, kind, "")?);
        }
        if let Some((kind, section)) = self.collector.begin(shape_of(text), start)? {
            let text = String::from_str(self.alloc, text)?;
            self.collector.add(text, start, self.at, kind, section)?;
        }
        Ok(())
    }

    // Gives a key or a hyphen without a value the value that YAML does.
    fn end_waiting(&mut self) -> Result<(), Stop> {
        if let Some(waiting) = self.waiting.take() {
            let _ = self.collector.begin(Shape::Null, waiting.behind)?;
        }
        Ok(())
    }

    // Closes blocks whose keys or hyphens stand farther right, and at this column a list, if no hyphen goes on with it.
    fn leave(&mut self, column: usize, is_list: bool) {
        for _ in 0..self.blocks.len() {
            match self.blocks.last() {
                Some(last)
                    if last.column > column || last.column == column && last.is_list && !is_list =>
                    {
                        let _ = self.blocks.pop();
                        self.collector.close();
                    }
                _ => return,
            }
        }
    }

    // Opens a block with a key or a hyphen at this column, or goes on with one.
    fn enter(&mut self, column: usize, is_list: bool) -> Result<(), Stop> {
        let is_below = match self.waiting {
            Some(waiting) => {
                column > waiting.column || column == waiting.column && is_list && !waiting.is_hyphen
            }
            None => self.blocks.is_empty(),
        };
        if is_below {
            if self.waiting.take().is_some() {
                let shape = if is_list { Shape::Array } else { Shape::Object };
                let _ = self.collector.begin(shape, self.at)?;
            } else if is_list {
                return Err(self.mistake("a list: expected a mapping"));
            }
            self.collector.open(is_list)?;
            return Ok(self.blocks.push(Block { column, is_list })?);
        }
        self.end_waiting()?;
        self.leave(column, is_list);
        match self.blocks.last() {
            Some(last) if last.column == column && last.is_list == is_list => {
                self.collector.end_item();
                Ok(())
            }
            _ => Err(self.mistake(MISPLACED)),
        }
    }

    // The key that the line begins with here, if it does.
    fn key(&self) -> Result<Option<Key>, Stop> {
        let line = self.line_rest();
        if line.trim_end() == "?" || line.starts_with("? ") {
            return Err(self.mistake(COMPLEX));
        }
        let (text, start, end, line, rest) = if line.starts_with(['"', '\''].as_slice()) {
            let Quoted { text, length, .. } = self.quoted_at(self.at)?;
            let rest = line
                .get(length..)
                .unwrap_or("")
                .trim_start_matches(is_space);
            let end = self.at.saturating_add(length).saturating_sub(1);
            (text, self.at.saturating_add(1), end, line, rest)
        } else {
            let line = without_comment(line);
            let Some(colon) = colon(line) else {
                return Ok(None);
            };
            let (text, rest) = line.split_at_checked(colon).unwrap_or((line, ""));
            if text.starts_with([
                '[', '{', '&', '*', '!', '|', '>', '%', '@', '`', '?',
            ].as_slice())
            {
                return Ok(None);
            }
            if text == "<<" {
                return Err(self.mistake(MERGE));
            }
            let text = text.trim_end();
            (
                String::from_str(self.alloc, text)?,
                self.at,
                self.at.saturating_add(text.len()),
                line,
                rest,
            )
        };
        match rest.strip_prefix(':') {
            Some(behind) if behind.is_empty() || behind.starts_with(is_space) => {
                let behind = behind.trim_start_matches(is_space);
                let taken = line.len().saturating_sub(behind.len());
                Ok(Some(Key {
                    text,
                    start,
                    end,
                    taken,
                }))
            }
            _ => Ok(None),
        }
    }

    // Whether the text without quotes that begins here goes on below: the next line with text is indented farther than this column.
    fn goes_on(&self, column: usize) -> bool {
        let mut lines = self.rest().split('\n').skip(1);
        let Some(next) = lines.find(|line| !line.trim().is_empty()) else {
            return false;
        };
        let text = next.trim_start_matches(' ');
        let indent = next.len().saturating_sub(text.len());
        indent > column && colon(text).is_none() && !text.starts_with('#')
    }

    // What is wrong with a text at this column that is no value.
    fn stray(&self, column: usize) -> &'static str {
        match self.blocks.last() {
            Some(last) if column > last.column => LONG,
            _ => INVALID,
        }
    }

    // Takes a line in block style from this column on: hyphens, and then a key or a value.
    fn content(&mut self, column: usize) -> Result<(), Stop> {
        let mut column = column;
        for _ in self.line_rest().bytes() {
            let line = self.line_rest();
            if !is_item(line) {
                break;
            }
            self.enter(column, true)?;
            let rest = line.get(1..).unwrap_or("").trim_start_matches(is_space);
            self.take_until(line, rest);
            self.waiting = Some(Waiting {
                column,
                is_hyphen: true,
                behind: self.at,
            });
            column = column.saturating_add(line.len().saturating_sub(rest.len()));
        }
        if without_comment(self.line_rest()).trim().is_empty() {
            self.skip_line();
            return Ok(());
        }
        let Some(key) = self.key()? else {
            return match self.waiting.take() {
                Some(waiting) if column > waiting.column => {
                    self.value(waiting.column, waiting.is_hyphen)
                }
                _ => Err(self.mistake(self.stray(column))),
            };
        };
        self.enter(column, false)?;
        let Key {
            text,
            start,
            end,
            taken,
        } = key;
        self.collector.take_key(text, start, end)?;
        self.take(taken);
        self.value(column, false)
    }

    // Takes the value of a key or a hyphen at this column, which begins in this line, if it does.
    fn value(&mut self, column: usize, is_hyphen: bool) -> Result<(), Stop> {
        let line = self.line_rest();
        let text = without_comment(line).trim_end();
        match text.chars().next() {
            None => {
                self.waiting = Some(Waiting {
                    column,
                    is_hyphen,
                    behind: self.at,
                });
                self.skip_line();
                return Ok(());
            }
            Some('[' | '{') => self.flow()?,
            Some('"' | '\'') => self.quoted_value()?,
            Some('%' | '@' | '`') => return Err(self.mistake(INVALID)),
            Some(c) => {
                let is_node = is_item(text) || text.starts_with("? ");
                if is_node || unread(c).is_none() && colon(text).is_some() {
                    return Err(self.mistake(INVALID));
                }
                if unread(c).is_none() && self.collector.is_asked() && self.goes_on(column) {
                    return Err(self.mistake(LONG));
                }
                // What isn't read may go on in the lines below.
                if unread(c).is_some() || !self.collector.is_asked() {
                    self.passed = Some(column);
                }
                self.plain_value(text)?;
            }
        }
        self.end_line()
    }

    // Takes a line that ends the document, behind which nothing may stand.
    fn end_document(&mut self, is_end: bool) -> Result<(), Stop> {
        let is_blank = |line: &str| matches!(without_comment(line).trim(), "" | "...");
        if !is_end || !self.rest().split('\n').skip(1).all(is_blank) {
            return Err(self.mistake("a second document isn't read"));
        }
        self.at = self.file.len();
        Ok(())
    }

    // Takes a line in block style.
    fn line(&mut self) -> Result<(), Stop> {
        let line = self.line_rest();
        let text = line.trim_start_matches(' ');
        let column = line.len().saturating_sub(text.len());
        let bare = without_comment(text).trim();
        let is_passed = match self.passed {
            Some(passed) => column > passed,
            None => false,
        };
        if bare.is_empty() || is_passed {
            self.skip_line();
            return Ok(());
        }
        self.passed = None;
        let is_front = self.blocks.is_empty();
        if column == 0 && is_front && (bare == "---" || bare.starts_with('%')) {
            self.skip_line();
            return Ok(());
        }
        if column == 0 && (bare == "..." || bare == "---" || bare.starts_with("--- ")) {
            return self.end_document(bare == "...");
        }
        self.take(column);
        if text.starts_with('\t') {
            return Err(self.mistake("not valid YAML: a tab doesn't indent"));
        }
        self.content(column)
    }

    // ---- flow style

    // What may come next in the innermost mapping or list.
    fn first(&self) -> Next {
        if self.collector.is_in_array() {
            Next::Value
        } else {
            Next::Key
        }
    }

    // The text without quotes that begins here.
    fn plain(&self) -> &'t str {
        let line = without_comment(self.line_rest());
        let mut end = line.len();
        for (index, c) in line.char_indices() {
            let behind = line
                .get(index.saturating_add(1)..)
                .unwrap_or("")
                .chars()
                .next();
            let is_colon = c == ':'
                && behind.is_none_or(|c| is_space(c) || matches!(c, ',' | '[' | ']' | '{' | '}'));
            if is_colon || matches!(c, ',' | '[' | ']' | '{' | '}') {
                end = index;
                break;
            }
        }
        line.get(..end).unwrap_or("").trim_end()
    }

    // Takes a key.
    fn flow_key(&mut self, c: char) -> Result<Next, Stop> {
        let start = self.at;
        if matches!(c, '"' | '\'') {
            let Quoted { text, length, .. } = self.quoted_at(start)?;
            let end = start.saturating_add(length).saturating_sub(1);
            self.collector.take_key(text, start.saturating_add(1), end)?;
            self.take(length);
            return Ok(Next::Colon);
        }
        let text = self.plain();
        if text.starts_with("? ") {
            return Err(self.mistake(COMPLEX));
        }
        if text.is_empty() || unread(c).is_some() {
            return Err(self.mistake(INVALID));
        }
        if text == "<<" {
            return Err(self.mistake(MERGE));
        }
        let key = String::from_str(self.alloc, text)?;
        let end = start.saturating_add(text.len());
        self.collector.take_key(key, start, end)?;
        self.take(text.len());
        Ok(Next::Colon)
    }

    // Opens a mapping or a list.
    fn open_flow(&mut self, is_list: bool) -> Result<Next, Stop> {
        let shape = if is_list { Shape::Array } else { Shape::Object };
        let _ = self.collector.begin(shape, self.at)?;
        self.collector.open(is_list)?;
        self.take(1);
        Ok(self.first())
    }

    // Closes a mapping or a list.
    fn close_flow(&mut self) -> Next {
        self.collector.close();
        self.take(1);
        Next::Comma
    }

    // Takes a text as the next value.
    fn flow_text(&mut self, c: char) -> Result<Next, Stop> {
        if matches!(c, '"' | '\'') {
            self.quoted_value()?;
            return Ok(Next::Comma);
        }
        let text = self.plain();
        if text.is_empty() {
            return Err(self.mistake(INVALID));
        }
        self.plain_value(text)?;
        Ok(Next::Comma)
    }

    // Takes the next character but whitespace, or the text that begins with it.
    fn token(&mut self, c: char, next: Next) -> Result<Next, Stop> {
        let is_array = self.collector.is_in_array();
        match (c, next) {
            ('[' | '{', Next::Value) => self.open_flow(c == '['),
            (',' | '}', Next::Colon | Next::Value) if !is_array => {
                let _ = self.collector.begin(Shape::Null, self.at)?;
                // The character itself comes next.
                Ok(Next::Comma)
            }
            (']', Next::Value | Next::Comma) if is_array => Ok(self.close_flow()),
            ('}', Next::Key | Next::Comma) if !is_array => Ok(self.close_flow()),
            (',', Next::Comma) => {
                self.collector.end_item();
                self.take(1);
                Ok(self.first())
            }
            (':', Next::Colon) => {
                self.take(1);
                Ok(Next::Value)
            }
            (':', Next::Comma) if is_array => Err(self.mistake(BARE)),
            (c, Next::Key) => self.flow_key(c),
            (c, Next::Value) => self.flow_text(c),
            (_, _) => Err(self.mistake(INVALID)),
        }
    }

    // Takes a mapping or a list in flow style, which may go over several lines.
    fn flow(&mut self) -> Result<(), Stop> {
        let (start, depth) = (self.at, self.collector.depth());
        let mut next = Next::Value;
        let mut is_apart = true;
        for _ in 0..=self.file.len().saturating_mul(2) {
            let Some(c) = self.rest().chars().next() else {
                break;
            };
            if is_space(c) || c == '\n' {
                self.take(1);
                is_apart = true;
                continue;
            }
            if c == '#' && is_apart {
                self.take(self.line_rest().len());
                continue;
            }
            is_apart = false;
            next = self.token(c, next)?;
            if self.collector.depth() <= depth {
                return Ok(());
            }
        }
        Err(Stop::Mistake(start, UNCLOSED))
    }

    // Takes all of the file.
    fn read(&mut self) -> Result<(), Stop> {
        for _ in self.file.split('\n') {
            if self.at >= self.file.len() {
                break;
            }
            self.line()?;
        }
        self.end_waiting()
    }
}

/// The entries of pnpm-workspace.yaml, up to the first mistake in its YAML.
pub fn entries_of_yaml(alloc: Global, file: &str) -> Result<Vec<Entry>, AllocError> {
    let mut reader = Reader {
        alloc,
        file,
        at: 0,
        blocks: Vec::new(alloc),
        waiting: None,
        passed: None,
        collector: Collector::new(alloc, Format::Yaml),
    };
    let read = reader.read();
    let Reader { collector, .. } = reader;
    let Collector { mut entries, .. } = collector;
    match read {
        Ok(()) => Ok(entries),
        Err(Stop::OutOfMemory) => Err(AllocError),
        Err(Stop::Mistake(index, message)) => {
            entries.push(Entry::of_file(alloc, index, message))?;
            Ok(entries)
        }
    }
}
