//! Where the program writes, and its exit status.

use crate::args::Options;
use crate::hints::question;
use crate::shown::{Quoted, Shown};
use serde_json::Value;
use std::alloc::{AllocError, AllocFailed, Global};
use std::fmt::Display;
use std::io;
use std::io::{ErrorKind, Write};

/// The program's exit status.
#[derive(Clone, Copy, PartialEq, Eq)]
pub enum Status {
    /// The command printed its result, or `yes`.
    Answered,
    /// `no` or `none`, or no version matches.
    Nothing,
    /// `check` found what counts as an error.
    Found,
    /// The range is a tag.
    Tag,
    /// The program doesn't know the arguments of `check`.
    Misused,
    /// An argument or a line is invalid, or an alternative was left out.
    Rejected,
    /// The program doesn't know the arguments.
    Usage,
    OutOfMemory,
    /// Standard input can't be read, or standard output can't be written.
    Broken,
}

impl Status {
    /// The exit status.
    pub fn code(self) -> u8 {
        match self {
            Status::Answered => 0,
            Status::Nothing | Status::Found => 1,
            Status::Tag | Status::Misused => 2,
            Status::Rejected => 3,
            Status::Usage => 4,
            Status::OutOfMemory => 5,
            Status::Broken => 6,
        }
    }

    /// The status of `yes` or of `no`.
    pub fn of(is_yes: bool) -> Status {
        if is_yes {
            Status::Answered
        } else {
            Status::Nothing
        }
    }

    /// The one of two statuses with the higher code.
    pub fn worse(self, other: Status) -> Status {
        if other.code() > self.code() {
            other
        } else {
            self
        }
    }
}

/// Why the program stops early.
#[derive(Clone, Copy)]
pub enum Stop {
    OutOfMemory,
    /// Standard input can't be read.
    Unread,
    /// Standard output can't be written.
    Unwritten,
    /// Nobody reads standard output any more.
    Closed,
    /// An argument isn't valid UTF-8.
    NoText,
    /// The command ends early, and has printed why.
    Ended(Status),
}

impl Stop {
    /// The status with which the program ends.
    pub fn status(self) -> Status {
        match self {
            Stop::OutOfMemory => Status::OutOfMemory,
            Stop::Unread | Stop::Unwritten | Stop::Closed => Status::Broken,
            Stop::NoText => Status::Usage,
            Stop::Ended(status) => status,
        }
    }

    /// The message to print; none if a pipe is closed, or if all is printed.
    pub fn message(self) -> Option<&'static str> {
        match self {
            Stop::OutOfMemory => Some("out of memory"),
            Stop::Unread => Some("standard input can't be read"),
            Stop::Unwritten => Some("standard output can't be written"),
            Stop::Closed | Stop::Ended(_) => None,
            Stop::NoText => Some("an argument isn't valid UTF-8"),
        }
    }

    /// Why the program stops at an error: out of memory, or else this.
    pub fn of(error: io::Error, other: Stop) -> Stop {
        match error.kind() {
            ErrorKind::OutOfMemory => Stop::OutOfMemory,
            _ => other,
        }
    }
}

impl From<AllocError> for Stop {
    fn from(_error: AllocError) -> Stop {
        Stop::OutOfMemory
    }
}

impl<T: Drop> From<AllocFailed<T>> for Stop {
    fn from(_error: AllocFailed<T>) -> Stop {
        Stop::OutOfMemory
    }
}

impl From<io::Error> for Stop {
    fn from(error: io::Error) -> Stop {
        match error.kind() {
            ErrorKind::BrokenPipe => Stop::Closed,
            _ => Stop::of(error, Stop::Unwritten),
        }
    }
}

/// Prints a line.
pub fn print_line<O: Write, T: Display + Drop>(out: &mut O, line: T) -> Result<(), Stop> {
    Ok(writeln!(out, "{line}")?)
}

/// Whether a stream shows colours.
#[derive(Clone, Copy, PartialEq, Eq)]
pub enum Style {
    Plain,
    Colored,
}

impl Style {
    /// The code, if the stream shows colours.
    pub fn code(self, code: &'static str) -> &'static str {
        match self {
            Style::Plain => "",
            Style::Colored => code,
        }
    }
}

/// What begins an error message.
pub const ERROR: &str = "\x1b[1;31m";

/// What begins the word of a warning.
pub const WARNING: &str = "\x1b[1;33m";

/// What begins a caret and what is expected there.
pub const CARET: &str = "\x1b[1;32m";

/// What begins the bounds of a range.
pub const BOUNDS: &str = "\x1b[36m";

/// What ends a coloured text.
pub const END: &str = "\x1b[0m";

/// Which streams are a terminal.
#[derive(Clone, Copy)]
pub struct Terminal {
    /// Whether standard input is one, where somebody types.
    pub reads: bool,
    /// Whether standard output is one, where somebody reads.
    pub writes: bool,
    pub out: Style,
    pub err: Style,
}

impl Terminal {
    /// The same streams, of which all show colours for `always`, and none for `never`.
    pub fn colored(self, when: Option<&str>) -> Terminal {
        let style = match when {
            Some("always") => Style::Colored,
            Some("never") => Style::Plain,
            _ => return self,
        };
        Terminal {
            out: style,
            err: style,
            ..self
        }
    }
}

/// Where the results and errors of a command are written, and its options.
#[derive(Drop)]
pub struct Console<O, E> {
    pub alloc: Global,
    pub out: O,
    pub err: E,
    pub terminal: Terminal,
    pub options: Options,
    has_items: bool,
}

impl<O, E> Console<O, E> {
    /// A console over two streams, for a command with these options.
    pub fn new(
        alloc: Global,
        out: O,
        err: E,
        terminal: Terminal,
        options: Options,
    ) -> Console<O, E> {
        Console {
            alloc,
            out,
            err,
            terminal,
            options,
            has_items: false,
        }
    }
}

impl<O: Write, E: Write> Console<O, E> {
    /// Prints one JSON value on a line.
    pub fn json(&mut self, value: Result<Value, AllocError>) -> Result<(), Stop> {
        let text = value?.to_string(self.alloc)?;
        print_line(&mut self.out, text.as_str())
    }

    /// Prints one more item of the JSON array that the command prints.
    pub fn item(&mut self, value: Result<Value, AllocError>) -> Result<(), Stop> {
        let text = value?.to_string(self.alloc)?;
        self.item_text(text.as_str())
    }

    /// The same for the text of JSON.
    pub fn item_text(&mut self, text: &str) -> Result<(), Stop> {
        let separator = if self.has_items { ',' } else { '[' };
        self.has_items = true;
        Ok(write!(self.out, "{separator}{text}")?)
    }

    /// Ends the array.
    pub fn end_items(&mut self) -> Result<(), Stop> {
        print_line(&mut self.out, if self.has_items { "]" } else { "[]" })
    }

    /// Asks a question about a text on standard error, behind what was printed before.
    pub fn ask(&mut self, what: &str, text: &str, question: &str) {
        let _ = self.out.flush();
        let (text, question) = (Quoted(text), Shown(question));
        let _ = writeln!(self.err, "ranges: {what} {text}: {question}");
    }

    /// Asks what is meant, if the tag looks like a typing mistake.
    pub fn question(&mut self, tag: &str) {
        if let Some(question) = question(tag) {
            self.ask("tag", tag, question);
        }
    }

    /// Ends a part of the output, which a terminal shows at once.
    pub fn end_part(&mut self) -> Result<(), Stop> {
        if self.terminal.writes {
            self.out.flush()?;
        }
        Ok(())
    }

    /// A console that prints on standard error.
    pub fn on_error(&mut self) -> Console<&mut E, io::Sink> {
        let terminal = Terminal {
            out: self.terminal.err,
            ..self.terminal
        };
        Console::new(
            self.alloc,
            &mut self.err,
            io::sink(),
            terminal,
            self.options,
        )
    }

    /// Says on standard error what was done, unless the command is quiet.
    pub fn tell<T: Display + Drop>(&mut self, message: T) {
        if !self.options.quiet {
            let _ = self.out.flush();
            let _ = writeln!(self.err, "ranges: {message}");
        }
    }

    /// Says on a terminal that standard input is read.
    pub fn announce(&mut self, what: &str) {
        if self.terminal.reads {
            let _ = writeln!(self.err, "ranges: reading {what} from standard input");
        }
    }

    /// Reports what is wrong with something, behind what was printed before.
    pub fn complain<T: Display + Drop>(&mut self, subject: T, message: &str) -> Status {
        let _ = self.out.flush();
        let style = self.terminal.err;
        let (start, end) = (style.code(ERROR), style.code(END));
        let message = Shown(message);
        let _ = writeln!(self.err, "ranges: {subject}: {start}{message}{end}");
        Status::Rejected
    }
}
