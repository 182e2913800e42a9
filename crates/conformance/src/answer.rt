//! Answers: what a call reports, and why it reports nothing.

use semver_base::failure::ParseFailure;
use std::alloc::{AllocError, Global};
use std::cmp::Ordering;
use std::fmt::Display;

/// An argument of a call or a part of an answer: a text or null.
pub type Item = Option<String>;

/// Why a call stopped.
#[derive(Clone, Copy)]
pub enum Fault {
    /// A text is invalid, and the answer says why.
    Rejected,
    /// The call ran out of memory.
    OutOfMemory,
    /// The call takes other arguments.
    OtherArguments,
    /// No call has the name.
    NoCall,
    /// The line isn't a row.
    NoRow,
    /// Out of memory for the row or its answer.
    Unreported,
}

/// A value, or why there is none.
pub type OrFault<T> = Result<T, Fault>;

pub type Reported = OrFault<()>;

impl From<AllocError> for Fault {
    fn from(_error: AllocError) -> Fault {
        Fault::OutOfMemory
    }
}

/// The report of a call.
#[derive(Drop)]
pub struct Answer {
    pub alloc: Global,
    pub items: Vec<Item>,
}

impl Answer {
    /// Starts a report without items.
    pub fn new(alloc: Global) -> Answer {
        Answer {
            alloc,
            items: Vec::new(alloc),
        }
    }

    fn push(&mut self, item: Item) -> Reported {
        match self.items.push(item) {
            Ok(()) => Ok(()),
            Err(_) => Err(Fault::Unreported),
        }
    }

    /// Reports a text.
    pub fn text(&mut self, text: &str) -> Reported {
        match String::from_str(self.alloc, text) {
            Ok(text) => self.push(Some(text)),
            Err(_) => Err(Fault::Unreported),
        }
    }

    /// Reports texts, an item each.
    pub fn texts(&mut self, texts: &[&str]) -> Reported {
        for text in texts {
            self.text(text)?;
        }
        Ok(())
    }

    /// Reports a text or null.
    pub fn optional(&mut self, text: Option<&str>) -> Reported {
        match text {
            Some(text) => self.text(text),
            None => self.push(None),
        }
    }

    /// Reports the value as displayed.
    pub fn displayed<T: Display>(&mut self, value: &T) -> Reported {
        let text = format!(in self.alloc; "{value}")?;
        self.push(Some(text))
    }

    /// Reports the value that a call made, as displayed.
    pub fn made<T: Display + Drop>(&mut self, value: Result<T, AllocError>) -> Reported {
        let value = value?;
        let reported = self.displayed(&value);
        drop(value);
        reported
    }

    /// Reports `yes` or `no`.
    pub fn yes_or_no(&mut self, holds: bool) -> Reported {
        self.text(if holds { "yes" } else { "no" })
    }

    /// Reports the order of two values: `less`, `equal` or `greater`.
    pub fn order(&mut self, order: Ordering) -> Reported {
        self.text(match order {
            Ordering::Less => "less",
            Ordering::Equal => "equal",
            Ordering::Greater => "greater",
        })
    }
}

/// The error of a parser.
pub trait ReportError: Drop {
    /// Reports `rejected` and why. Fails if the parser ran out of memory.
    fn report(&self, answer: &mut Answer) -> Reported;
}

impl ReportError for ParseFailure {
    fn report(&self, answer: &mut Answer) -> Reported {
        if self.is_memory() {
            return Err(Fault::OutOfMemory);
        }
        answer.texts(&["rejected", self.message()])?;
        answer.optional(self.code_snippet())
    }
}

/// The value that a parser returned. Its error is reported.
pub fn valid<T, E: ReportError>(parsed: Result<T, E>, answer: &mut Answer) -> OrFault<T> {
    match parsed {
        Ok(value) => Ok(value),
        Err(error) => {
            let reported = error.report(answer);
            drop(error);
            reported?;
            Err(Fault::Rejected)
        }
    }
}
