//! Running the rows of a table.

use crate::answer::{Answer, Fault, Item, OrFault};
use crate::arguments::push;
use crate::calls;
use crate::met::is_met;
use serde_json::Category;
use std::alloc::{AllocError, Global};
use std::io;
use std::io::{ErrorKind, Write};

/// Why the run stopped before the end of the table.
#[derive(Clone, Copy)]
pub enum Problem {
    /// Standard input can't be read.
    Unread,
    /// Standard output can't be written.
    Unwritten,
    OutOfMemory,
}

impl From<AllocError> for Problem {
    fn from(_error: AllocError) -> Problem {
        Problem::OutOfMemory
    }
}

// An error of the writer.
impl From<io::Error> for Problem {
    fn from(error: io::Error) -> Problem {
        if error.kind() == ErrorKind::OutOfMemory {
            Problem::OutOfMemory
        } else {
            Problem::Unwritten
        }
    }
}

// The number of rows run for a call, and of those that differ.
#[derive(Drop)]
struct Count {
    call: String,
    asked: u64,
    differ: u64,
}

// The counts of the calls, in the order of their first rows, and the number of lines that aren't rows.
#[derive(Drop)]
struct Tally {
    counts: Vec<Count>,
    unreadable: u64,
}

// A row of the table, neither a heading nor only whitespace, with the number of its line from 1.
#[derive(Clone, Copy)]
struct Line<'a> {
    number: usize,
    text: &'a [u8],
}

impl Line<'_> {
    // Prints the line, and below it a message in two parts.
    fn print<W: Write>(&self, said: &str, more: &str, out: &mut W) -> Result<(), Problem> {
        let number = self.number;
        write!(out, "line {number}: ")?;
        out.write_all(self.text)?;
        writeln!(out, "\n    {said}{more}")?;
        Ok(())
    }
}

// Runs the row in this text, and counts it. Returns the call's answer if it isn't that of the table.
fn run(alloc: Global, text: &[u8], tally: &mut Tally) -> OrFault<Option<Vec<Item>>> {
    let (question, expected): (Vec<Item>, Vec<Item>) = match serde_json::from_slice(alloc, text) {
        Ok(row) => row,
        Err(e) if e.classify() == Category::Memory => return Err(Fault::Unreported),
        Err(_) => return Err(Fault::NoRow),
    };
    let [Some(call), arguments @ ..] = question.as_slice() else {
        return Err(Fault::NoCall);
    };
    let mut answer = Answer::new(alloc);
    match calls::ask(call.as_str(), arguments, &mut answer) {
        Ok(()) | Err(Fault::Rejected) => (),
        Err(Fault::OutOfMemory) => {
            answer.items.clear();
            answer.text("out of memory")?;
        }
        Err(fault) => return Err(fault),
    }
    let items = answer.items;
    let differs = !is_met(expected.as_slice(), items.as_slice());
    let differ = u64::from(differs);
    let mut counts = tally.counts.iter_mut();
    if let Some(count) = counts.find(|count| count.call.as_str() == call.as_str()) {
        count.asked = count.asked.saturating_add(1);
        count.differ = count.differ.saturating_add(differ);
    } else {
        let count = Count {
            call: call.clone()?,
            asked: 1,
            differ,
        };
        push(&mut tally.counts, Ok(count))?;
    }
    Ok(if differs { Some(items) } else { None })
}

/// Runs each row of the table, and prints on `out` the rows that differ, the lines that can't be parsed, and the counts of
/// the calls made. Returns whether none differs.
pub fn compare<W: Write>(alloc: Global, table: &[u8], out: &mut W) -> Result<bool, Problem> {
    let (counts, unreadable) = (Vec::new(alloc), 0);
    let mut tally = Tally { counts, unreadable };
    for (place, text) in table.split(|byte| *byte == b'\n').enumerate() {
        let number = place.saturating_add(1);
        if text.starts_with(b"#") || text.trim_ascii().is_empty() {
            continue;
        }
        let line = Line { number, text };
        let why = match run(alloc, text, &mut tally) {
            Ok(None) => continue,
            Ok(Some(items)) => {
                let Ok(items) = serde_json::to_string(alloc, &items) else {
                    return Err(Problem::OutOfMemory);
                };
                line.print("answered ", items.as_str(), out)?;
                continue;
            }
            Err(Fault::NoRow) => "not a JSON array of two arrays of texts or nulls",
            Err(Fault::NoCall) => "no call has this name",
            Err(Fault::OtherArguments) => "the call takes other arguments",
            Err(_) => return Err(Problem::OutOfMemory),
        };
        tally.unreadable = tally.unreadable.saturating_add(1);
        line.print("can't be read: ", why, out)?;
    }
    for count in &tally.counts {
        let (call, asked, differ) = (&count.call, count.asked, count.differ);
        writeln!(out, "{call}: {asked} asked, {differ} differ")?;
    }
    writeln!(out, "lines that aren't rows: {}", tally.unreadable)?;
    Ok(tally.unreadable == 0 && tally.counts.iter().all(|count| count.differ == 0))
}
