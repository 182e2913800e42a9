//! What stands in a file of ranges.

use crate::escaped::written_index;
use crate::sections::Kind;
use std::alloc::Global;
use terminal::shown::part;

/// A text of a file, or a mistake in it.
#[derive(Drop)]
pub struct Entry {
    /// The first key on the way to it; empty in plain lines.
    pub section: &'static str,
    /// The key of the object that it is in, such as the name of a catalog; empty at the top of the file.
    pub object: String,
    /// Its key: what depends on it. Empty in plain lines.
    pub name: String,
    /// How many objects and arrays it is in, without the one that the file is.
    pub depth: usize,
    pub text: String,
    /// The index of its first byte in the file.
    pub start: usize,
    /// The index behind its last byte in the file, where its text may have escapes.
    pub end: usize,
    pub kind: Kind,
}

impl Entry {
    /// What is said of the file itself at this index.
    pub fn of_file(alloc: Global, start: usize, message: &'static str) -> Entry {
        Entry {
            section: "",
            object: String::new(alloc),
            name: String::new(alloc),
            depth: 0,
            text: String::new(alloc),
            start,
            end: start,
            kind: Kind::Mistake(message),
        }
    }

    /// The index in the file of the byte with this index of the text.
    pub fn index_of(&self, file: &str, index: usize) -> usize {
        let written = part(file, self.start, self.end);
        let index = if written.len() == self.text.len() {
            index
        } else {
            let is_single = part(file, 0, self.start).ends_with('\'');
            written_index(written, is_single, index)
        };
        self.start.saturating_add(index)
    }
}
