//! JSON with comments and trailing commas, as Deno's files have it.

use std::alloc::{AllocError, Global};

// Which part of JSON with comments.
#[derive(Clone, Copy, PartialEq, Eq)]
enum Part {
    Structure,
    /// Behind a `/`.
    Slash,
    LineComment,
    BlockComment,
    /// In a block comment, behind a `*`.
    Star,
    Text,
    /// In a text, behind a `\`.
    Escape,
}

// JSON with comments, and commas before closing brackets, of which the bytes so far are spaces.
#[derive(Drop)]
struct Commented {
    bytes: Vec<u8>,
    part: Part,
    /// The last comma, if only whitespace and comments follow.
    comma: Option<usize>,
}

impl Commented {
    fn clear(&mut self, index: usize) {
        if let Some(byte) = self.bytes.get_mut(index) {
            *byte = b' ';
        }
    }

    // The part behind a byte.
    fn next(&self, byte: u8) -> Part {
        match (self.part, byte) {
            (Part::Structure | Part::Slash, b'"') => Part::Text,
            (Part::Structure, b'/') => Part::Slash,
            (Part::Slash, b'/') => Part::LineComment,
            (Part::Slash, b'*') => Part::BlockComment,
            (Part::LineComment, b'\n') => Part::Structure,
            (Part::BlockComment | Part::Star, b'*') => Part::Star,
            (Part::Star, b'/') => Part::Structure,
            (Part::Star, _) => Part::BlockComment,
            (Part::Text, b'"') => Part::Structure,
            (Part::Text, b'\\') => Part::Escape,
            (Part::Escape, _) => Part::Text,
            (Part::Slash, _) => Part::Structure,
            (part, _) => part,
        }
    }

    // Takes the next byte.
    fn step(&mut self, index: usize, byte: u8) {
        let part = self.part;
        self.part = self.next(byte);
        match (part, self.part, byte) {
            (Part::Slash, Part::LineComment | Part::BlockComment, _) => {
                self.clear(index.saturating_sub(1));
                self.clear(index);
            }
            (Part::LineComment | Part::BlockComment | Part::Star, _, b'\n') => (),
            (Part::LineComment | Part::BlockComment | Part::Star, _, _) => self.clear(index),
            (Part::Structure, Part::Structure, b'}' | b']') => {
                if let Some(comma) = self.comma.take() {
                    self.clear(comma);
                }
            }
            (Part::Structure, Part::Structure, b',') => self.comma = Some(index),
            (Part::Structure, Part::Structure, b' ' | b'\t' | b'\r' | b'\n') => (),
            (Part::Structure, Part::Structure | Part::Text, _) => self.comma = None,
            (_, _, _) => (),
        }
    }
}

/// The same text with spaces in place of comments and of commas before closing brackets. Each byte keeps its place.
pub fn without_comments(alloc: Global, file: &str) -> Result<String, AllocError> {
    let mut commented = Commented {
        bytes: file.as_bytes().to_vec(alloc)?,
        part: Part::Structure,
        comma: None,
    };
    for (index, byte) in file.bytes().enumerate() {
        commented.step(index, byte);
    }
    String::from_str(
        alloc,
        str::from_utf8(commented.bytes.as_slice()).unwrap_or(file),
    )
}
