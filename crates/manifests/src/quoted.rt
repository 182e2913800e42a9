//! Texts in quotes, as YAML has them.

use std::alloc::{AllocError, Global};

/// A text in quotes.
#[derive(Drop)]
pub struct Quoted {
    /// What it means, if it stands on one line.
    pub text: String,
    /// How many bytes it takes, with its quotes.
    pub length: usize,
    /// Whether it goes over several lines.
    pub is_long: bool,
}

// Which part of a text in quotes.
#[derive(Clone, Copy, PartialEq, Eq)]
enum Part {
    Text,
    /// Behind a `\`.
    Escape,
    /// Behind `\x`, `\u` or `\U`: how many digits are to come, and the number that they are so far.
    Digits(u32, u32),
    /// In single quotes, behind one that may end the text or begin a doubled one.
    Quote,
}

/// What an escape means that has no digits.
pub fn meaning(c: char) -> char {
    match c {
        '0' => '\0',
        'a' => '\u{7}',
        'b' => '\u{8}',
        't' => '\t',
        'n' => '\n',
        'v' => '\u{b}',
        'f' => '\u{c}',
        'r' => '\r',
        'e' => '\u{1b}',
        'N' => '\u{85}',
        '_' => '\u{a0}',
        'L' => '\u{2028}',
        'P' => '\u{2029}',
        c => c,
    }
}

// Reads a text in quotes.
#[derive(Drop)]
struct Reader {
    quote: char,
    part: Part,
    text: String,
    /// The first of two numbers that mean a character together.
    high: Option<u32>,
    is_long: bool,
}

impl Reader {
    // Adds what the digits of an escape mean.
    fn add_code(&mut self, code: u32) -> Result<(), AllocError> {
        let code = match (self.high.take(), code) {
            (None, 0xd800..=0xdbff) => {
                self.high = Some(code);
                return Ok(());
            }
            (Some(high), 0xdc00..=0xdfff) => {
                let high = high.saturating_sub(0xd800).saturating_mul(0x400);
                let low = code.saturating_sub(0xdc00);
                high.saturating_add(low).saturating_add(0x10000)
            }
            (_, code) => code,
        };
        self.text.push(char::from_u32(code).unwrap_or('\u{fffd}'))
    }

    // Takes a character. The result says whether the text goes on.
    fn step(&mut self, c: char) -> Result<bool, AllocError> {
        self.is_long |= c == '\n' && self.part != Part::Quote;
        self.part = match (self.part, c) {
            (Part::Text, '\\') if self.quote == '"' => Part::Escape,
            (Part::Text, c) if c == self.quote => {
                if c == '"' {
                    return Ok(false);
                }
                Part::Quote
            }
            (Part::Quote, '\'') | (Part::Text, _) => {
                self.text.push(c)?;
                Part::Text
            }
            (Part::Quote, _) => return Ok(false),
            (Part::Escape, 'x') => Part::Digits(2, 0),
            (Part::Escape, 'u') => Part::Digits(4, 0),
            (Part::Escape, 'U') => Part::Digits(8, 0),
            (Part::Escape, c) => {
                self.text.push(meaning(c))?;
                Part::Text
            }
            (Part::Digits(left, code), c) => {
                let digit = c.to_digit(16).unwrap_or(0);
                let code = code.saturating_mul(16).saturating_add(digit);
                if left > 1 {
                    Part::Digits(left.saturating_sub(1), code)
                } else {
                    self.add_code(code)?;
                    Part::Text
                }
            }
        };
        Ok(true)
    }
}

/// The text in quotes with which this begins; none if it isn't closed.
pub fn read_quoted(alloc: Global, file: &str) -> Result<Option<Quoted>, AllocError> {
    let mut reader = Reader {
        quote: file.chars().next().unwrap_or('"'),
        part: Part::Text,
        text: String::new(alloc),
        high: None,
        is_long: false,
    };
    let mut length = None;
    for (index, c) in file.char_indices().skip(1) {
        if !reader.step(c)? {
            let behind = if c == '"' && reader.quote == '"' {
                1
            } else {
                0
            };
            length = Some(index.saturating_add(behind));
            break;
        }
    }
    let Reader {
        part,
        text,
        is_long,
        ..
    } = reader;
    if part == Part::Quote {
        length = length.or(Some(file.len()));
    }
    Ok(match length {
        Some(length) => Some(Quoted {
            text,
            length,
            is_long,
        }),
        None => None,
    })
}
