//! Whether a text is JSON, however deep its arrays and objects are, and what is wrong with it.

use std::alloc::{AllocError, Global};

#[derive(Clone, Copy, PartialEq, Eq)]
enum Open {
    Object,
    Array,
}

// What may come next, between two tokens.
#[derive(Clone, Copy, PartialEq, Eq)]
enum Next {
    Value,
    ItemOrEnd,
    KeyOrEnd,
    Key,
    Colon,
    CommaOrEnd,
    Nothing,
}

// The part of a number that its last character belongs to.
#[derive(Clone, Copy, PartialEq, Eq)]
enum Number {
    Minus,
    Zero,
    Integer,
    Point,
    Fraction,
    Exponent,
    Sign,
    Power,
}

impl Number {
    fn is_complete(self) -> bool {
        matches!(
            self,
            Number::Zero | Number::Integer | Number::Fraction | Number::Power
        )
    }

    // The part that a character belongs to, if the number goes on with it.
    fn after(self, c: char) -> Option<Number> {
        match (self, c) {
            (Number::Minus, '0') => Some(Number::Zero),
            (Number::Minus | Number::Integer, '0'..='9') => Some(Number::Integer),
            (Number::Zero | Number::Integer, '.') => Some(Number::Point),
            (Number::Point | Number::Fraction, '0'..='9') => Some(Number::Fraction),
            (Number::Zero | Number::Integer | Number::Fraction, 'e' | 'E') => Some(
                Number::Exponent,
            ),
            (Number::Exponent, '+' | '-') => Some(Number::Sign),
            (Number::Exponent | Number::Sign | Number::Power, '0'..='9') => Some(Number::Power),
            (_, _) => None,
        }
    }
}

// The token in which the last character is.
#[derive(Clone, Copy, PartialEq, Eq)]
enum Token {
    /// None.
    Between,
    Text,
    /// In a text, behind a `\`.
    Escape,
    /// In a text, behind `\u` and before so many digits.
    Digits(u8),
    Number(Number),
    /// In `true`, `false` or `null`, before these letters.
    Word(&'static str),
}

// What was taken of a text that may be JSON.
#[derive(Drop)]
struct Taken {
    open: Vec<Open>,
    next: Next,
    token: Token,
}

impl Taken {
    // What may follow a value here.
    fn behind_value(&self) -> Next {
        if self.open.is_empty() {
            Next::Nothing
        } else {
            Next::CommaOrEnd
        }
    }

    // Opens an array or an object.
    fn open(&mut self, open: Open, next: Next) -> Result<bool, AllocError> {
        self.open.push(open)?;
        self.next = next;
        Ok(true)
    }

    // Begins a token, behind which this may come.
    fn begin(&mut self, token: Token, next: Next) -> bool {
        self.token = token;
        self.next = next;
        true
    }

    // Takes the first character of a value.
    fn value(&mut self, c: char) -> Result<bool, AllocError> {
        let token = match c {
            '{' => return self.open(Open::Object, Next::KeyOrEnd),
            '[' => return self.open(Open::Array, Next::ItemOrEnd),
            '"' => Token::Text,
            '-' => Token::Number(Number::Minus),
            '0' => Token::Number(Number::Zero),
            '1'..='9' => Token::Number(Number::Integer),
            't' => Token::Word("rue"),
            'f' => Token::Word("alse"),
            'n' => Token::Word("ull"),
            _ => return Ok(false),
        };
        let next = self.behind_value();
        Ok(self.begin(token, next))
    }

    // Takes a character between two tokens.
    fn between(&mut self, c: char) -> Result<bool, AllocError> {
        let innermost = self.open.last().copied();
        match (c, self.next, innermost) {
            (' ' | '\t' | '\r' | '\n', _, _) => Ok(true),
            ('"', Next::Key | Next::KeyOrEnd, _) => Ok(self.begin(Token::Text, Next::Colon)),
            (':', Next::Colon, _) => Ok(self.begin(Token::Between, Next::Value)),
            (',', Next::CommaOrEnd, Some(Open::Object)) => {
                Ok(self.begin(Token::Between, Next::Key))
            }
            (',', Next::CommaOrEnd, _) => Ok(self.begin(Token::Between, Next::Value)),
            ('}', Next::KeyOrEnd | Next::CommaOrEnd, Some(Open::Object))
            | (']', Next::ItemOrEnd | Next::CommaOrEnd, Some(Open::Array)) => {
                let _ = self.open.pop();
                self.next = self.behind_value();
                Ok(true)
            }
            (c, Next::Value | Next::ItemOrEnd, _) => self.value(c),
            (_, _, _) => Ok(false),
        }
    }

    // Takes the next character, if JSON goes on with it.
    fn step(&mut self, c: char) -> Result<bool, AllocError> {
        self.token = match (self.token, c) {
            (Token::Between, c) => return self.between(c),
            (Token::Text, '"') => Token::Between,
            (Token::Text, '\\') => Token::Escape,
            (Token::Text, '\0'..='\x1f') => return Ok(false),
            (Token::Text, _) => Token::Text,
            (Token::Escape, '"' | '\\' | '/' | 'b' | 'f' | 'n' | 'r' | 't') => Token::Text,
            (Token::Escape, 'u') => Token::Digits(4),
            (Token::Digits(left), c) if c.is_ascii_hexdigit() => {
                if left > 1 {
                    Token::Digits(left.saturating_sub(1))
                } else {
                    Token::Text
                }
            }
            (Token::Number(number), c) => match number.after(c) {
                Some(number) => Token::Number(number),
                None if number.is_complete() => {
                    self.token = Token::Between;
                    return self.between(c);
                }
                None => return Ok(false),
            },
            (Token::Word(left), c) => match left.strip_prefix(c) {
                Some("") => Token::Between,
                Some(left) => Token::Word(left),
                None => return Ok(false),
            },
            (_, _) => return Ok(false),
        };
        Ok(true)
    }

    // Why JSON doesn't go on with this character between two tokens.
    fn unexpected(&self, c: char) -> &'static str {
        let is_array = self.open.last().copied() == Some(Open::Array);
        match (self.next, c) {
            (_, '/') => "not valid JSON: JSON has no comments",
            (Next::Key | Next::KeyOrEnd | Next::Value | Next::ItemOrEnd, '\'') => {
                "not valid JSON: a string has double quotes"
            }
            (Next::Key, '}') => "not valid JSON: a comma stands before `}`",
            (Next::Value, ']') if is_array => "not valid JSON: a comma stands before `]`",
            (Next::Key | Next::KeyOrEnd, _) => "not valid JSON: expected a key in double quotes",
            (Next::Colon, _) => "not valid JSON: expected `:` behind the key",
            (Next::Value | Next::ItemOrEnd, _) => {
                "not valid JSON: expected a value; a string has double quotes"
            }
            (Next::CommaOrEnd, _) if is_array => "not valid JSON: expected `,` or `]`",
            (Next::CommaOrEnd, _) => "not valid JSON: expected `,` or `}`",
            (Next::Nothing, _) => "not valid JSON: expected the end of the file",
        }
    }

    // Why JSON doesn't go on with this character.
    fn reason(&self, c: char) -> &'static str {
        match self.token {
            Token::Between => self.unexpected(c),
            Token::Text if c == '\n' => "not valid JSON: the string isn't closed on its line",
            Token::Text => "not valid JSON: a control character in a string",
            Token::Escape | Token::Digits(_) => "not valid JSON: an invalid escape in a string",
            Token::Number(_) => "not valid JSON: an invalid number",
            Token::Word(_) => "not valid JSON: expected `true`, `false` or `null`",
        }
    }

    // What is missing at the end.
    fn missing(&self) -> &'static str {
        match (self.token, self.open.last().copied()) {
            (Token::Text | Token::Escape | Token::Digits(_), _) => {
                "not valid JSON: the string isn't closed"
            }
            (_, Some(Open::Object)) => "not valid JSON: a `}` is missing at the end",
            (_, Some(Open::Array)) => "not valid JSON: a `]` is missing at the end",
            (_, None) => "not valid JSON: the value is missing, or cut off",
        }
    }

    // Whether nothing is missing.
    fn is_complete(&self) -> bool {
        match self.token {
            Token::Between => self.next == Next::Nothing,
            Token::Number(number) => self.next == Next::Nothing && number.is_complete(),
            _ => false,
        }
    }
}

/// Where a text isn't JSON any more, and why.
#[derive(Clone, Copy)]
pub struct Mistake {
    /// The index of the first wrong character, or that of the last if the text is only a beginning of JSON.
    pub index: usize,
    pub message: &'static str,
}

// The lines that git writes around the two sides of a conflict begin so.
const CONFLICT: [&str; 3] = ["<<<<<<<", "=======", ">>>>>>>"];

// Whether one of these lines begins at an index.
fn is_conflict(text: &str, index: usize) -> bool {
    let (before, rest) = text.split_at_checked(index).unwrap_or((text, ""));
    let begins_line = before.is_empty() || before.ends_with('\n');
    begins_line && CONFLICT.iter().any(|marker| rest.starts_with(*marker))
}

/// The first mistake in a text; none if it is JSON.
pub fn mistake_in(alloc: Global, text: &str) -> Result<Option<Mistake>, AllocError> {
    let mut taken = Taken {
        open: Vec::new(alloc),
        next: Next::Value,
        token: Token::Between,
    };
    let mut index = 0usize;
    for (at, c) in text.char_indices() {
        index = at;
        if !taken.step(c)? {
            let message = if is_conflict(text, at) {
                "not valid JSON: a merge conflict isn't resolved"
            } else {
                taken.reason(c)
            };
            return Ok(Some(Mistake { index, message }));
        }
    }
    Ok(if taken.is_complete() {
        None
    } else {
        let message = taken.missing();
        Some(Mistake { index, message })
    })
}
