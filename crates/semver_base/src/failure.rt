//! Why a text or a bound is invalid.

ghost use Rattle.std.specs.Prelude.{◌≡◌, ◌↔◌, ◌⊎◌, IsTrue, IfOk, Some, None, codes};
ghost use Rattle.std.specs.Option.{option_copied};
ghost use Rattle.semver_base.specs.Failure.{message_of, rejection_message, snippet_of};

use crate::string::SmallStackString;
use std::alloc::{AllocError, Global};
use std::error::Error;
use std::fmt;
use std::marker::Model;

/// Why a version, a version requirement or a bound is rejected, other than out of memory.
#[derive(Clone, Copy, Debug, PartialEq, Eq)]
pub enum Rejection {
    /// The text doesn't match the grammar.
    UnexpectedCharacter,
    /// A version requirement is empty or only whitespace, where that is invalid.
    EmptyConstraint,
    /// No `.` follows the first number of a version.
    MissingMinor,
    /// No `.` follows the second number of a version.
    MissingPatch,
    /// A number is larger than 18446744073709551615.
    NumberTooLarge,
    /// A computed bound is larger than 18446744073709551615.
    BoundTooLarge,
}

impl Rejection {
    /// The error message.
    pub fn message(self) -> &'static str
        ensures { result.now ≡ rejection_message self }
    {
        match self {
            Rejection::UnexpectedCharacter => "Unexpected character.",
            Rejection::EmptyConstraint => "Empty version constraint.",
            Rejection::MissingMinor => {
                "Missing minor version. Versions must be in the form MAJOR.MINOR.PATCH (ex. 1.0.0)."
            }
            Rejection::MissingPatch => {
                "Missing patch version. Versions must be in the form MAJOR.MINOR.PATCH (ex. 1.0.0)."
            }
            Rejection::NumberTooLarge => "Number is too large.",
            Rejection::BoundTooLarge => "Version bound is too large.",
        }
    }
}

/// A parse error: a message and, for some errors, the offending part of the text; or out of memory.
///
/// Contracts see a failure as an optional pair of the message and the optional snippet, where `None` is out of memory. Two
/// failures are equal if these are. [`ParseFailure::reports_of`] tests for a given [`Rejection`].
#[derive(Debug, PartialEq, Eq)]
pub struct ParseFailure {
    texts: Option<(SmallStackString, Option<SmallStackString>)>,
}

impl Model for ParseFailure {
    ghost use Rattle.std.specs.Prelude.{List, ℕ, Option};

    ghost Value = { Option (List ℕ × Option (List ℕ)) };

    ghost view = { λ f. f.texts };

    ghost inverse = { λ texts. record { texts = texts } };
}

// Written out so that dropping a failure is one call.
impl Drop for ParseFailure {
    fn drop(self) {
        let ParseFailure { texts } = self;
        drop(texts);
    }
}

impl ParseFailure {
    /// Creates a failure with a message and an optional snippet, or an out-of-memory failure if they can't be copied.
    pub fn with_texts(alloc: Global, message: &str, code_snippet: Option<&str>) -> ParseFailure
        ensures { (result ≡ None) ⊎
            (result ≡ Some (message.now, option_copied code_snippet.entry)) }
    {
        let Ok(message) = SmallStackString::from_str(alloc, message) else {
            return ParseFailure::memory();
        };
        let Some(snippet) = code_snippet else {
            return ParseFailure {
                texts: Some((message, None)),
            };
        };
        match SmallStackString::from_str(alloc, snippet) {
            Ok(snippet) => ParseFailure {
                texts: Some((message, Some(snippet))),
            },
            Err(_) => ParseFailure::memory(),
        }
    }

    /// Creates a failure with the message of `rejection` and no snippet, or an out-of-memory failure.
    pub fn of_rejection(alloc: Global, rejection: Rejection) -> ParseFailure
        ensures { (result ≡ None) ⊎ (result ≡ Some (rejection_message rejection, None)) }
    {
        ParseFailure::with_texts(alloc, rejection.message(), None)
    }

    /// The out-of-memory failure.
    pub fn memory() -> ParseFailure
        ensures { result ≡ None }
    {
        ParseFailure { texts: None }
    }

    /// Returns a copy. Fails only out of memory.
    pub fn copy(&self) -> Result<ParseFailure, AllocError>
        ensures { IfOk result (λ failure. failure ≡ self.now) }
    {
        match &self.texts {
            None => Ok(ParseFailure::memory()),
            Some((message, None)) => Ok(ParseFailure {
                texts: Some((message.copy()?, None)),
            }),
            Some((message, Some(snippet))) => Ok(ParseFailure {
                texts: Some((message.copy()?, Some(snippet.copy()?))),
            }),
        }
    }

    /// Whether the failure is out of memory.
    pub fn is_memory(&self) -> bool
        ensures { IsTrue result ↔ (self.now ≡ None) }
    {
        self.texts.is_none()
    }

    /// Whether the failure's message is that of `rejection`.
    pub fn reports_of(&self, rejection: Rejection) -> bool
        ensures { IsTrue result ↔ (message_of self.now ≡ rejection_message rejection) }
    {
        self.message() == rejection.message()
    }

    /// The error message; `Out of memory.` if out of memory.
    pub fn message(&self) -> &str
        ensures { result.now ≡ message_of self.now }
    {
        match &self.texts {
            None => "Out of memory.",
            Some((message, _)) => message.as_str(),
        }
    }

    /// The offending part of the text, if the failure has one.
    pub fn code_snippet(&self) -> Option<&str>
        ensures { option_copied result ≡ snippet_of self.now }
    {
        match &self.texts {
            None => None,
            Some((_, None)) => None,
            Some((_, Some(snippet))) => Some(snippet.as_str()),
        }
    }
}

impl From<AllocError> for ParseFailure {
    ghost from_gives = { λ _ failure. failure ≡ None };

    fn from(_error: AllocError) -> ParseFailure {
        ParseFailure::memory()
    }
}

impl fmt::Display for ParseFailure {
    ghost output = { λ f. Some (message_of f) };

    fn fmt<W: fmt::Write>(&self, f: &mut fmt::Formatter<W>) -> fmt::Result {
        f.write_str(self.message())
    }
}

/// The parser of versions.
pub const VERSIONS: usize = 0;
/// npm's parser of versions.
pub const NPM_VERSIONS: usize = 1;
/// The parser of requirements of the normalized grammar.
pub const NORMALIZED_REQUIREMENTS: usize = 2;
/// The parser of requirements of npm's grammar.
pub const NPM_REQUIREMENTS: usize = 3;
/// The parser of requirements of package specifiers.
pub const SPECIFIER_REQUIREMENTS: usize = 4;

/// Why a text failed to parse, which may be out of memory; `PARSER` is the parser that reports it, one of those above.
///
/// Two errors are equal if their sources are. An error is displayed as a line that says what the parser parses; the source says
/// what is wrong.
#[derive(Debug, PartialEq, Eq, Drop)]
pub struct ParserError<const PARSER: usize> {
    pub source: ParseFailure,
}

impl<const PARSER: usize> ParserError<PARSER> {
    /// The error message; `Out of memory.` if out of memory.
    pub fn message(&self) -> &str
        ensures { result.now ≡ message_of self.now.source }
    {
        self.source.message()
    }

    /// Whether the error is out of memory.
    pub fn is_memory(&self) -> bool
        ensures { IsTrue result ↔ (self.now.source ≡ None) }
    {
        self.source.is_memory()
    }

    /// Returns a copy. Fails only out of memory.
    pub fn copy(&self) -> Result<Self, AllocError>
        ensures { IfOk result (λ error. error ≡ self.now) }
    {
        Ok(ParserError {
            source: self.source.copy()?,
        })
    }
}

impl<const PARSER: usize> From<ParseFailure> for ParserError<PARSER> {
    ghost from_gives = { λ failure error. error.source ≡ failure };

    fn from(source: ParseFailure) -> ParserError<PARSER> {
        ParserError { source }
    }
}

impl<const PARSER: usize> From<AllocError> for ParserError<PARSER> {
    ghost from_gives = { λ _ error. error.source ≡ None };

    fn from(_error: AllocError) -> ParserError<PARSER> {
        ParserError {
            source: ParseFailure::memory(),
        }
    }
}

impl<const PARSER: usize> From<ParserError<PARSER>> for ParseFailure {
    ghost from_gives = { λ error failure. failure ≡ error.source };

    fn from(error: ParserError<PARSER>) -> ParseFailure {
        error.source
    }
}

impl fmt::Display for ParserError<VERSIONS> {
    ghost output = { λ _. Some (codes "Invalid version") };

    fn fmt<W: fmt::Write>(&self, f: &mut fmt::Formatter<W>) -> fmt::Result {
        f.write_str("Invalid version")
    }
}

impl fmt::Display for ParserError<NPM_VERSIONS> {
    ghost output = { λ _. Some (codes "Invalid npm version") };

    fn fmt<W: fmt::Write>(&self, f: &mut fmt::Formatter<W>) -> fmt::Result {
        f.write_str("Invalid npm version")
    }
}

impl fmt::Display for ParserError<NORMALIZED_REQUIREMENTS> {
    ghost output = { λ _. Some (codes "Invalid normalized version requirement") };

    fn fmt<W: fmt::Write>(&self, f: &mut fmt::Formatter<W>) -> fmt::Result {
        f.write_str("Invalid normalized version requirement")
    }
}

impl fmt::Display for ParserError<NPM_REQUIREMENTS> {
    ghost output = { λ _. Some (codes "Invalid version requirement") };

    fn fmt<W: fmt::Write>(&self, f: &mut fmt::Formatter<W>) -> fmt::Result {
        f.write_str("Invalid version requirement")
    }
}

impl fmt::Display for ParserError<SPECIFIER_REQUIREMENTS> {
    ghost output = { λ _. Some (codes "Invalid specifier version requirement") };

    fn fmt<W: fmt::Write>(&self, f: &mut fmt::Formatter<W>) -> fmt::Result {
        f.write_str("Invalid specifier version requirement")
    }
}

impl Error for ParserError<VERSIONS> {}

impl Error for ParserError<NPM_VERSIONS> {}

impl Error for ParserError<NORMALIZED_REQUIREMENTS> {}

impl Error for ParserError<NPM_REQUIREMENTS> {}

impl Error for ParserError<SPECIFIER_REQUIREMENTS> {}
