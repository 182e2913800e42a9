//! The arguments of a call: grammars by their numbers, texts by their bytes, and why a call has no result.

ghost use Rattle.std.specs.Prelude.{◌≡◌, Err, IfOk, MatchResult, Result, map};
ghost use Rattle.std.specs.Str.Lines.{lines};
ghost use Rattle.answers.specs.declared.asking.Problem.{Problem as Unanswered};
ghost use Rattle.answers.specs.declared.asking.Problem.TheVariants as unanswered;
ghost use Rattle.semver_c.specs.Arguments.{IsArgument, asked_result, IsNumbered, IsUtf8Text, bases, call_fault, call_message, directions, fault_place, grammars, parts_by, pre_release_by, release_types};
ghost use Rattle.semver_c.specs.Given.{IsWithText, IsWithTexts, text_given, texts_given};
ghost use Rattle.semver_c.specs.Codes.{fault_code};
ghost use Rattle.semver_c.specs.declared.arguments.Problem.TheVariants as problem;

use crate::codes::Code;
use answers::asking::{Kind, Problem as Unanswered};
use deno_semver::PreRelease;
use node_semver::coerce::{Direction, Parts};
use node_semver::increment::Base;
use node_semver::release_type::ReleaseType;
use semver_req::common::values::Flavour;
use std::alloc::{AllocError, Global};
use std::str;

/// Why a call has no result.
#[derive(Drop)]
pub enum Problem {
    /// The question about its texts has no result.
    Unanswered(Unanswered),
    /// No grammar, or whatever else is chosen by a number, has this one.
    NoGrammar,
    NotUtf8,
    /// A handle holds no value of the kind that is asked about.
    NoValue,
}

impl From<Unanswered> for Problem {
    ghost from_gives = { λ why made. made ≡ problem.Unanswered why };

    fn from(why: Unanswered) -> Problem {
        Problem::Unanswered(why)
    }
}

impl From<AllocError> for Problem {
    ghost from_gives = { λ _ made. made ≡ problem.Unanswered unanswered.OutOfMemory };

    fn from(_error: AllocError) -> Problem {
        Problem::Unanswered(Unanswered::OutOfMemory)
    }
}

impl Problem {
    /// The code of the problem.
    pub fn code(&self) -> Code
        ensures { result ≡ fault_code (call_fault self.now) }
    {
        match self {
            Problem::Unanswered(Unanswered::Invalid(argument)) => match argument.kind {
                Kind::Version => Code::InvalidVersion,
                Kind::Range | Kind::Package | Kind::Reference => Code::InvalidRange,
                Kind::Step => Code::NoStep,
            },
            Problem::Unanswered(Unanswered::OutOfMemory) => Code::NoMemory,
            Problem::NoGrammar => Code::NoGrammar,
            Problem::NotUtf8 => Code::NotUtf8,
            Problem::NoValue => Code::NoValue,
        }
    }

    /// The place of the invalid argument among those of its kind; without one, the other place.
    pub fn place_or(&self, other: usize) -> usize
        ensures { result ≡ fault_place (call_fault self.now) other }
    {
        match self {
            Problem::Unanswered(Unanswered::Invalid(argument)) => argument.place,
            Problem::Unanswered(Unanswered::OutOfMemory)
            | Problem::NoGrammar
            | Problem::NotUtf8
            | Problem::NoValue => other,
        }
    }

    /// What the problem is.
    pub fn message(&self) -> &str
        ensures { result.now ≡ call_message (call_fault self.now) }
    {
        match self {
            Problem::Unanswered(why) => why.message(),
            Problem::NoGrammar => "No grammar has this number.",
            Problem::NotUtf8 => "The string isn't valid UTF-8.",
            Problem::NoValue => "The handle holds no value of this kind.",
        }
    }
}

// What has this number in a list, counted from 0.
fn numbered<T: Copy>(all: &[T], number: u32) -> Result<T, Problem>
    ensures { IsArgument (IsNumbered all.now number) (λ found. found) result }
{
    all.get(number as usize).copied().ok_or(Problem::NoGrammar)
}

/// The grammar of this number.
fn flavour(number: u32) -> Result<Flavour, Problem>
    ensures { IsArgument (IsNumbered grammars number) (λ flavour. flavour) result }
{
    numbered(&[Flavour::Npm, Flavour::Normal, Flavour::Specifier], number)
}

/// The kind of release of this number.
pub fn release_type_of(number: u32) -> Result<ReleaseType, Problem>
    ensures { IsArgument (IsNumbered release_types number) (λ kind. kind) result }
{
    let all = [
        ReleaseType::Major,
        ReleaseType::Minor,
        ReleaseType::Patch,
        ReleaseType::PreMajor,
        ReleaseType::PreMinor,
        ReleaseType::PrePatch,
        ReleaseType::PreRelease,
        ReleaseType::Release,
    ];
    numbered(&all, number)
}

/// Where the numbers of pre-releases begin, by this number.
pub fn base_of(number: u32) -> Result<Base, Problem>
    ensures { IsArgument (IsNumbered bases number) (λ base. base) result }
{
    numbered(&[Base::Zero, Base::One, Base::Nothing], number)
}

/// The direction of this number.
pub fn direction_of(number: u32) -> Result<Direction, Problem>
    ensures { IsArgument (IsNumbered directions number) (λ direction. direction) result }
{
    numbered(&[Direction::LeftToRight, Direction::RightToLeft], number)
}

/// Which pre-releases match: at 0 by npm's rule, at any other number all between the bounds.
pub fn pre_release(number: u32) -> PreRelease
    ensures { result ≡ pre_release_by number }
{
    if number == 0 {
        PreRelease::Restricted
    } else {
        PreRelease::Admitted
    }
}

/// Which parts of a version are taken: at 0 its numbers, at any other number all.
pub fn parts(number: u32) -> Parts
    ensures { result ≡ parts_by number }
{
    if number == 0 {
        Parts::Numbers
    } else {
        Parts::All
    }
}

/// The text of the bytes.
pub fn text_of(bytes: &[u8]) -> Result<&str, Problem>
    ensures { IsArgument (IsUtf8Text bytes.now) (λ text. text.now) result }
{
    match str::from_utf8(bytes) {
        Ok(text) => Ok(text),
        Err(_) => Err(Problem::NotUtf8),
    }
}

/// A grammar, and a text.
#[derive(Clone, Copy)]
pub struct WithText<'a> {
    pub flavour: Flavour,
    pub text: &'a str,
}

/// The grammar of this number, and the text of the bytes.
pub fn with_text<'a>(grammar: u32, bytes: &'a [u8]) -> Result<WithText<'a>, Problem>
    ensures { IsArgument (IsWithText grammar bytes.now) text_given result }
{
    let flavour = flavour(grammar)?;
    let text = text_of(bytes)?;
    Ok(WithText { flavour, text })
}

/// A grammar, and two texts.
#[derive(Clone, Copy)]
pub struct WithTexts<'a> {
    pub flavour: Flavour,
    pub one: &'a str,
    pub other: &'a str,
}

/// The grammar of this number, and the texts of the bytes.
pub fn with_texts<'a>(
    grammar: u32,
    one: &'a [u8],
    other: &'a [u8],
) -> Result<WithTexts<'a>, Problem>
    ensures { IsArgument (IsWithTexts grammar one.now other.now) texts_given result }
{
    let flavour = flavour(grammar)?;
    let one = text_of(one)?;
    let other = text_of(other)?;
    Ok(WithTexts {
        flavour,
        one,
        other,
    })
}

/// Asks a question about an argument, unless it is invalid.
pub fn ask<A, T, F: FnOnce(A) -> Result<T, Unanswered>>(
    argument: Result<A, Problem>,
    question: F,
) -> Result<T, Problem>
    requires { F.IsAlwaysCallable question }
    ensures { MatchResult argument (λ a. (found : Result T Unanswered) × F.post question a found
        × (result ≡ asked_result found)) (λ p. result ≡ Err p) }
{
    Ok(question(argument?)?)
}

/// The lines of a text.
pub fn line_list<'a>(alloc: Global, text: &'a str) -> Result<Vec<&'a str>, AllocError>
    ensures { IfOk result (λ list. map (λ line. line.now) list.items ≡ lines text.now) }
{
    text.lines().collect(alloc)
}
