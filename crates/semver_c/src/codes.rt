//! Codes: what a call returns.

ghost use Rattle.std.specs.Prelude.{◌≡◌};
ghost use Rattle.semver_c.specs.Codes.{bool_code, kind_number, match_code, number_of, order_code};

use answers::asking::Answer;
use node_semver::release_type::ReleaseType;
use std::cmp::Ordering;

// The number of a kind of release.
fn kind_number(kind: ReleaseType) -> i8
    ensures { result ≡ kind_number kind }
{
    match kind {
        ReleaseType::Major => 0,
        ReleaseType::Minor => 1,
        ReleaseType::Patch => 2,
        ReleaseType::PreMajor => 3,
        ReleaseType::PreMinor => 4,
        ReleaseType::PrePatch => 5,
        ReleaseType::PreRelease => 6,
        ReleaseType::Release => 7,
    }
}

/// What a call returns: its answer, or why there is none.
#[derive(Clone, Copy)]
pub enum Code {
    No,
    Yes,
    Before,
    Same,
    After,
    /// A range is a tag, so there is no other answer.
    Tag,
    /// A range, a package or a reference is invalid.
    InvalidRange,
    InvalidVersion,
    NotUtf8,
    NoGrammar,
    NoMemory,
    /// A handle is empty, or holds another kind of value.
    NoValue,
    /// There is no next version, or the identifiers of its pre-release are invalid.
    NoStep,
    /// Of which kind a step is, or that there is none.
    Kind(Option<ReleaseType>),
}

impl Code {
    /// The number of the code: 0 and above for an answer, negative for none.
    pub fn byte(self) -> i8
        ensures { result ≡ number_of self }
    {
        match self {
            Code::No | Code::Before => 0,
            Code::Yes | Code::Same => 1,
            Code::After => 2,
            Code::Tag => -1,
            Code::InvalidRange => -2,
            Code::InvalidVersion => -3,
            Code::NotUtf8 => -4,
            Code::NoGrammar => -5,
            Code::NoMemory => -6,
            Code::NoValue => -7,
            Code::NoStep => -8,
            Code::Kind(Some(kind)) => kind_number(kind),
            Code::Kind(None) => 8,
        }
    }

    /// The number of the code as C has it.
    pub fn number(self) -> i32
        ensures { result ≡ number_of self }
    {
        i32::from(self.byte())
    }

    /// Yes or no.
    pub fn of_bool(answer: bool) -> Code
        ensures { result ≡ bool_code answer }
    {
        if answer { Code::Yes } else { Code::No }
    }

    /// The code of a match.
    pub fn of_match(answer: &Answer<bool>) -> Code
        ensures { result ≡ match_code answer.now }
    {
        match answer {
            Answer::Value(matches) => Code::of_bool(*matches),
            Answer::Tag(_) => Code::Tag,
        }
    }

    /// The code of an order.
    pub fn of_order(order: Ordering) -> Code
        ensures { result ≡ order_code order }
    {
        match order {
            Ordering::Less => Code::Before,
            Ordering::Equal => Code::Same,
            Ordering::Greater => Code::After,
        }
    }
}
