//! What may stand at a place of a text.

ghost use Rattle.std.specs.Prelude.{◌≡◌, IfOk};
ghost use Rattle.semver_req.specs.Kinds.{IsExpectation, kind_text};

use crate::common::values::Flavour;
use crate::error_places::{Grammar, Sizes, front_of, is_piece_behind, is_range, is_viable_with};
use std::alloc::{AllocError, Global};

/// Texts that may follow the same prefixes.
#[derive(Clone, Copy, Debug, PartialEq, Eq)]
pub enum Kind {
    /// A digit.
    Digit,
    /// `x` or `X`.
    X,
    /// `v`.
    V,
    /// Another ASCII letter.
    Letter,
    /// `*`.
    Star,
    /// `.`.
    Dot,
    /// `-`.
    Hyphen,
    /// `+`.
    Plus,
    /// `~`.
    Tilde,
    /// `^`.
    Caret,
    /// `<`.
    Less,
    /// `>`.
    Greater,
    /// `=`.
    Equals,
    /// A space.
    Space,
    /// `,`.
    Comma,
    /// `&`.
    And,
    /// `|`.
    Bar,
}

// Every kind.
const KINDS: [Kind; 17] = [
    Kind::Digit,
    Kind::X,
    Kind::V,
    Kind::Letter,
    Kind::Star,
    Kind::Dot,
    Kind::Hyphen,
    Kind::Plus,
    Kind::Tilde,
    Kind::Caret,
    Kind::Less,
    Kind::Greater,
    Kind::Equals,
    Kind::Space,
    Kind::Comma,
    Kind::And,
    Kind::Bar,
];

impl Kind {
    /// A text of this kind.
    pub fn text(self) -> &'static str
        ensures text { result.now ≡ kind_text self }
    {
        match self {
            Kind::Digit => "1",
            Kind::X => "x",
            Kind::V => "v",
            Kind::Letter => "a",
            Kind::Star => "*",
            Kind::Dot => ".",
            Kind::Hyphen => "-",
            Kind::Plus => "+",
            Kind::Tilde => "~",
            Kind::Caret => "^",
            Kind::Less => "<",
            Kind::Greater => ">",
            Kind::Equals => "=",
            Kind::Space => " ",
            Kind::Comma => ",",
            Kind::And => "&",
            Kind::Bar => "|",
        }
    }
}

/// What may stand behind a prefix.
#[derive(Debug, Drop)]
pub struct Expected {
    /// The kinds whose texts may follow, in the order in which [`Kind`] has them.
    pub kinds: Vec<Kind>,
    /// Whether a text may end there.
    pub may_end: bool,
}

/// Returns what may stand behind a prefix: which kinds may follow it, and whether a text may end there. If one text of a kind may
/// follow, each may.
///
/// Fails only out of memory.
pub fn expected_after(alloc: Global, prefix: &str, flavour: Flavour) -> Result<Expected, AllocError>
    ensures { IfOk result (IsExpectation flavour prefix.now) }
{
    let grammar = Grammar::Ranges(flavour, Sizes::Any);
    let behind = front_of(alloc, prefix, grammar)?;
    let front = &prefix[..behind];
    let rest = &prefix[behind..];
    let may_end = match flavour {
        Flavour::Npm => is_piece_behind(alloc, front, rest, false, Flavour::Npm, Sizes::Any)?,
        Flavour::Normal => is_piece_behind(alloc, front, rest, false, Flavour::Normal, Sizes::Any)?,
        Flavour::Specifier => is_range(alloc, prefix, Sizes::Any)?,
    };
    let mut kinds = Vec::new(alloc);
    for kind in &KINDS {
        if !is_viable_with(alloc, front, rest, kind.text(), grammar)? {
            continue;
        }
        kinds.push(*kind)?;
    }
    Ok(Expected { kinds, may_end })
}
