//! Short texts, the traits for appending to a text, and `list`, the lists that hold short texts.
//!
//! A contract sees a text as its UTF-8 bytes and a list as its items, however they are stored. A short text is stored inline
//! and a longer one in a `String`.

ghost use Rattle.std.specs.Prelude.{◌≡◌, ◌≤◌, ◌<◌, ◌+◌, ◌++◌, ℕ, List, [], Some, IfOk, IsOk, OnOk, OnErr, IsTrue, ◌↔◌, encode_utf8, length, nat_eq, refl, string_bytes, IsUtf8, IfSome};
ghost use Rattle.std.proofs.Common.{rules};
ghost use Rattle.std.specs.Cmp.{partial_equiv_from_equiv};
ghost use Rattle.std.specs.Cmp.Lexicographic.{nat_list_cmp_total, nat_list_eq_equiv, pointwise, slice_cmp, texts_po, texts_ties};
ghost use Rattle.std.specs.Cmp.Rules.{hashing};
ghost use Rattle.std.specs.Cow.{cow_str_bytes};
ghost use Rattle.std.specs.Ordering.{nat_cmp};
ghost use Rattle.semver_base.specs.Texts.{FitsOrIsOwned, IsReplaced, IsStored, storage_bytes, zeros_in_front};
ghost use Rattle.std.specs.Hash as fed;

mod inline_items;
mod list;

use arrayvec::ArrayString;
pub use list::{CowItem, CowVec};
use std::alloc::{AllocError, Global};
use std::borrow::CowStr;
use std::cmp::Ordering;
use std::hash::{Hash, Hasher};
use std::marker::Model;
use std::{fmt, mem};

/// A string, seen in contracts as its UTF-8 bytes. One of at most `LIMIT` bytes is stored inline and doesn't allocate.
///
/// Texts are equal if their bytes are, and are ordered by bytes.
pub struct ShortText<const LIMIT: usize> {
    alloc: Global,
    storage: Storage<LIMIT>,
}

/// A text that stores up to 15 bytes inline.
pub type SmallStackString = ShortText<15>;

/// A text that stores up to 23 bytes inline.
pub type StackString = ShortText<23>;

// Where a text is stored: a long one with the number of zeros that it begins with.
#[derive(Drop)]
enum Storage<const LIMIT: usize> {
    Inline(ArrayString<LIMIT>),
    Heap { text: String, zeros: usize },
}

impl<const LIMIT: usize> Model for ShortText<LIMIT> {
    ghost use Rattle.std.specs.Prelude.{List, ℕ};
    ghost use Rattle.semver_base.specs.Texts.{storage_bytes, IsStored};

    ghost Value = { List ℕ };

    ghost view = { λ s. storage_bytes s.storage };

    ghost invariant = { λ s. IsStored s.storage };
}

// Written out so that dropping a text is one call.
impl<const LIMIT: usize> Drop for ShortText<LIMIT> {
    #[inline]
    fn drop(self) {
        let ShortText { alloc: _, storage } = self;
        drop(storage);
    }
}

// Counts the leading zeros.
#[inline(always)]
fn leading_zeros(bytes: &[u8]) -> usize
    ensures { result ≡ zeros_in_front bytes.now }
{
    bytes.iter().take_while(|byte| **byte == b'0').count()
}

impl<const LIMIT: usize> ShortText<LIMIT> {
    /// Creates an empty text.
    #[inline(always)]
    pub fn new(alloc: Global) -> Self
        ensures { result ≡ [] }
    {
        ShortText {
            alloc,
            storage: Storage::Inline(ArrayString::new()),
        }
    }

    /// Creates an empty text. The capacity is only a hint: nothing is allocated until a text needs it.
    #[inline(always)]
    pub fn with_capacity(alloc: Global, _capacity: usize) -> Result<Self, AllocError>
        ensures value { IfOk result (λ s. s ≡ []) }
        ensures succeeds { IsOk result }
    {
        Ok(ShortText::new(alloc))
    }

    /// Creates a text from `text`. Fails only out of memory, and never for at most `LIMIT` bytes.
    #[inline(always)]
    pub fn from_str(alloc: Global, text: &str) -> Result<Self, AllocError>
        ensures value { IfOk result (λ s. s ≡ text.now) }
        ensures succeeds { length text.now ≤ LIMIT → IsOk result }
    {
        let storage = match ArrayString::from(text) {
            Ok(short) => Storage::Inline(short),
            Err(_) => Storage::Heap {
                text: String::from_str(alloc, text)?,
                zeros: leading_zeros(text.as_bytes()),
            },
        };
        Ok(ShortText { alloc, storage })
    }

    /// Creates a text from a literal, as [`ShortText::from_str`] does.
    pub fn from_static(alloc: Global, literal: &'static str) -> Result<Self, AllocError>
        ensures value { IfOk result (λ s. s ≡ literal.now) }
        ensures succeeds { length literal.now ≤ LIMIT → IsOk result }
    {
        ShortText::from_str(alloc, literal)
    }

    /// Creates a text from `text`, reusing its memory if it is long. Allocates nothing.
    pub fn from_string(alloc: Global, text: String) -> Result<Self, AllocError>
        ensures value { IfOk result (λ s. s ≡ string_bytes text) }
        ensures succeeds { IsOk result }
    {
        let storage = match ArrayString::from(text.as_str()) {
            Ok(short) => Storage::Inline(short),
            Err(_) => {
                let zeros = leading_zeros(text.as_str().as_bytes());
                Storage::Heap { text, zeros }
            }
        };
        Ok(ShortText { alloc, storage })
    }

    /// Creates a text from `text`, as [`ShortText::from_str`] or [`ShortText::from_string`] does.
    pub fn from_cow(alloc: Global, text: CowStr<'_, Global>) -> Result<Self, AllocError>
        ensures value { IfOk result (λ s. s ≡ cow_str_bytes text.entry) }
        ensures succeeds { FitsOrIsOwned LIMIT text.entry → IsOk result }
    {
        match text {
            CowStr::Borrowed(borrowed) => ShortText::from_str(alloc, borrowed),
            CowStr::Owned(owned) => ShortText::from_string(alloc, owned),
        }
    }

    /// The text as a string slice.
    pub fn as_str(&self) -> &str
        ensures value { result.now ≡ self.now }
        ensures utf8 { IsUtf8 self.now }
    {
        match &self.storage {
            Storage::Inline(short) => short.as_str(),
            Storage::Heap { text, zeros: _ } => text.as_str(),
        }
    }

    // How many zeros the text begins with, in constant time.
    #[inline(always)]
    pub(crate) fn leading_zeros(&self) -> usize
        ensures { result ≡ zeros_in_front self.now }
    {
        match &self.storage {
            Storage::Inline(short) => leading_zeros(short.as_str().as_bytes()),
            Storage::Heap { text: _, zeros } => *zeros,
        }
    }

    /// Whether this text equals `other`.
    pub fn eq_str(&self, other: &str) -> bool
        ensures { IsTrue result ↔ (self.now ≡ other.now) }
    {
        other == self.as_str()
    }

    /// Appends a text. On failure the text is unchanged; up to `LIMIT` bytes nothing is allocated.
    pub fn push_str(&mut self, text: &str) -> Result<(), AllocError>
        ensures ok { OnOk result (self.new ≡ self.old ++ text.now) }
        ensures err { OnErr result (self.new ≡ self.old) }
        ensures succeeds { length self.old + length text.now ≤ LIMIT → IsOk result }
    {
        let alloc = self.alloc;
        match &mut self.storage {
            Storage::Inline(short) => {
                if short.try_push_str(text).is_err() {
                    let mut long = String::from_str(alloc, short.as_str())?;
                    long.push_str(text)?;
                    let zeros = leading_zeros(long.as_str().as_bytes());
                    self.storage = Storage::Heap { text: long, zeros };
                }
                Ok(())
            }
            Storage::Heap { text: long, zeros } => {
                long.push_str(text)?;
                *zeros += leading_zeros(&long.as_str().as_bytes()[*zeros..]);
                Ok(())
            }
        }
    }

    /// Appends a character. On failure the text is unchanged; up to `LIMIT` bytes nothing is allocated.
    pub fn push(&mut self, character: char) -> Result<(), AllocError>
        ensures ok { OnOk result (self.new ≡ self.old ++ encode_utf8 character) }
        ensures err { OnErr result (self.new ≡ self.old) }
        ensures succeeds { length self.old + length (encode_utf8 character) ≤ LIMIT → IsOk result }
    {
        let mut bytes = [0; 4];
        self.push_str(character.encode_utf8(&mut bytes))
    }

    /// Returns the text with each leftmost, non-overlapping occurrence of `from` replaced by `to`. An empty `from` inserts
    /// `to` before each character and at the end, as `str::replace` does.
    ///
    /// Fails only out of memory, and never if the new text has at most `LIMIT` bytes.
    pub fn replace(&self, alloc: Global, from: &str, to: &str) -> Result<Self, AllocError>
        ensures value { IfOk result (IsReplaced from.now to.now self.now) }
        ensures succeeds { (replaced : List ℕ) → IsReplaced from.now to.now self.now replaced
            → length replaced ≤ LIMIT → IsOk result }
    {
        let mut replaced = ShortText::new(alloc);
        let mut rest = self.as_str();
        if from.is_empty() {
            for character in rest.chars() {
                replaced.push_str(to)?;
                replaced.push(character)?;
            }
            replaced.push_str(to)?;
            return Ok(replaced);
        }
        while let Some((before, after)) = rest.split_once(from) {
            replaced.push_str(before)?;
            replaced.push_str(to)?;
            rest = after;
        }
        replaced.push_str(rest)?;
        Ok(replaced)
    }

    /// Returns a copy. Fails only out of memory, and never for at most `LIMIT` bytes.
    pub fn copy(&self) -> Result<Self, AllocError>
        ensures value { IfOk result (λ s. s ≡ self.now) }
        ensures succeeds { length self.now ≤ LIMIT → IsOk result }
    {
        let storage = match &self.storage {
            Storage::Inline(short) => Storage::Inline(*short),
            Storage::Heap { text, zeros } => Storage::Heap {
                text: text.clone()?,
                zeros: *zeros,
            },
        };
        Ok(ShortText {
            alloc: self.alloc,
            storage,
        })
    }

    /// Copies the text into a `String`. Fails only out of memory.
    pub fn to_string(&self, alloc: Global) -> Result<String, AllocError>
        ensures { IfOk result (λ s. string_bytes s ≡ self.now) }
    {
        String::from_str(alloc, self.as_str())
    }

    /// Converts the text into a `String`. Fails only out of memory, and never for more than `LIMIT` bytes, whose memory the
    /// `String` takes over.
    pub fn into_string(mut self, alloc: Global) -> Result<String, AllocError>
        ensures value { IfOk result (λ s. string_bytes s ≡ self.entry) }
        ensures succeeds { LIMIT < length self.entry → IsOk result }
    {
        match mem::replace(&mut self.storage, Storage::Inline(ArrayString::new())) {
            Storage::Inline(short) => String::from_str(alloc, short.as_str()),
            Storage::Heap { text, zeros: _ } => Ok(text),
        }
    }
}

impl<const LIMIT: usize> PartialEq for ShortText<LIMIT> {
    ghost eq = { pointwise nat_eq };

    ghost laws = { partial_equiv_from_equiv nat_list_eq_equiv };

    fn eq(&self, other: &Self) -> bool {
        self.as_str() == other.as_str()
    }
}

impl<const LIMIT: usize> Eq for ShortText<LIMIT> {
    ghost laws = { nat_list_eq_equiv };
}

impl<const LIMIT: usize> PartialOrd for ShortText<LIMIT> {
    ghost partial_cmp = { λ a b. Some (slice_cmp nat_cmp a b) };

    ghost laws = { texts_po };

    fn partial_cmp(&self, other: &Self) -> Option<Ordering> {
        Some(self.cmp(other))
    }
}

impl<const LIMIT: usize> Ord for ShortText<LIMIT> {
    ghost cmp = { slice_cmp nat_cmp };

    ghost total = { nat_list_cmp_total };

    ghost matches_partial_cmp = { λ a b. refl };

    ghost matches_eq = { texts_ties };

    fn cmp(&self, other: &Self) -> Ordering {
        self.as_str().cmp(other.as_str())
    }
}

impl<const LIMIT: usize> Hash for ShortText<LIMIT> {
    ghost hash_input = { fed.str };

    ghost respects_eq = { Prim.search (hashing, rules) };

    fn hash<H: Hasher>(&self, state: &mut H) {
        self.as_str().hash(state);
    }
}

impl<const LIMIT: usize> fmt::Display for ShortText<LIMIT> {
    ghost output = { λ s. Some s };

    fn fmt<W: fmt::Write>(&self, f: &mut fmt::Formatter<W>) -> fmt::Result {
        f.write_str(self.as_str())
    }
}

impl<const LIMIT: usize> fmt::Debug for ShortText<LIMIT> {
    fn fmt<W: fmt::Write>(&self, f: &mut fmt::Formatter<W>) -> fmt::Result {
        fmt::Debug::fmt(self.as_str(), f)
    }
}

impl<const LIMIT: usize> StringType for ShortText<LIMIT> {
    ghost text = { λ s. s };

    #[inline(always)]
    fn with_capacity(alloc: Global, capacity: usize) -> Result<Self, AllocError> {
        ShortText::with_capacity(alloc, capacity)
    }

    fn push(&mut self, character: char) -> Result<(), AllocError> {
        ShortText::push(self, character)
    }

    fn push_str(&mut self, other: &str) -> Result<(), AllocError> {
        ShortText::push_str(self, other)
    }

    fn as_str(&self) -> &str {
        ShortText::as_str(self)
    }
}

impl<const LIMIT: usize> StringAppendable for ShortText<LIMIT> {
    ghost text = { λ s. s };

    fn append_to<T: StringType>(&self, _alloc: Global, target: &mut T) -> Result<(), AllocError> {
        target.push_str(self.as_str())
    }

    ghost displays = { λ s. refl };
}

impl<const LIMIT: usize> CowItem for ShortText<LIMIT> {
    fn copy(&self) -> Result<Self, AllocError> {
        ShortText::copy(self)
    }
}

/// A growable text. It is what was pushed, in order; a push that fails changes nothing.
pub trait StringType: Drop {
    /// The bytes of the text.
    ghost text: { Self → List ℕ };

    /// Creates an empty text with room for `capacity` bytes. Fails only out of memory.
    #[inline(always)]
    fn with_capacity(alloc: Global, capacity: usize) -> Result<Self, AllocError>
        ensures { IfOk result (λ s. text s ≡ []) };

    /// Appends a character. On failure the text is unchanged.
    fn push(&mut self, character: char) -> Result<(), AllocError>
        ensures ok { OnOk result (text self.new ≡ text self.old ++ encode_utf8 character) }
        ensures err { OnErr result (text self.new ≡ text self.old) };

    /// Appends a text. On failure this one is unchanged.
    fn push_str(&mut self, other: &str) -> Result<(), AllocError>
        ensures ok { OnOk result (text self.new ≡ text self.old ++ other.now) }
        ensures err { OnErr result (text self.new ≡ text self.old) };

    /// The text as a string slice.
    fn as_str(&self) -> &str
        ensures { result.now ≡ text self.now };
}

impl StringType for String {
    ghost text = { string_bytes };

    #[inline(always)]
    fn with_capacity(alloc: Global, capacity: usize) -> Result<Self, AllocError> {
        String::with_capacity(alloc, capacity)
    }

    fn push(&mut self, character: char) -> Result<(), AllocError> {
        String::push(self, character)
    }

    fn push_str(&mut self, other: &str) -> Result<(), AllocError> {
        String::push_str(self, other)
    }

    fn as_str(&self) -> &str {
        String::as_str(self)
    }
}

/// A value that is displayed as a text, which can be appended to another.
pub trait StringAppendable: fmt::Display {
    /// The bytes of the value's text.
    ghost text: { Self → List ℕ };

    /// Appends exactly the value's text. On failure the target is unchanged.
    fn append_to<T: StringType>(&self, alloc: Global, target: &mut T) -> Result<(), AllocError>
        ensures ok { OnOk result (T.text target.new ≡ T.text target.old ++ text self.now) }
        ensures err { OnErr result (T.text target.new ≡ T.text target.old) }
    {
        let text = displayed(alloc, self)?;
        target.push_str(text.as_str())
    }

    /// The value is displayed as its text.
    ghost displays: { (x : Self) → Self.output x ≡ Some (text x) };
}

// The initial capacity, enough for most texts of requirements and packages.
const ROOM: usize = 32;

/// Formats the value into a `String`, allocated up front and grown only if that is too small. Fails only out of memory.
pub fn displayed<D: fmt::Display>(alloc: Global, value: &D) -> Result<String, AllocError>
    ensures { IfOk result (λ s. IfSome (D.output value.now) (λ text. string_bytes s ≡ text)) }
{
    let mut text = String::with_capacity(alloc, ROOM)?;
    text.write(value)?;
    Ok(text)
}
