//! Numbers with dots between them, parsed in one pass over their bytes.
//!
//! Most versions and most requirements begin with them. Each parser tries this fast path first. What it returns is what the
//! grammar says; on `None` the parser falls back to the full grammar.

ghost use Rattle.std.specs.Prelude.{IfNone, IfSome};
ghost use Rattle.semver_base.specs.ShortTexts.{AreAll, AreShort, IsBareNumber, IsDottedNumber, IsShort, IsShortFront, IsTripleFront, LacksDottedNumber, LacksShortNumber, LacksShortTriple};

// A number below this, times ten plus a digit, is a `u64`.
const LIMIT: u64 = 1_000_000_000_000_000_000;

/// Three numbers.
#[derive(Clone, Copy)]
pub struct Numbers {
    pub major: u64,
    pub minor: u64,
    pub patch: u64,
}

/// One to three numbers: `M`, `M.m` or `M.m.p`.
#[derive(Clone, Copy)]
pub enum ShortNumbers {
    One(u64),
    Two(u64, u64),
    Three(Numbers),
}

// Parses a leading number of at most 19 digits without leading zeros, and returns it with the rest.
#[inline(always)]
fn number(bytes: &[u8]) -> Option<(u64, &[u8])>
    ensures number { IfSome result (λ r. IsBareNumber bytes.now r.0 r.1.now) }
    ensures short { IfSome result (λ r. IsShort r.0) }
    ensures none { IfNone result (LacksShortNumber bytes.now) }
{
    let mut number: u64 = 0;
    let mut len: usize = 0;
    while len < bytes.len() && bytes[len].is_ascii_digit() {
        if number >= LIMIT {
            return None;
        }
        number = number * 10 + u64::from(bytes[len] - b'0');
        len += 1;
    }
    if len == 0 || (bytes[0] == b'0' && len != 1) {
        return None;
    }
    Some((number, &bytes[len..]))
}

// Parses a leading `.` and such a number, and returns it with the rest.
#[inline(always)]
fn dotted_number(bytes: &[u8]) -> Option<(u64, &[u8])>
    ensures number { IfSome result (λ r. IsDottedNumber bytes.now r.0 r.1.now) }
    ensures short { IfSome result (λ r. IsShort r.0) }
    ensures none { IfNone result (LacksDottedNumber bytes.now) }
{
    match bytes {
        [b'.', rest @ ..] => number(rest),
        _ => None,
    }
}

/// Parses one to three leading numbers, as many as there are, and returns them with the rest; `None` exactly if the text doesn't begin
/// with a number of at most 19 digits.
#[inline(always)]
pub fn leading_numbers(text: &[u8]) -> Option<(ShortNumbers, &[u8])>
    ensures numbers { IfSome result (λ r. IsShortFront text.now r.0 r.1.now) }
    ensures short { IfSome result (λ r. AreShort r.0) }
    ensures all { IfSome result (λ r. AreAll r.0 r.1.now) }
    ensures none { IfNone result (LacksShortNumber text.now) }
{
    let (major, rest) = number(text)?;
    let Some((minor, after_minor)) = dotted_number(rest) else {
        return Some((ShortNumbers::One(major), rest));
    };
    let Some((patch, after_patch)) = dotted_number(after_minor) else {
        return Some((ShortNumbers::Two(major, minor), after_minor));
    };
    let numbers = Numbers {
        major,
        minor,
        patch,
    };
    Some((ShortNumbers::Three(numbers), after_patch))
}

/// Parses three leading numbers, and returns them with the rest of the text; `None` exactly if it doesn't begin with three numbers of at
/// most 19 digits each.
#[inline(always)]
pub fn split_numbers(text: &str) -> Option<(Numbers, &str)>
    ensures numbers { IfSome result
        (λ r. IsTripleFront text.now r.0.major r.0.minor r.0.patch r.1.now) }
    ensures none { IfNone result (LacksShortTriple text.now) }
{
    let (numbers, rest) = leading_numbers(text.as_bytes())?;
    match numbers {
        ShortNumbers::One(_) => None,
        ShortNumbers::Two(_, _) => None,
        ShortNumbers::Three(numbers) => {
            let (_, rest) = text.split_at(text.len() - rest.len());
            Some((numbers, rest))
        }
    }
}
