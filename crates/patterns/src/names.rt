//! Patterns of one name, as git reads them, or npm.

/// Who reads a pattern.
#[derive(Clone, Copy, PartialEq, Eq)]
pub enum Reader {
    /// It compares bytes, and wildcards match names that begin with a dot.
    Git,
    /// It compares characters, and wildcards don't.
    Npm,
}

impl Reader {
    // The first byte of a text or, for npm, its first character, and what follows. The bytes of a character are a number, of which a higher
    // one is a later character. Four bytes are two characters to JavaScript.
    fn first(self, text: &[u8]) -> Option<(u32, &[u8])> {
        let length = match (self, text) {
            (_, []) => return None,
            (Reader::Npm, [0xe0..=0xef, ..]) => 3,
            (Reader::Npm, [0x80..=0xff, ..]) => 2,
            (_, _) => 1,
        };
        let (front, behind) = text.split_at_checked(length)?;
        let mut first = 0u32;
        for byte in front {
            first = first.wrapping_mul(256).wrapping_add(u32::from(*byte));
        }
        Some((first, behind))
    }
}

// Whether a character is in the class with this name; none if there is no such class.
fn in_class(name: &[u8], c: u32) -> Option<bool> {
    // No class has the last byte.
    let byte = u8::try_from(c).unwrap_or(u8::MAX);
    Some(match name {
        b"alnum" => byte.is_ascii_alphanumeric(),
        b"alpha" => byte.is_ascii_alphabetic(),
        b"blank" => matches!(byte, b' ' | b'\t'),
        b"cntrl" => byte.is_ascii_control(),
        b"digit" => byte.is_ascii_digit(),
        b"graph" => byte.is_ascii_graphic(),
        b"lower" => byte.is_ascii_lowercase(),
        b"print" => byte == b' ' || byte.is_ascii_graphic(),
        b"punct" => byte.is_ascii_punctuation(),
        b"space" => matches!(byte, b' ' | b'\t'..=b'\r'),
        b"upper" => byte.is_ascii_uppercase(),
        b"xdigit" => byte.is_ascii_hexdigit(),
        _ => return None,
    })
}

// The name of a class, such as `alpha` of `alpha:]`, and what follows it; none if the brackets of the set close before.
fn class_name(text: &[u8]) -> Option<(&[u8], &[u8])> {
    let end = text.iter().position(|byte| *byte == b']')?;
    let name = text.get(..end)?.strip_suffix(b":".as_slice())?;
    Some((name, text.get(end.saturating_add(1)..)?))
}

// The first character of a text, or the one behind a `\`, and what follows.
fn unescaped(text: &[u8], reader: Reader) -> Option<(u32, &[u8])> {
    match text {
        [b'\\', rest @ ..] if !rest.is_empty() => reader.first(rest),
        text => reader.first(text),
    }
}

// What a member of a set, such as `a-z`, `[:alpha:]` or `_`, says of a character, and the members behind it; none if a class has no such
// name.
fn take_member(members: &[u8], c: u32, reader: Reader) -> Option<(bool, &[u8])> {
    if let [b'[', b':', rest @ ..] = members
        && let Some((name, behind)) = class_name(rest)
    {
        return Some((in_class(name, c)?, behind));
    }
    let (first, rest) = unescaped(members, reader)?;
    let (last, behind) = match rest {
        [b'-', b']', ..] | [b'-'] => (first, rest),
        [b'-', end @ ..] => unescaped(end, reader)?,
        _ => (first, rest),
    };
    // Of `b-a`, too, git takes the first.
    let has = first == c || first <= c && c <= last;
    Some((has, behind))
}

// Whether a set such as `a-z_]` or `!a]`, in which `]` stands behind the last member, has a character, and what follows it; none if it
// doesn't end, or has a class that isn't one.
fn in_set(set: &[u8], c: u32, reader: Reader) -> Option<(bool, &[u8])> {
    let (is_without, mut left) = match set {
        [b'!' | b'^', members @ ..] => (true, members),
        members => (false, members),
    };
    let mut has = false;
    for place in 0..set.len() {
        // At the front `]` is a member.
        if place > 0
            && let [b']', behind @ ..] = left
        {
            return Some((has != is_without, behind));
        }
        let (is_member, behind) = take_member(left, c, reader)?;
        has |= is_member;
        left = behind;
    }
    None
}

// What follows in a pattern, if what it begins with takes this character: itself, `?`, a set in brackets, or a character behind `\`.
fn behind_one(pattern: &[u8], c: u32, reader: Reader) -> Option<&[u8]> {
    let (own, rest) = match pattern {
        [b'?', rest @ ..] => return Some(rest),
        [b'[', set @ ..] => {
            return match in_set(set, c, reader) {
                Some((true, rest)) => Some(rest),
                _ => None,
            };
        }
        pattern => unescaped(pattern, reader)?,
    };
    if own == c { Some(rest) } else { None }
}

/// Whether a name matches a pattern, in which `*` stands for any text.
pub fn matches_name(pattern: &str, name: &str, reader: Reader) -> bool {
    let (mut pattern, mut name) = (pattern.as_bytes(), name.as_bytes());
    // Where the pattern goes on behind the last `*`, and what it could have taken of the name.
    let mut again = None;
    for _ in 0..u64::MAX {
        if let [b'*', behind @ ..] = pattern {
            pattern = behind;
            again = Some((behind, name));
            continue;
        }
        let taken = match reader.first(name) {
            None if pattern.is_empty() => return true,
            None => None,
            Some((c, rest)) => match behind_one(pattern, c, reader) {
                Some(behind) => Some((behind, rest)),
                None => None,
            },
        };
        if let Some((behind, rest)) = taken {
            pattern = behind;
            name = rest;
            continue;
        }
        let Some((behind, left)) = again else {
            return false;
        };
        let Some((_, rest)) = reader.first(left) else {
            return false;
        };
        pattern = behind;
        name = rest;
        again = Some((behind, rest));
    }
    false
}
