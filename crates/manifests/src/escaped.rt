//! Strings of JSON and YAML as a file has them, with escapes.

use crate::quoted::meaning;

// How many bytes an escape takes, and how many it means. Of two that mean one character together, the second means all of it.
fn sizes(escape: &str) -> (usize, usize) {
    let count = match escape.chars().nth(1) {
        Some('x') => 2usize,
        Some('u') => 4,
        Some('U') => 8,
        Some(c) => return (c.len_utf8().saturating_add(1), meaning(c).len_utf8()),
        None => return (1, 1),
    };
    let takes = count.saturating_add(2);
    let means = match u32::from_str_radix(escape.get(2..takes).unwrap_or(""), 16) {
        Ok(0..=0x7f) => 1,
        Ok(0x80..=0x7ff) => 2,
        Ok(0xd800..=0xdbff) => 0,
        Ok(0xdc00..=0xdfff | 0x10000..=0x10ffff) => 4,
        _ => 3,
    };
    (takes, means)
}

/// Where the byte with this index of what a string means is written in the string. In single quotes one of them is written twice, and nothing
/// else is an escape.
pub fn written_index(string: &str, is_single: bool, index: usize) -> usize {
    let (mut at, mut meant) = (0usize, 0usize);
    for _ in 0..string.len() {
        let rest = string.get(at..).unwrap_or("");
        let (takes, means) = match rest.chars().next() {
            Some('\'') if is_single => (2, 1),
            Some('\\') if !is_single => sizes(rest),
            Some(c) => (c.len_utf8(), c.len_utf8()),
            None => break,
        };
        if meant >= index {
            break;
        }
        at = at.saturating_add(takes);
        meant = meant.saturating_add(means);
    }
    at.min(string.len())
}
