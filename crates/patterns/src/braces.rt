//! Braces in patterns, such as `{a,b}` and `{1..3}`.

use std::alloc::{AllocError, Global};

// A pattern that stands for more isn't read.
const MANY: usize = 1000;

// An opening brace.
#[derive(Clone, Copy)]
struct Open {
    start: usize,
    /// Whether a comma stands directly in it.
    has_comma: bool,
}

// A pair of braces that stands for several texts: the places of both.
#[derive(Clone, Copy)]
struct Braces {
    start: usize,
    end: usize,
}

// The first number, the last, how far one is from the next, and the width to which they are filled with zeros; of letters their codes.
#[derive(Clone, Copy)]
struct Sequence {
    first: i64,
    last: i64,
    step: i64,
    width: usize,
    is_letters: bool,
}

fn part(text: &str, start: usize, end: usize) -> &str {
    text.get(start..end).unwrap_or("")
}

// The letter that a text is.
fn letter(text: &str) -> Option<i64> {
    match text.as_bytes() {
        [letter] if letter.is_ascii_alphabetic() => Some(i64::from(*letter)),
        _ => None,
    }
}

fn number(text: &str) -> Option<i64> {
    match i32::from_str_radix(text, 10) {
        Ok(number) if !text.starts_with('+') => Some(i64::from(number)),
        _ => None,
    }
}

fn is_padded(text: &str) -> bool {
    let digits = text.strip_prefix('-').unwrap_or(text);
    digits.len() > 1 && digits.starts_with('0')
}

// The sequence that stands between braces.
fn sequence_of(body: &str) -> Option<Sequence> {
    let (first, rest) = body.split_once("..")?;
    let (last, step) = match rest.split_once("..") {
        Some((last, step)) => (last, number(step)?),
        None => (rest, 1),
    };
    let step = step.saturating_abs().max(1);
    if let (Some(first), Some(last)) = (letter(first), letter(last)) {
        return Some(Sequence {
            first,
            last,
            step,
            width: 0,
            is_letters: true,
        });
    }
    let width = if is_padded(first) || is_padded(last) {
        first.len().max(last.len())
    } else {
        0
    };
    Some(Sequence {
        first: number(first)?,
        last: number(last)?,
        step,
        width,
        is_letters: false,
    })
}

// The first braces of a pattern that stand for several texts.
fn first_braces(alloc: Global, pattern: &str) -> Result<Option<Braces>, AllocError> {
    let mut open: Vec<Open> = Vec::new(alloc);
    let mut first: Option<Braces> = None;
    let mut before = ' ';
    for (index, c) in pattern.char_indices() {
        let is_escaped = before == '\\';
        match c {
            _ if is_escaped => (),
            '{' if before != '$' => open.push(Open {
                start: index,
                has_comma: false,
            })?,
            ',' => {
                if let Some(last) = open.last_mut() {
                    last.has_comma = true;
                }
            }
            '}' => {
                if let Some(Open { start, has_comma }) = open.pop() {
                    let body = part(pattern, start.saturating_add(1), index);
                    let is_first = first.is_none_or(|first| start < first.start);
                    if is_first && (has_comma || sequence_of(body).is_some()) {
                        first = Some(Braces { start, end: index });
                    }
                }
            }
            _ => (),
        }
        before = if is_escaped { ' ' } else { c };
    }
    Ok(first)
}

// The texts between commas, but for commas in further braces.
fn alternatives(alloc: Global, body: &str) -> Result<Vec<String>, AllocError> {
    let mut all = Vec::new(alloc);
    let (mut start, mut depth) = (0usize, 0usize);
    let mut is_escaped = false;
    for (index, c) in body.char_indices() {
        match c {
            _ if is_escaped => (),
            '{' => depth = depth.saturating_add(1),
            '}' => depth = depth.saturating_sub(1),
            ',' if depth == 0 => {
                all.push(String::from_str(alloc, part(body, start, index))?)?;
                start = index.saturating_add(1);
            }
            _ => (),
        }
        is_escaped = c == '\\' && !is_escaped;
    }
    all.push(String::from_str(alloc, part(body, start, body.len()))?)?;
    Ok(all)
}

// An item of a sequence.
fn item(alloc: Global, sequence: &Sequence, at: i64) -> Result<String, AllocError> {
    let width = sequence.width;
    if !sequence.is_letters {
        return format!(in alloc; "{at:00$}", width);
    }
    let mut text = String::new(alloc);
    if let Ok(code) = u8::try_from(at)
        && code != b'\\'
    {
        text.push(code as char)?;
    }
    Ok(text)
}

// The items of a sequence; none if there are too many.
fn items(alloc: Global, sequence: &Sequence) -> Result<Option<Vec<String>>, AllocError> {
    let mut all = Vec::new(alloc);
    let step = if sequence.first > sequence.last {
        sequence.step.saturating_neg()
    } else {
        sequence.step
    };
    let mut at = sequence.first;
    for _ in 0..MANY {
        let is_behind = if step < 0 {
            at < sequence.last
        } else {
            at > sequence.last
        };
        if is_behind {
            return Ok(Some(all));
        }
        all.push(item(alloc, sequence, at)?)?;
        at = at.saturating_add(step);
    }
    Ok(None)
}

/// The patterns without braces that a pattern stands for; none if there are more than a thousand.
pub fn expanded(alloc: Global, pattern: &str) -> Result<Option<Vec<String>>, AllocError> {
    let mut done = Vec::new(alloc);
    let mut waiting = vec![in alloc; String::from_str(alloc, pattern)?]?;
    for _ in 0..u64::MAX {
        let Some(pattern) = waiting.pop() else {
            return Ok(Some(done));
        };
        let Some(Braces { start, end }) = first_braces(alloc, pattern.as_str())? else {
            done.push(pattern)?;
            continue;
        };
        let text = pattern.as_str();
        let body = part(text, start.saturating_add(1), end);
        let parts = match sequence_of(body) {
            Some(sequence) => items(alloc, &sequence)?,
            None => Some(alternatives(alloc, body)?),
        };
        let Some(parts) = parts else {
            return Ok(None);
        };
        if done
            .len()
            .saturating_add(waiting.len())
            .saturating_add(parts.len())
            > MANY
        {
            return Ok(None);
        }
        let (front, behind) = (
            part(text, 0, start),
            part(text, end.saturating_add(1), text.len()),
        );
        for part in parts.iter() {
            waiting.push(format!(in alloc; "{front}{part}{behind}")?)?;
        }
    }
    Ok(None)
}
