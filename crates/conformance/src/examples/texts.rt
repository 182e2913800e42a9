//! Building and growing texts, and copying and growing lists.

use crate::answer::{Answer, Reported};
use deno_semver::{CowVec, SmallStackString, StackString, StringType};
use std::alloc::{AllocError, Global};
use std::borrow::CowStr;

// Texts that are stored in the value, and beside it.
const TEXTS: [&str; 2] = ["ééééééééééé", "éééééééééééé"];

/// A text made in each way: taken over, copied and compared to the copy, or converted.
pub fn made(answer: &mut Answer) -> Reported {
    let alloc = answer.alloc;
    answer.made(SmallStackString::from_static(alloc, "latest"))?;
    for text in &TEXTS {
        let owned = String::from_str(alloc, text)?;
        answer.made(StackString::from_string(alloc, owned))?;
        let owned = CowStr::Owned(String::from_str(alloc, text)?);
        answer.made(StackString::from_cow(alloc, owned))?;
        answer.made(StackString::from_cow(alloc, CowStr::Borrowed(text)))?;
        let copied = StackString::from_str(alloc, text)?;
        let copy = copied.copy()?;
        answer.yes_or_no(copy.eq_str(text))?;
        answer.order(copied.cmp(&copy))?;
        drop(copy);
        answer.made(copied.to_string(alloc))?;
        answer.made(copied.into_string(alloc))?;
    }
    Ok(())
}

// The start with the text pushed to it by character.
fn pushed<T: StringType>(alloc: Global, start: &str, text: &str) -> Result<T, AllocError> {
    let mut pushed = T::with_capacity(alloc, start.len())?;
    pushed.push_str(start)?;
    for character in text.chars() {
        pushed.push(character)?;
    }
    Ok(pushed)
}

/// Texts that grow beyond what is stored in the value, and one in which texts are replaced.
pub fn grown(answer: &mut Answer) -> Reported {
    let alloc = answer.alloc;
    answer.made(pushed::<SmallStackString>(alloc, "aaaaaaaaaaaaaa", "é"))?;
    answer.made(pushed::<StackString>(alloc, "abcdefghijklmnopqrstuv", "wx"))?;
    answer.made(pushed::<String>(alloc, "1", "é²"))?;
    let replaced = SmallStackString::from_str(alloc, "abcdefghijklmnopqrstuvwxyzabcdefghijklmn")?;
    answer.made(replaced.replace(alloc, "a", "0123456789"))?;
    answer.made(replaced.replace(alloc, "abc", ""))?;
    let short = SmallStackString::from_str(alloc, "1é")?;
    answer.made(short.replace(alloc, "", "-"))?;
    answer.made(short.replace(alloc, "1", ""))?;
    answer.made(SmallStackString::new(alloc).replace(alloc, "", "-"))
}

/// Texts that fit into the value, for which they take no memory.
pub fn in_value(answer: &mut Answer) -> Reported {
    let small = pushed::<SmallStackString>(answer.alloc, "1234567890", "12345")?;
    answer.text(small.copy()?.as_str())?;
    let text = pushed::<StackString>(answer.alloc, "éééééé", "ééééé")?;
    answer.text(text.copy()?.as_str())
}

fn many(alloc: Global, count: usize) -> Result<CowVec<SmallStackString>, AllocError> {
    let mut items = CowVec::new(alloc);
    for _ in 0..count {
        items.push(SmallStackString::from_str(alloc, "item")?)?;
    }
    Ok(items)
}

// Reports the length of a list, and its last item.
fn report_list(items: &CowVec<SmallStackString>, answer: &mut Answer) -> Reported {
    answer.displayed(&items.len())?;
    match items.get(items.len().saturating_sub(1)) {
        Some(item) => answer.text(item.as_str()),
        None => answer.optional(None),
    }
}

/// Whether copies of lists, which share their items, succeed without memory; a list to whose copy an item was pushed, and that
/// copy.
pub fn lists(answer: &mut Answer) -> Reported {
    for count in [1, 2] {
        let items = many(answer.alloc, count)?;
        answer.yes_or_no(items.copy().is_ok())?;
    }
    let items = many(answer.alloc, 1_000)?;
    let Ok(mut longer) = items.copy() else {
        return answer.text("no");
    };
    longer.push(SmallStackString::from_str(answer.alloc, "last")?)?;
    report_list(&items, answer)?;
    report_list(&longer, answer)
}
