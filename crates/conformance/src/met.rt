//! Whether an answer is the expected one.

ghost use Rattle.std.specs.Prelude.{◌≡◌, ◌↔◌, IsTrue, map};
ghost use Rattle.conformance.specs.RowAnswer.{IsMet, rejected_item, item_text};

use crate::answer::Item;

// Whether the item is `rejected`.
fn is_rejected_item(item: &Item) -> bool
    ensures { IsTrue result ↔ (item_text item.now ≡ rejected_item) }
{
    match item {
        Some(text) => text.as_str() == "rejected",
        None => false,
    }
}

/// Whether an answer is the one that a row expects. A row that expects `rejected` alone accepts any rejection.
pub fn is_met(expected: &[Item], answer: &[Item]) -> bool
    ensures { IsTrue result ↔ IsMet (map item_text expected.now) (map item_text answer.now) }
{
    if expected == answer {
        return true;
    }
    match (expected, answer) {
        ([item], [first, ..]) => is_rejected_item(item) && is_rejected_item(first),
        _ => false,
    }
}
