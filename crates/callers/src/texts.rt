//! What does pushing one text after another write?

ghost use Rattle.std.specs.Prelude.{◌≡◌, ◌++◌, ◌∷◌, IfOk};
ghost use Rattle.semver_base.specs.Characters.{at_sign};

use deno_semver::{StringAppendable, StringType};
use std::alloc::{AllocError, Global};

/// What is `name@text`, with the text of any value, in any kind of text? The three parts, in order.
///
/// Fails only out of memory.
pub fn named<T: StringType, A: StringAppendable>(
    alloc: Global,
    name: &str,
    value: &A,
) -> Result<T, AllocError>
    ensures { IfOk result (λ text. T.text text ≡ name.now ++ (at_sign ∷ A.text value.now)) }
{
    let mut text = T::with_capacity(alloc, 0)?;
    text.push_str(name)?;
    text.push('@')?;
    value.append_to(alloc, &mut text)?;
    Ok(text)
}
