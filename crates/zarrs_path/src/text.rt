ghost use Rattle.std.specs.Prelude.{◌≡◌, ◌++◌, IfOk, string_bytes};

use std::alloc::{AllocError, Global};

// Three texts one after another, in one allocation.
pub(crate) fn joined(
    alloc: Global,
    front: &str,
    middle: &str,
    back: &str,
) -> Result<String, AllocError>
    ensures { IfOk result (λ text. string_bytes text ≡ front.now ++ (middle.now ++ back.now)) }
{
    let room = front
        .len()
        .saturating_add(middle.len())
        .saturating_add(back.len());
    let mut text = String::with_capacity(alloc, room)?;
    text.push_str(front)?;
    text.push_str(middle)?;
    text.push_str(back)?;
    Ok(text)
}
