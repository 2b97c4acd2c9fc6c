//! Names as they are shown.

ghost use Rattle.std.specs.Prelude.{◌≡◌, IfOk, string_bytes};
ghost use Rattle.show_places.specs.Short as specified;

use std::alloc::{AllocError, Global};

/// How many bytes a name has at most that is shown whole.
pub const MOST_NAME: usize = 256;

/// How many bytes of a longer one are shown at most.
pub const SHOWN_FRONT: usize = 224;

/// As many of a text's first characters as there are in so many bytes.
fn front_of(text: &str, most: usize) -> &str
    ensures { result.now ≡ specified.front_of text.now most }
{
    if text.len() <= most {
        return text;
    }
    &text[..text.floor_char_boundary(most)]
}

/// A name as it is shown: one of more than `MOST_NAME` bytes by its front, and how long it is, as `aaa.. (1000000 bytes)`.
///
/// # Errors
/// Where memory is refused.
pub fn short_name(alloc: Global, name: &str) -> Result<String, AllocError>
    ensures { IfOk result (λ short. string_bytes short ≡ specified.short_name name.now) }
{
    if name.len() <= MOST_NAME {
        return String::from_str(alloc, name);
    }
    let (front, bytes) = (front_of(name, SHOWN_FRONT), name.len());
    format!(in alloc; "{front}.. ({bytes} bytes)")
}
