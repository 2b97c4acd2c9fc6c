//! Where the bytes of a reader end.

use crate::fault::Fault;

/// Where the bytes of a reader end, as an offset in the input, and what it is called that one more is needed:
/// `EndOfInput` of the whole input, `Size` of contents of stated size.
#[derive(Clone, Copy)]
pub struct Bounds {
    pub end: usize,
    pub missing: Fault,
}
