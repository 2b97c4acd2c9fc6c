//! Single exchanges of a data word.

/// What a single exchange makes of a word, whatever the word is. It answers the word found.
#[derive(Clone, Copy)]
pub enum Single {
    /// Another word in its place.
    Swap(u64),
    /// The sum of both, modulo 2^64.
    Add(u64),
    /// The bits that both have.
    And(u64),
    /// The bits that one of them has.
    Or(u64),
    /// The bits in which they differ.
    Xor(u64),
}
