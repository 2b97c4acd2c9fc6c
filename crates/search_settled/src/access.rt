//! What an event does with the memory.

/// What the next turn of a thread does with the memory: a turn of its own touches nothing, nor does what is out of
/// bounds, or asks for the page count or of the desk; an access touches its bytes, which are none where `width` is 0.
#[derive(Clone, Copy, PartialEq, Eq, PartialOrd, Ord, Hash, Debug)]
pub struct NextAccess {
    /// Whether nobody else can tell when it is made: it is a turn of its own, or an access within bounds that isn't
    /// atomic.
    pub plain: bool,
    /// Whether what it does depends on what is there.
    pub reads: bool,
    /// Whether it writes, or may write.
    pub writes: bool,
    /// Whether it writes hangs on what it finds.
    pub is_conditional: bool,
    /// Whether it is a wait with a timeout.
    pub is_timed: bool,
    /// Whether it may meet another one of which that is so, where neither is plain: all its bytes are such as may race,
    /// or it is atomic and the bytes of two atomic accesses may differ.
    pub is_allowed: bool,
    pub addr: u64,
    pub width: u64,
}
