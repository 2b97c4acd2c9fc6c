//! What is said of an entry (DWARF 5, section 7.5.4).

/// What is said of an entry, by its code.
#[derive(Clone, Copy)]
pub enum Attribute {
    Location = 0x02,
    Name = 0x03,
    ByteSize = 0x0b,
    BitOffset = 0x0c,
    BitSize = 0x0d,
    /// Where the unit's lines stand in `.debug_line`.
    StmtList = 0x10,
    /// Where the code begins.
    LowPc = 0x11,
    /// Where the code ends, or how long it is.
    HighPc = 0x12,
    UpperBound = 0x2f,
    /// The entry of which this one is an instance.
    AbstractOrigin = 0x31,
    Count = 0x37,
    DataMemberLocation = 0x38,
    Encoding = 0x3e,
    FrameBase = 0x40,
    /// The declaration of which this entry is the definition.
    Specification = 0x47,
    Type = 0x49,
    Ranges = 0x55,
    CallFile = 0x58,
    CallLine = 0x59,
    DataBitOffset = 0x6b,
    StrOffsetsBase = 0x72,
    AddrBase = 0x73,
    RnglistsBase = 0x74,
    LoclistsBase = 0x8c,
}
