//! What the value of an argument may be.

use clap::builder::ValueParser;

/// What the value of an argument may be. The parser tests numbers and words out of a set, and says itself what is wrong
/// with one; of the other kinds `complaint` says it.
#[derive(Clone, Copy)]
pub(crate) enum ArgumentKind<'r> {
    /// No value: the argument is there, or it isn't.
    Flag,
    /// Any text, as a path or a name.
    Text,
    /// A number of 32 bits, from the first one to the second.
    Number(u32, u32),
    /// A number of 64 bits, from the first one to the second.
    Long(u64, u64),
    /// One of these words.
    Word(&'r [&'r str]),
    /// Lines of a record, with commas between.
    Spans,
    /// Threads, with commas between.
    Threads,
    /// Addresses, or names of data, with commas between.
    Addresses,
    /// A moment of a record's run.
    Moment,
    /// Bytes of which the last write is told.
    Written,
    /// Bytes that are shown of a moment.
    Bytes,
    /// A file whose bytes are laid over a memory.
    MemoryFile,
    /// A strategy of a search.
    Way,
    /// Words of the line of a thread.
    Words,
    /// A result of thread 0.
    Outcome,
}

impl<'r> ArgumentKind<'r> {
    /// How the parser tests it.
    pub(crate) fn parser(self) -> ValueParser<'r> {
        match self {
            ArgumentKind::Flag => ValueParser::Bool,
            ArgumentKind::Number(least, most) => ValueParser::Signed(
                i64::from(least),
                i64::from(most),
            ),
            ArgumentKind::Long(least, most) => ValueParser::Unsigned(least, most),
            ArgumentKind::Word(words) => ValueParser::Names(words),
            _ => ValueParser::String,
        }
    }

    /// Whether it is several values, with commas between, or each behind its name.
    pub(crate) fn is_list(self) -> bool {
        matches!(
            self,
            ArgumentKind::Spans | ArgumentKind::Threads | ArgumentKind::Addresses
        )
    }

    /// What is said of a text that is no value of this kind.
    pub(crate) fn complaint(self, text: &str) -> &'r str {
        match self {
            ArgumentKind::Flag
            | ArgumentKind::Text
            | ArgumentKind::Number(_, _)
            | ArgumentKind::Long(_, _)
            | ArgumentKind::Word(_) => { UNREAD }
            ArgumentKind::Spans => {
                "each is a number, two with the lower one first, or the first one and a dash"
            }
            ArgumentKind::Threads => "a thread is a number from 0 to 63, alone or behind a t",
            ArgumentKind::Addresses => {
                "each is an address, two with the lower one first, or a name of data; an address is decimal digits, or \
                hexadecimal ones behind 0x"
            }
            ArgumentKind::Moment =>
                "it is a line of the record, 1 to 2000000, or the word end or trap",
            ArgumentKind::Written => {
                "it is an address, one with a number of bytes from 1 to 4096, or a name of data; an address is decimal \
                digits, or hexadecimal ones behind 0x"
            }
            ArgumentKind::Bytes => "it is an address and a number of bytes up to 4096",
            ArgumentKind::MemoryFile => {
                "ADDR is a number below 4294967296, in decimal digits or behind 0x"
            }
            ArgumentKind::Way => "it is mix, random, spin, or pct:D with a D of 1 to 32",
            ArgumentKind::Words if text.is_empty() => "each line of a thread has no words at all",
            ArgumentKind::Words => FINDS_NOTHING,
            ArgumentKind::Outcome => EXPECTS_NONE,
        }
    }
}

/// What is said of words of which the parser or nobody says what is wrong.
pub(crate) const UNREAD: &str = "the command line can't be read";

/// What is said of words that no line has.
const FINDS_NOTHING: &str =
    "no line of a thread can have these words. A line is `thread T: ` and one of\n\
    \x20 ok, ok i32:V, ok i64:V\n\
    \x20 trap and unreachable, divide by zero, integer overflow, out of bounds, unaligned atomic, not shared,\n\
    \x20      undefined element, uninitialized element, signature mismatch or stack exhausted\n\
    \x20 stop and out of fuel, asleep for good or record full\n\
    With --all it is also a part of `from which no run ends` or of `a fair run can go on for ever`";

/// What is said of a result that is none.
const EXPECTS_NONE: &str = "it is the whole result of thread 0, as its line has it:\n\
    \x20 ok, i32:V, i64:V\n\
    \x20 trap and unreachable, divide by zero, integer overflow, out of bounds, unaligned atomic, not shared,\n\
    \x20      undefined element, uninitialized element, signature mismatch or stack exhausted\n\
    \x20 stop and out of fuel, asleep for good or record full";
