//! Numbers, addresses and moments as the words of `show` spell them.
ghost use Rattle.std.specs.Prelude.{◌≡◌, ◌≤◌, ◌<◌, ℕ, List, IfOk, IfSome};
ghost use Rattle.std.specs.List.{AllZip};
ghost use Rattle.report_command.specs.declared.limits.TheConstants.{MOST_DUMP};
ghost use Rattle.report_command.specs.Addresses.{IsAddress, IsBytes, IsData, IsEndOf, IsMoment, IsSpan, IsSpanOf};
ghost use Rattle.report_command.specs.Addresses.{IsStretch, IsThread};
ghost use Rattle.report_command.specs.Found.{decimal_of};

use crate::limits::{MOST_DUMP, MOST_LINE};
use selection::NumberSpan;
use std::alloc::{AllocError, Global};
use types::MOST_THREADS;

/// Bytes of the memory.
#[derive(Clone, Copy, PartialEq, Eq, Debug)]
pub enum Data<'a> {
    /// Those at these addresses.
    At(NumberSpan),
    /// Those that words name, as `queue.head`, by the debug section of a module.
    Named(&'a str),
}

/// A moment of a record's run.
#[derive(Clone, Copy, PartialEq, Eq, Debug)]
pub enum When {
    /// Before the entry on this line of the record.
    Line(u64),
    /// Behind the last entry.
    End,
    /// Where the first thread that trapped leaves.
    Trap,
}

/// An address: an unsigned decimal, or a hexadecimal number behind `0x`.
pub(crate) fn addr_in(text: &str) -> Option<u64>
    ensures { IfSome result (IsAddress text.now) }
{
    match text.strip_prefix("0x") {
        Some(digits) => u64::from_str_radix(digits, 16).ok(),
        None => text.parse::<u64>().ok(),
    }
}

/// The end of a span: a number, or where none is given the highest.
fn end_of(text: &str) -> Option<u64>
    ensures { IfSome result (IsEndOf text.now) }
{
    if text.is_empty() {
        Some(u64::MAX)
    } else {
        addr_in(text)
    }
}

/// The span of a text `A`, `A-B` or `A-`, where A isn't above B.
fn span_in(text: &str) -> Option<NumberSpan>
    ensures { IfSome result (IsSpan text.now) }
{
    let Some((first, last)) = text.split_once('-') else {
        let first = addr_in(text)?;
        return Some(NumberSpan { first, last: first });
    };
    let (first, last) = (addr_in(first)?, end_of(last)?);
    if first <= last {
        Some(NumberSpan { first, last })
    } else {
        None
    }
}

/// The number that decimal digits write, behind a plus or none.
pub(crate) fn decimal_in(text: &str) -> Option<u32>
    ensures { IfSome result (λ n. n ≡ decimal_of text.now) }
{
    text.parse::<u32>().ok()
}

/// A number of bytes, as many as are shown at most.
fn count_in(text: &str) -> Option<u32>
    ensures range { IfSome result (λ count. count ≤ MOST_DUMP) }
    ensures spelled { IfSome result (λ count. count ≡ decimal_of text.now) }
{
    let count = decimal_in(text)?;
    if count <= MOST_DUMP {
        Some(count)
    } else {
        None
    }
}

/// An address and a number of bytes, of a text `A:N`.
fn bytes_in(text: &str) -> Option<(u64, u32)>
    ensures range { IfSome result (λ bytes. bytes.1 ≤ MOST_DUMP) }
    ensures spelled { IfSome result (λ bytes. IsBytes text.now bytes.0 bytes.1) }
{
    let (addr, count) = text.split_once(':')?;
    let addr = addr_in(addr)?;
    let count = count_in(count)?;
    Some((addr, count))
}

/// The addresses of so many bytes from one on, one at least.
fn span_of(first: u64, count: u32) -> Option<NumberSpan>
    ensures { IfSome result (IsSpanOf first count) }
{
    let more = count.checked_sub(1)?;
    let last = first.checked_add(u64::from(more))?;
    Some(NumberSpan { first, last })
}

/// The addresses of a text `A:N`, or of `A` alone, which is one byte.
fn stretch_in(text: &str) -> Option<NumberSpan>
    ensures { IfSome result (IsStretch text.now) }
{
    if !text.contains(':') {
        let first = addr_in(text)?;
        return Some(NumberSpan { first, last: first });
    }
    let (first, count) = bytes_in(text)?;
    span_of(first, count)
}

/// Whether a text begins as a name of C does, and no number.
fn is_name(text: &str) -> bool {
    text.bytes()
        .next()
        .is_some_and(|byte| byte.is_ascii_alphabetic() || byte == b'_')
}

/// A reader of values: a type without values, which says how a text is read.
pub(crate) trait ValueReader<'a> {
    type Value: Drop;

    /// Which value a text has.
    ghost reads: { List ℕ → Self.Value → Type 0 };

    fn read(text: &'a str) -> Option<Self::Value>
        ensures { IfSome result (reads text.now) };
}

/// Lines of a record.
pub(crate) struct SpanReader;

impl<'a> ValueReader<'a> for SpanReader {
    type Value = NumberSpan;

    ghost reads = { IsSpan };

    fn read(text: &'a str) -> Option<NumberSpan> {
        span_in(text)
    }
}

/// Threads: `T` or `tT`, of 0 to 63.
pub(crate) struct ThreadReader;

impl<'a> ValueReader<'a> for ThreadReader {
    type Value = u32;

    ghost reads = { IsThread };

    fn read(text: &'a str) -> Option<u32> {
        let thread = match text.strip_prefix('t') {
            Some(digits) => digits.parse::<u32>().ok()?,
            None => text.parse::<u32>().ok()?,
        };
        if (thread as usize) < MOST_THREADS {
            Some(thread)
        } else {
            None
        }
    }
}

/// Bytes of the memory, by their names or their first and last addresses.
pub(crate) struct DataReader;

impl<'a> ValueReader<'a> for DataReader {
    type Value = Data<'a>;

    ghost reads = { IsData IsSpan };

    fn read(text: &'a str) -> Option<Data<'a>> {
        if is_name(text) {
            return Some(Data::Named(text));
        }
        match span_in(text) {
            Some(span) => Some(Data::At(span)),
            None => None,
        }
    }
}

/// The same, by their names or by the first address and their number.
pub(crate) struct WrittenReader;

impl<'a> ValueReader<'a> for WrittenReader {
    type Value = Data<'a>;

    ghost reads = { IsData IsStretch };

    fn read(text: &'a str) -> Option<Data<'a>> {
        if is_name(text) {
            return Some(Data::Named(text));
        }
        match stretch_in(text) {
            Some(span) => Some(Data::At(span)),
            None => None,
        }
    }
}

/// The first address and the number of bytes that are shown.
pub(crate) struct BytesReader;

impl<'a> ValueReader<'a> for BytesReader {
    type Value = (u64, u32);

    ghost reads = { λ text bytes. IsBytes text bytes.0 bytes.1 × (bytes.1 ≤ MOST_DUMP) };

    fn read(text: &'a str) -> Option<(u64, u32)> {
        bytes_in(text)
    }
}

/// Moments of a run: a line of the record, or a word.
pub(crate) struct MomentReader;

impl<'a> ValueReader<'a> for MomentReader {
    type Value = When;

    ghost reads = { IsMoment };

    fn read(text: &'a str) -> Option<When> {
        match text {
            "end" => Some(When::End),
            "trap" => Some(When::Trap),
            _ => match text.parse::<u64>() {
                Ok(line) if 1 <= line && line <= MOST_LINE => Some(When::Line(line)),
                _ => None,
            },
        }
    }
}

/// The values of these texts, one for each; `None` where one has none.
#[tactic(auto, using(crate::proofs::Zipped::zip_next))]
pub(crate) fn values_in<'a, R: ValueReader<'a>>(
    alloc: Global,
    texts: &[&'a str],
) -> Result<Option<Vec<R::Value>>, AllocError>
    ensures { IfOk result (λ read. IfSome read (λ all. AllZip (λ text v. R.reads text.now v) texts.now all.items)) }
{
    let mut values = Vec::new(alloc);
    for at in 0..texts.len() {
        let Some(value) = R::read(texts[at]) else {
            return Ok(None);
        };
        values.push(value)?;
    }
    Ok(Some(values))
}
