//! What each thread waits for that was stopped, as text.
ghost use Rattle.std.specs.Prelude.{◌≡◌, ◌<◌, ◌⊎◌, ◌↔◌, None, true, length, IfOk, IfSome, OnOk, string_bytes};
ghost use Rattle.show_named.specs.Lasts.{IsLastIfAny};
ghost use Rattle.show_waits.specs.Stands.{TouchesNothing};
ghost use Rattle.show_waits.specs.Waits as specified;
ghost use Rattle.show_waits.specs.Waits.{AreToldLasts, IsOwn, IsToldWait, SaysNowhere, SaysOther, SaysStand, SaysStandAt};
ghost use Rattle.show_waits.specs.Waits.{SaysWait, WritesWaits};

use crate::cycle_texts::write_cycles;
use crate::stands::{Stand, stand_of};
use selection::{NumberSpan, Spans};
use show_named::{Act, DataMap, last_of, named_text, told_text};
use show_rows::{Shown, Story};
use show_text::Unwritten;
use std::alloc::{AllocError, Global};
use std::fmt::{self, Formatter};
use std::io::Write;
use types::{Entry, Outcome};

/// How often.
#[derive(Clone, Copy)]
struct Times(usize);

impl fmt::Display for Times {
    ghost use Rattle.std.specs.Prelude.{Some};
    ghost use Rattle.show_waits.specs.Waits.{times_text};

    ghost output = { λ t. Some (times_text t.0) };

    fn fmt<W: fmt::Write>(&self, f: &mut Formatter<W>) -> fmt::Result {
        let times = self.0;
        if times == 1 {
            f.write_str("once")
        } else {
            write!(f, "{times} times")
        }
    }
}

/// Whether the last write at these addresses is a thread's own.
fn is_own(log: &[Entry], n: usize, addrs: NumberSpan) -> bool
    ensures { (result ≡ true) ↔ IsOwn log.now n addrs }
{
    match last_of(log, log.len(), Act::Write(addrs)) {
        Some(at) => log[at].thread as usize == n,
        None => false,
    }
}

/// What a thread waits for that was stopped: where it stood, and who made the bytes there what they are. Places are those
/// of entries in the log.
#[derive(Clone, Copy, PartialEq, Eq, Debug)]
pub struct ToldWait {
    pub stand: Stand,
    /// The last write of the bytes at which it stands.
    pub written: Option<usize>,
    /// Whether that is its own; and the last one of another thread.
    pub is_own: bool,
    pub other: Option<usize>,
    /// The last notify of the first one's address.
    pub notified: Option<usize>,
}

/// The last entry of a log that does something.
fn last_in(log: &[Entry], act: Act) -> Option<usize>
    ensures { IsLastIfAny act log.now (length log.now) result }
{
    last_of(log, log.len(), act)
}

/// What a thread waits for at the end of a log, or nothing where no entry of it touches any bytes beside those that are left
/// out.
pub fn wait_told(log: &[Entry], n: usize, out: &Option<Spans>) -> Option<ToldWait>
    ensures waits { IfSome result (IsToldWait n log.now out.now) }
    ensures none { result ≡ None → TouchesNothing n log.now out.now }
{
    let Some(stand) = stand_of(log, n, out) else {
        return None;
    };
    let addrs = stand.addrs;
    Some(ToldWait {
        stand,
        written: last_in(log, Act::Write(addrs)),
        is_own: is_own(log, n, addrs),
        other: last_in(log, Act::OtherWrite(addrs, n)),
        notified: last_in(log, Act::Notify(addrs.first)),
    })
}

/// Where the last write there is the thread's own, who was the last one of the others.
fn other_text(
    alloc: Global,
    shown: Shown,
    map: &DataMap,
    story: &Story,
    n: usize,
    wait: ToldWait,
) -> Result<String, AllocError>
    requires { AreToldLasts n shown.record.now.log wait }
    ensures { IfOk result (λ text. SaysOther shown.entry map.now story.now n wait.stand.addrs (string_bytes text)) }
{
    if !wait.is_own {
        return Ok(String::new(alloc));
    }
    let other = told_text(alloc, shown, map, story, wait.other, "nobody")?;
    let text = format!(in alloc; "  last write there of another thread: {other}\n")?;
    Ok(text)
}

/// Where a thread stands, and who made the bytes there what they are.
fn stand_text(
    alloc: Global,
    shown: Shown,
    map: &DataMap,
    story: &Story,
    n: usize,
    wait: ToldWait,
) -> Result<String, AllocError>
    requires within { wait.stand.last < length shown.record.now.log }
    requires lasts { AreToldLasts n shown.record.now.log wait }
    ensures { IfOk result (λ text. SaysStandAt shown.entry map.now story.now n wait.stand (string_bytes text)) }
{
    let last = named_text(alloc, shown, map, story, wait.stand.last)?;
    let written = told_text(alloc, shown, map, story, wait.written, "nobody")?;
    let other = other_text(alloc, shown, map, story, n, wait)?;
    let notified = told_text(alloc, shown, map, story, wait.notified, "nobody")?;
    let (times, line) = (Times(wait.stand.times), shown.line_of(wait.stand.since));
    let text = format!(in alloc;
        "{last}\n  touches nothing else since entry {line} ({times})\n  last write there: {written}\n{other}  last notify there: {notified}\n"
    )?;
    Ok(text)
}

/// What is told of a thread that touched no bytes beside those that are left out.
fn nowhere_text(alloc: Global, out: &Option<Spans>) -> Result<String, AllocError>
    ensures { IfOk result (λ text. string_bytes text ≡ specified.nowhere_text out.now) }
{
    match out {
        Some(_) => "it touched nothing but what is left out\n".to_string(alloc),
        None => "it touched nothing\n".to_string(alloc),
    }
}

/// Where a thread stands, or that it stands nowhere.
fn place_text(
    alloc: Global,
    shown: Shown,
    map: &DataMap,
    story: &Story,
    out: &Option<Spans>,
    n: usize,
) -> Result<String, AllocError>
    ensures { IfOk result (λ text. SaysStand shown.entry map.now story.now out.now n (string_bytes text)
        ⊎ SaysNowhere shown.entry out.now n (string_bytes text)) }
{
    match wait_told(shown.record.log.as_slice(), n, out) {
        Some(wait) => stand_text(alloc, shown, map, story, n, wait),
        None => nowhere_text(alloc, out),
    }
}

/// What is told of a thread: nothing of one that wasn't stopped.
fn wait_text(
    alloc: Global,
    shown: Shown,
    map: &DataMap,
    story: &Story,
    out: &Option<Spans>,
    n: usize,
) -> Result<String, AllocError>
    requires { n < length shown.record.now.ends }
    ensures { IfOk result (λ text. SaysWait shown.entry map.now story.now out.now n (string_bytes text)) }
{
    let outcome = shown.record.ends.as_slice()[n].outcome;
    let Outcome::Stop(_) = outcome else {
        return Ok(String::new(alloc));
    };
    let place = place_text(alloc, shown, map, story, out, n)?;
    let text = format!(in alloc; "t{n}: {outcome}: {place}")?;
    Ok(text)
}

/// Writes of each thread that was stopped where it stood, beside the memory that is left out: its last entry that touches
/// bytes, since which line it touched no others and how often, and who wrote them and notified them last. Behind them
/// stand the cycles in which threads wait for one another.
///
/// # Errors
/// Where memory is refused, or the stream fails.
pub fn write_waits<W: Write>(
    alloc: Global,
    shown: Shown,
    map: &DataMap,
    story: &Story,
    left_out: &Option<Spans>,
    out: &mut W,
) -> Result<(), Unwritten>
    ensures { OnOk result (WritesWaits shown.entry map.now story.now left_out.now (W.contents out.old) (W.contents out.new)) }
{
    for n in 0..shown.record.ends.len() {
        let text = wait_text(alloc, shown, map, story, left_out, n)?;
        write!(out, "{text}")?;
    }
    write_cycles(alloc, shown, left_out, out)?;
    out.flush()?;
    Ok(())
}
