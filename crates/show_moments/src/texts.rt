//! A queue and bytes, as they are printed.

ghost use Rattle.std.specs.Prelude.{◌≡◌, IfOk, string_bytes};
ghost use Rattle.show_moments.specs.Texts as specified;

use shared_memory::Sleeper;
use std::alloc::{AllocError, Global};
use std::fmt::{self, Formatter};
use waiters::KeptQueue;

/// How many bytes stand in a line.
pub(crate) const IN_A_LINE: u64 = 16;

/// How long a thread sleeps at most; a time below 0 has no end.
#[derive(Clone, Copy)]
struct Time(i64);

impl fmt::Display for Time {
    ghost use Rattle.std.specs.Prelude.{Some};
    ghost use Rattle.show_moments.specs.Texts.{time_text};

    ghost output = { λ t. Some (time_text t.0) };

    fn fmt<W: fmt::Write>(&self, f: &mut Formatter<W>) -> fmt::Result {
        let timeout = self.0;
        if timeout < 0 {
            return Ok(());
        }
        let time = timeout as u64;
        write!(f, " for {time} ns")
    }
}

/// Who sleeps, who has slept longest first.
fn sleepers_text(alloc: Global, sleepers: &[Sleeper]) -> Result<String, AllocError>
    ensures { IfOk result (λ text. string_bytes text ≡ specified.sleepers_text sleepers.now) }
{
    if sleepers.is_empty() {
        return String::from_str(alloc, "nobody sleeps\n");
    }
    let mut text = String::from_str(alloc, "asleep:")?;
    for place in 0..sleepers.len() {
        let (thread, addr) = (sleepers[place].thread, sleepers[place].addr);
        let time = Time(sleepers[place].timeout);
        write!(text, " t{thread} on {addr}{time}")?;
    }
    text.push_str("\n")?;
    Ok(text)
}

/// The same of a queue; nothing where no queue is known.
pub(crate) fn queue_text(alloc: Global, queue: &Option<KeptQueue>) -> Result<String, AllocError>
    ensures { IfOk result (λ text. string_bytes text ≡ specified.queue_text queue.now) }
{
    match queue {
        Some(queue) => sleepers_text(alloc, &queue.sleepers),
        None => Ok(String::new(alloc)),
    }
}

/// A byte; the first one of a line stands behind its address.
#[derive(Clone, Copy)]
struct Byte {
    addr: u64,
    place: u64,
    byte: u8,
}

impl fmt::Display for Byte {
    ghost use Rattle.std.specs.Prelude.{Some};
    ghost use Rattle.show_moments.specs.Texts.{byte_text};

    ghost output = { λ b. Some (byte_text b.addr (b.place, b.byte)) };

    fn fmt<W: fmt::Write>(&self, f: &mut Formatter<W>) -> fmt::Result {
        let (place, byte) = (self.place, self.byte);
        let addr = self.addr.saturating_add(place);
        if place == 0 {
            write!(f, "{addr}: {byte:02x}")
        } else if place % IN_A_LINE == 0 {
            write!(f, "\n{addr}: {byte:02x}")
        } else {
            write!(f, " {byte:02x}")
        }
    }
}

/// Bytes from an address on, with the address of the first one in each line.
///
/// # Errors
/// Where memory is refused.
pub fn dump_text(alloc: Global, addr: u64, bytes: &[u8]) -> Result<String, AllocError>
    ensures { IfOk result (λ text. string_bytes text ≡ specified.dump_text addr bytes.now) }
{
    let mut text = String::new(alloc);
    if bytes.is_empty() {
        return Ok(text);
    }
    for place in 0..bytes.len() {
        let byte = Byte {
            addr,
            place: place as u64,
            byte: bytes[place],
        };
        write!(text, "{byte}")?;
    }
    text.push_str("\n")?;
    Ok(text)
}
