//! The last entry that writes some bytes, or notifies an address.
ghost use Rattle.std.specs.Prelude.{◌≡◌, ◌↔◌, true, None, IfSome};
ghost use Rattle.show_named.specs.declared.lasts.Act.TheVariants as acts;
ghost use Rattle.show_named.specs.Lasts.{Does, HasNone, IsLast, IsLastIfAny, Notifies, Writes};

use race_history::{AccessKind, Site, bytes_of};
use selection::NumberSpan;
use types::{Entry, Event, Question, Reply};

/// What an entry does that is sought.
#[derive(Clone, Copy, PartialEq, Eq, Debug)]
pub enum Act {
    /// It writes a byte at one of these addresses.
    Write(NumberSpan),
    /// It does so, and is of another thread than this one.
    OtherWrite(NumberSpan, usize),
    /// It notifies those that wait at this address.
    Notify(u64),
}

/// Any instruction. By which an entry was made makes no difference to the bytes that it writes.
const ANY: Site = Site {
    kind: AccessKind::Plain,
    code: 0,
    is_allowed: false,
};

/// Whether an entry writes a byte at one of these addresses.
fn writes(entry: &Entry, addrs: NumberSpan) -> bool
    ensures { (result ≡ true) ↔ Writes addrs entry.now }
{
    let Some(access) = bytes_of(entry, &ANY) else {
        return false;
    };
    let low = addrs.first.max(access.addr);
    access.writes && low <= addrs.last && low - access.addr < u64::from(access.width)
}

/// Whether an entry notifies those that wait at this address.
fn notifies(entry: &Entry, at: u64) -> bool
    ensures { (result ≡ true) ↔ Notifies at entry.now }
{
    if let Reply::OutOfBounds = entry.reply {
        return false;
    }
    match entry.event {
        Event::Ask(Question::Notify { addr, .. }) => addr == at,
        _ => false,
    }
}

/// Whether an entry does what is sought.
fn does(entry: &Entry, act: Act) -> bool
    ensures { (result ≡ true) ↔ Does act entry.now }
{
    match act {
        Act::Write(addrs) => writes(entry, addrs),
        Act::OtherWrite(addrs, n) => entry.thread as usize != n && writes(entry, addrs),
        Act::Notify(addr) => notifies(entry, addr),
    }
}

/// The place of the last entry of a log before the one of this place that does what is sought, counted from 0.
pub fn last_of(log: &[Entry], before: usize, act: Act) -> Option<usize>
    ensures found { IfSome result (IsLast act log.now before) }
    ensures none { result ≡ None → HasNone act log.now before }
{
    for place in (0..before.min(log.len())).rev() {
        if does(&log[place], act) {
            return Some(place);
        }
    }
    None
}

/// The last entry of a log that writes some bytes, before a moment.
#[derive(Clone, Copy, PartialEq, Eq, Debug)]
pub struct SoughtWrite {
    /// It writes a byte at one of these addresses.
    pub addrs: NumberSpan,
    /// How many entries are before the moment.
    pub before: usize,
}

impl SoughtWrite {
    /// Its place in a log, counted from 0, if one writes there.
    pub fn place_in(self, log: &[Entry]) -> Option<usize>
        ensures { IsLastIfAny (acts.Write self.addrs) log.now self.before result }
    {
        last_of(log, self.before, Act::Write(self.addrs))
    }
}
