//! At which bytes a thread stands.
ghost use Rattle.std.specs.Prelude.{◌≡◌, ◌↔◌, true, None, IfSome};
ghost use Rattle.show_waits.specs.Stands.{IsStand, TouchesNothing};

use crate::beside::touched_beside;
use selection::{NumberSpan, Spans};
use types::Entry;

/// Where a thread stands: the bytes that it touched last, or waited for, beside those that are left out, and since when it
/// touched no others.
#[derive(Clone, Copy, PartialEq, Eq, Debug)]
pub struct Stand {
    /// The addresses of these bytes.
    pub addrs: NumberSpan,
    /// The place of the first of its entries at its end that touch these alone, in the log, counted from 0.
    pub since: usize,
    /// The place of the last of them.
    pub last: usize,
    /// How many they are.
    pub times: usize,
}

/// Whether two spans are the same.
pub(crate) fn is_same(a: NumberSpan, b: NumberSpan) -> bool
    ensures { (result ≡ true) ↔ (a ≡ b) }
{
    a.first == b.first && a.last == b.last
}

/// Where thread n stands at the end of a log, or nothing where no entry of it touches any bytes beside those that are left
/// out.
pub(crate) fn stand_of(log: &[Entry], n: usize, out: &Option<Spans>) -> Option<Stand>
    ensures stands { IfSome result (IsStand n log.now out.now) }
    ensures none { result ≡ None → TouchesNothing n log.now out.now }
{
    let mut found: Option<Stand> = None;
    for place in (0..log.len()).rev() {
        let entry = &log[place];
        if entry.thread as usize != n {
            continue;
        }
        let Some(addrs) = touched_beside(out, entry.event) else {
            continue;
        };
        found = match found {
            None => Some(Stand {
                addrs,
                since: place,
                last: place,
                times: 1,
            }),
            Some(stand) if is_same(stand.addrs, addrs) => Some(Stand {
                since: place,
                times: stand.times + 1,
                ..stand
            }),
            Some(stand) => return Some(stand),
        };
    }
    found
}
