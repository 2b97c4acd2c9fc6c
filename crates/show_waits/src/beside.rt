//! What an event touches beside the memory that is left out.
ghost use Rattle.std.specs.Prelude.{◌≡◌};
ghost use Rattle.selection.specs.Choices as chosen;
ghost use Rattle.show_waits.specs.Beside as specified;

use selection::{NumberSpan, Spans, touched};
use types::Event;

/// Whether an event touches one of these addresses.
fn some_touched(addrs: &Spans, event: Event) -> bool
    ensures { result ≡ chosen.meets_some addrs.now.spans.items (chosen.touched event) }
{
    match touched(event) {
        Some(span) => addrs.meets(span),
        None => false,
    }
}

/// Whether an event touches an address that is left out, if some are.
pub fn is_left_out(out: &Option<Spans>, event: Event) -> bool
    ensures { result ≡ chosen.is_left_out out.now event }
{
    match out {
        Some(addrs) => some_touched(addrs, event),
        None => false,
    }
}

/// The addresses of the bytes that an event touches, or at which it waits or wakes, unless one of them is left out.
pub(crate) fn touched_beside(out: &Option<Spans>, event: Event) -> Option<NumberSpan>
    ensures { result ≡ specified.touched_beside out.now event }
{
    if is_left_out(out, event) {
        None
    } else {
        touched(event)
    }
}
