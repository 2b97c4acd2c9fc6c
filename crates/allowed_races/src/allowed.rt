//! What may race.

ghost use Rattle.std.specs.Prelude.{◌≡◌, ◌+◌};
ghost use Rattle.std.specs.List.{list_any};
ghost use Rattle.selection.specs.Choices as choices;
ghost use Rattle.allowed_races.specs.Bytes.{has_byte, has_bytes, IsNothing};

use selection::NumberSpan;

/// Which accesses may race.
#[derive(Clone, Copy)]
pub struct Allowed<'a> {
    /// Spans of addresses: an access all of whose bytes lie in them counts as atomic.
    pub spans: &'a [NumberSpan],
    /// Whether atomic accesses may race with one another, whatever their widths.
    pub mixed: bool,
}

/// Whether the byte that is so many behind an address lies in a span.
fn span_has(span: NumberSpan, addr: u64, behind: u64) -> bool
    ensures { result ≡ choices.has span (addr + behind) }
{
    let begins = span.first <= addr || span.first - addr <= behind;
    let ends = addr <= span.last && behind <= span.last - addr;
    begins && ends
}

impl<'a> Allowed<'a> {
    /// Nothing may race.
    pub fn nothing() -> Allowed<'a>
        ensures { IsNothing result }
    {
        Allowed {
            spans: &[],
            mixed: false,
        }
    }

    /// Whether the byte that is so many behind an address may be raced for.
    fn has_byte(&self, addr: u64, behind: u64) -> bool
        ensures { result ≡ has_byte self.now (addr + behind) }
    {
        self.spans.iter().any(|span| span_has(*span, addr, behind))
    }

    /// Whether so many bytes from an address on may all be raced for, of which there is one at least.
    pub fn has(&self, addr: u64, width: u64) -> bool
        ensures { result ≡ has_bytes self.now addr width }
    {
        if self.spans.is_empty() || width == 0 {
            return false;
        }
        for behind in 0..width {
            if !self.has_byte(addr, behind) {
                return false;
            }
        }
        true
    }
}
