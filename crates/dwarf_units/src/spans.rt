//! What has places: from each place to the one that has it.

ghost use Rattle.std.specs.Prelude.{◌≡◌, find, IfOk, All, Contains};
ghost use Rattle.dwarf_units.specs.Spans.{holds, AreInOrder};

use std::alloc::{AllocError, Global};

/// Places from one up to another, and the entry that has them.
#[derive(Clone, Copy)]
pub struct Spanned {
    pub start: u64,
    pub end: u64,
    pub entry: usize,
}

/// What has places, by where it begins.
#[derive(Drop)]
pub struct Spans {
    items: Vec<Spanned>,
    ghost in_order: { AreInOrder items.items },
}

/// Those of some items, which are sorted, that have places, without those that share places with one in front.
fn apart(alloc: Global, items: &[Spanned]) -> Result<Spans, AllocError> {
    let mut apart = Vec::new(alloc);
    let mut end = 0;
    for span in items {
        if end <= span.start && span.start < span.end {
            end = span.end;
            apart.push(*span)?;
        }
    }
    Ok(Spans { items: apart })
}

impl Spans {
    /// Those of some items that have places, by where they begin. Of two that share places only the first is taken.
    pub fn new(alloc: Global, mut items: Vec<Spanned>) -> Result<Spans, AllocError> {
        items.sort_by_key(|span| span.start)?;
        apart(alloc, &items)
    }

    /// All of them.
    pub fn items(&self) -> &[Spanned]
        ensures { result.now ≡ self.now.items.items }
    {
        &self.items
    }

    /// What has a place.
    pub fn at(&self, place: u64) -> Option<Spanned>
        ensures { result ≡ find (holds place) self.now.items.items }
    {
        let items = self.items.as_slice();
        let mut low = 0;
        let mut high = items.len();
        while low < high {
            let middle = low + (high - low) / 2;
            if items[middle].end <= place {
                low = middle + 1;
            } else {
                high = middle;
            }
        }
        if low < items.len() && items[low].start <= place {
            return Some(items[low]);
        }
        None
    }
}
