//! Spans of numbers that are searched.

ghost use Rattle.selection.specs.Spans.{AreInOrder};

use crate::choice::NumberSpan;
use std::alloc::{AllocError, Global};

/// Spans that have numbers, by where they begin, none with a number in common with another one.
#[derive(Drop)]
pub struct Spans {
    spans: Vec<NumberSpan>,
    ghost in_order: { AreInOrder spans.items },
}

impl Spans {
    ghost use Rattle.std.specs.Prelude.{◌≡◌, IfOk};
    ghost use Rattle.std.specs.List.Sorted.{IsNonDecreasingBy};
    ghost use Rattle.selection.specs.Choices.{some_has, some_meets, HaveSame};

    /// The numbers of some spans: one of these has a number exactly where one of those given has it.
    pub fn new(alloc: Global, mut spans: Vec<NumberSpan>) -> Result<Spans, AllocError>
        ensures { IfOk result (λ all. HaveSame all.spans.items spans.items) }
    {
        spans.sort_by_key(|span| span.first)?;
        Spans::apart(alloc, &spans)
    }

    /// Of spans that are sorted by where they begin, each without the numbers that those in front have.
    fn apart(alloc: Global, sorted: &[NumberSpan]) -> Result<Spans, AllocError>
        requires { IsNonDecreasingBy (λ span. span.first) sorted.now }
        ensures { IfOk result (λ all. HaveSame all.spans.items sorted.now) }
    {
        let mut spans = Vec::new(alloc);
        // One past the last number that they have.
        let mut next: u128 = 0;
        for span in sorted {
            let first = next.max(u128::from(span.first));
            let end = u128::from(span.last) + 1;
            if first < end {
                spans.push(NumberSpan {
                    first: first as u64,
                    last: span.last,
                })?;
                next = end;
            }
        }
        Ok(Spans { spans })
    }

    /// Whether a number is in one of them.
    pub fn has(&self, number: u64) -> bool
        ensures { result ≡ some_has self.now.spans.items number }
    {
        self.meets(NumberSpan {
            first: number,
            last: number,
        })
    }

    /// Whether one of them has a number in common with this span.
    pub fn meets(&self, span: NumberSpan) -> bool
        ensures { result ≡ some_meets self.now.spans.items span }
    {
        let spans = self.spans.as_slice();
        let at = spans.partition_point(|other| other.last < span.first);
        at < spans.len() && spans[at].first <= span.last
    }
}
