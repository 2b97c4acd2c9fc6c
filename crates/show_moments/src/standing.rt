//! Where a thread stands, with the values of its open functions.

ghost use Rattle.std.specs.Prelude.{◌≡◌, ◌+◌, ◌-◌, ◌^◌, min, length, IfOk};
ghost use Rattle.show_moments.specs.Moments.{StandsAs};
ghost use Rattle.show_moments.specs.Opened as opened;
ghost use Rattle.show_moments.specs.Opened.{IsOpenFunction, running_by, words_in};

use interp::{CodePlace, Kept, Thread};
use interp_state::{Caller, Progress};
use std::alloc::{AllocError, Global};

/// Where a thread stands: the place of the instruction that comes next, the functions that called the one that runs,
/// the outermost first, and what they have.
#[derive(PartialEq, Eq, Drop)]
pub struct ThreadSnapshot {
    pub place: CodePlace,
    pub callers: Vec<Caller>,
    pub kept: Kept,
}

/// An open function of a thread: where it is, and the words of its locals and of its operands, the top of the stack
/// last.
#[derive(Clone, Copy, PartialEq, Eq)]
pub struct OpenFunction<'a> {
    /// The instruction that comes next, or a call or question that hasn't come back.
    pub place: CodePlace,
    pub locals: &'a [u64],
    pub operands: &'a [u64],
}

/// Where a thread stands.
///
/// # Errors
/// Where memory is refused.
pub(crate) fn standing_of(alloc: Global, thread: &Thread) -> Result<ThreadSnapshot, AllocError>
    ensures { IfOk result (StandsAs thread.now) }
{
    let open = thread.callers();
    let callers = Vec::from_slice(alloc, open)?;
    let kept = thread.keep(alloc)?;
    Ok(ThreadSnapshot {
        place: thread.place(),
        callers,
        kept,
    })
}

/// The instruction before a place.
fn before(place: CodePlace) -> CodePlace
    ensures { result ≡ opened.before place }
{
    CodePlace {
        function: place.function,
        instr: place.instr.saturating_sub(1),
    }
}

impl ThreadSnapshot {
    /// How many functions are open.
    pub fn depth(&self) -> usize
        ensures { result ≡ min (length self.now.callers.items + 1) (2 ^ 64 - 1) }
    {
        self.callers.len().saturating_add(1)
    }

    /// The words from one place up to another.
    fn words(&self, from: usize, to: usize) -> &[u64]
        ensures { result.now ≡ words_in self.now.kept.values.items from to }
    {
        let values = self.kept.values.as_slice();
        if from <= to && to <= values.len() {
            &values[from..to]
        } else {
            &[]
        }
    }

    /// Where the words of the function end that has this number, the outermost's being 0.
    fn end_of(&self, number: usize) -> usize
        ensures { result ≡ opened.end_of self.now number }
    {
        let Some(above) = number.checked_add(1) else {
            return self.kept.values.len();
        };
        match self.callers.get(above) {
            Some(caller) => caller.base,
            None if above == self.callers.len() => self.kept.base,
            None => self.kept.values.len(),
        }
    }

    /// The open function that has this number: the outermost one is 0, and the one that runs has the highest.
    pub fn open_function(&self, number: usize) -> OpenFunction<'_>
        ensures { IsOpenFunction self.now number result }
    {
        let end = self.end_of(number);
        match self.callers.get(number) {
            Some(caller) => OpenFunction {
                place: before(CodePlace {
                    function: caller.function,
                    instr: caller.pc,
                }),
                locals: self.words(caller.base, caller.operands),
                operands: self.words(caller.operands, end),
            },
            None => OpenFunction {
                place: self.running_place(),
                locals: self.words(self.kept.base, self.kept.operands),
                operands: self.words(self.kept.operands, end),
            },
        }
    }

    /// Where the function is that runs: at its question, as long as no answer came.
    fn running_place(&self) -> CodePlace
        ensures { result ≡ running_by self.now.kept.progress self.now.place }
    {
        match self.kept.progress {
            Progress::Asked => before(self.place),
            _ => self.place,
        }
    }
}
