//! A word before each turn.
ghost use Rattle.std.specs.Prelude.{ℕ};

/// A function that was under way where a thread trapped.
#[derive(Clone, Copy, PartialEq, Eq)]
pub struct TrapFrame {
    /// How many functions were under way that it had called, itself or through others: 0 for the one that trapped.
    pub depth: usize,
    /// The function of the module itself, from 0.
    pub function: usize,
    /// The number of an instruction in its flat code: of the one that trapped, or of the one behind the call.
    pub instr: usize,
}

/// Is called before each turn of each thread of a run, so that a host can hold threads back or count what they do. Each
/// thread has a copy, which begins as the one that the host hands in; what the copies came to is put together where the
/// run is over. So what they share lies behind a reference.
pub trait Gate: Copy {
    /// What it makes of a call: how it is before, the thread's number, the units that it has spent, and how it is then.
    ghost sees: { Self → ℕ → ℕ → Self → Type 0 };

    /// What it makes of a thread's copy: how it is before, that copy behind the thread's last turn, and how it is then.
    ghost gathers: { Self → Self → Self → Type 0 };

    /// Comes before a turn of a thread, with the units that it has spent so far.
    fn at(&mut self, thread: u32, turn: u64)
        ensures { sees self.old thread turn self.new };

    /// Takes back the copy of a thread, which makes no further turn.
    fn gather(&mut self, other: Self)
        ensures { gathers self.old other self.new };

    /// Hears of a function that was under way where a thread trapped: first of the one that trapped, then of its
    /// callers, the innermost first. That comes behind its last turn.
    fn trapped(&self, thread: u32, frame: TrapFrame);
}

/// A gate that does nothing.
#[derive(Clone, Copy, PartialEq, Eq, Default)]
pub struct OpenGate;

impl Gate for OpenGate {
    ghost sees = { λ old thread turn new. Unit {0} };

    ghost gathers = { λ old other new. Unit {0} };

    #[inline]
    fn at(&mut self, _thread: u32, _turn: u64) {}

    #[inline]
    fn gather(&mut self, _other: OpenGate) {}

    #[inline]
    fn trapped(&self, _thread: u32, _frame: TrapFrame) {}
}
