//! The functions that were under way where threads trapped.

use interp::CodePlace;
use interp_trait::{Gate, TrapFrame};
use std::alloc::{AllocError, Global};
use std::sync::atomic::{AtomicU64, Ordering};
use types::MOST_THREADS;

/// How many functions are kept of a thread: the one that trapped, and its callers.
const KEPT: usize = 16;

/// A function that was under way.
#[derive(Drop)]
struct HeardFrame {
    /// The function of the module itself, from 1 on; 0 where nothing was heard.
    function: AtomicU64,
    /// The number of an instruction in its flat code.
    instr: AtomicU64,
}

/// The functions that were under way where the threads of a run trapped, of each thread as many as are kept. As a gate
/// it lets each thread through, and hears where it trapped.
#[derive(Drop)]
pub struct Frames {
    frames: Vec<HeardFrame>,
}

fn room(alloc: Global) -> Result<Vec<HeardFrame>, AllocError> {
    let mut frames = Vec::with_capacity(alloc, MOST_THREADS * KEPT)?;
    for _ in 0..MOST_THREADS * KEPT {
        frames.push(HeardFrame {
            function: AtomicU64::new(0),
            instr: AtomicU64::new(0),
        })?;
    }
    Ok(frames)
}

impl Frames {
    /// None yet. Where memory is refused there is no room for any.
    pub fn new(alloc: Global) -> Frames {
        Frames {
            frames: room(alloc).unwrap_or(Vec::new(alloc)),
        }
    }

    /// That of a thread at a depth, if it is kept.
    fn frame(&self, thread: usize, depth: usize) -> Option<&HeardFrame> {
        if depth >= KEPT {
            return None;
        }
        self.frames
            .get(thread.saturating_mul(KEPT).saturating_add(depth))
    }

    /// Where a thread trapped, at depth 0, or where the call stands by which that function was called, itself or
    /// through others; `None` where the thread hasn't trapped, has no further caller, or where that isn't kept.
    pub fn place(&self, thread: usize, depth: usize) -> Option<CodePlace> {
        let frame = self.frame(thread, depth)?;
        let number = frame.function.load(Ordering::SeqCst);
        if number == 0 {
            return None;
        }
        let instr = frame.instr.load(Ordering::SeqCst) as usize;
        Some(CodePlace {
            function: (number - 1) as usize,
            instr: if depth == 0 {
                instr
            } else {
                instr.saturating_sub(1)
            },
        })
    }
}

impl Gate for &Frames {
    ghost sees = { λ old thread turn new. Unit {0} };

    ghost gathers = { λ old other new. Unit {0} };

    #[inline]
    fn at(&mut self, _thread: u32, _turn: u64) {}

    #[inline]
    fn gather(&mut self, _other: &Frames) {}

    /// Keeps a function of a thread.
    fn trapped(&self, thread: u32, heard: TrapFrame) {
        if let Some(frame) = self.frame(thread as usize, heard.depth) {
            let number = (heard.function as u64).saturating_add(1);
            frame.instr.store(heard.instr as u64, Ordering::SeqCst);
            frame.function.store(number, Ordering::SeqCst);
        }
    }
}
