//! The states that were met, in a table, and the turns that are known there.
ghost use Rattle.std.specs.Prelude.{◌<◌, IfOk, IfSome, OnOk};
ghost use Rattle.search_settled.specs.Known.{IsNotedIn, AreFrom, HasNoOther};

use search_table::{StateParts, States};
use std::alloc::{AllocError, Global};
use std::hash::Hash;

/// What comes of the event that a thread wants, where nobody else hears of it.
#[derive(Clone, Copy)]
pub enum QuietTurn {
    /// It wants none.
    Still,
    /// By their numbers: what is shared after it, and where the thread comes to rest. All others rest where they did.
    Alone { shared: u32, thread: u32 },
}

/// A turn that is known: that of this thread, as the n-th one, where this is shared.
#[derive(Clone, Copy)]
pub struct Known {
    pub shared: u32,
    pub thread: u32,
    pub n: u32,
    pub turn: QuietTurn,
}

/// The row of a next state of a state, and the thread whose event leads there.
#[derive(Drop)]
pub struct NextRow {
    pub thread: u32,
    pub row: Vec<u32>,
}

/// The parts of the states that were met, and the turns that are known: those of the last ones to whom a slot fell.
#[derive(Drop)]
pub(crate) struct MetParts<S: Eq + Hash, T: Eq + Hash> {
    pub(crate) parts: StateParts<S, T>,
    pub(crate) known: Vec<Option<Known>>,
}

/// The states that were met, and what is known of them.
#[derive(Drop)]
pub(crate) struct Tables<S: Eq + Hash, T: Eq + Hash> {
    pub(crate) met: MetParts<S, T>,
    pub(crate) states: States,
}

/// How many slots there are at first, and at most: so few that many small searches cost nothing, and so many that few turns
/// of a large one push others out.
const FEWEST_SLOTS: usize = 1024;

const MOST_SLOTS: usize = 1 << 20;

/// The slot of a turn, of so many.
fn slot_of(shared: u32, thread: u32, n: u32, slots: usize) -> usize
    requires { 0 < slots }
    ensures { result < slots }
{
    let mixed = shared
        .wrapping_mul(0x9E37_79B1)
        .wrapping_add(thread.wrapping_mul(0x85EB_CA77))
        .wrapping_add(n.wrapping_mul(0xC2B2_AE3D));
    (mixed ^ (mixed >> 15)) as usize % slots
}

/// The turn of this thread, as the n-th one, where this is shared, if it is known.
pub fn recall(known: &[Option<Known>], shared: u32, thread: u32, n: u32) -> Option<QuietTurn>
    ensures { IfSome result (IsNotedIn known.now shared thread n) }
{
    if known.is_empty() {
        return None;
    }
    let one = known[slot_of(shared, thread, n, known.len())]?;
    if one.shared == shared && one.thread == thread && one.n == n {
        Some(one.turn)
    } else {
        None
    }
}

/// How many slots are wanted for so many states.
fn slots_for(states: usize, slots: usize) -> usize
    ensures { 0 < result }
{
    if slots < FEWEST_SLOTS {
        FEWEST_SLOTS
    } else if slots < MOST_SLOTS && slots / 2 < states {
        slots * 2
    } else {
        slots
    }
}

/// Notes a turn in its slot, if there are any.
pub fn note(known: &mut Vec<Option<Known>>, new: Known)
    ensures { AreFrom known.old.items new known.new.items }
{
    if known.is_empty() {
        return;
    }
    let slot = slot_of(new.shared, new.thread, new.n, known.len());
    known[slot] = Some(new);
}

/// The same turns in so many slots: of those to whom the same one falls the last.
fn in_slots(
    alloc: Global,
    known: &[Option<Known>],
    slots: usize,
) -> Result<Vec<Option<Known>>, AllocError>
    ensures { IfOk result (λ more. HasNoOther known.now more.items) }
{
    let mut more = vec![in alloc; None; slots]?;
    for at in 0..known.len() {
        if let Some(one) = known[at] {
            note(&mut more, one);
        }
    }
    Ok(more)
}

/// Makes room for turns, among so many states.
///
/// # Errors
/// Where memory is refused.
pub fn make_room(
    alloc: Global,
    known: &mut Vec<Option<Known>>,
    states: usize,
) -> Result<(), AllocError>
    ensures { OnOk result (HasNoOther known.old.items known.new.items) }
{
    let slots = slots_for(states, known.len());
    if known.len() < slots {
        *known = in_slots(alloc, known.as_slice(), slots)?;
    }
    Ok(())
}
