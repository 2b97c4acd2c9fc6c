//! The rule of the one word, which stays as it is, and its steps: each loads it.
use atomic_table::{Play, Table};
use shared_memory_on_table::{History, OneHistory, View};
use std::alloc::Global;
use std::marker::{Brand, PhantomData};

/// The one word says nothing of the history. A keeper knows that: its log.
pub struct Unmoved;

impl History<()> for Unmoved {
    ghost use Rattle.std.specs.Prelude.{true};
    ghost use Rattle.locked_recorder.specs.Rule.{is_zero};

    ghost has_keeper = { true };

    ghost agree = { λ _. is_zero };
}

/// Which entry a step makes. Each call picks it.
pub trait Making {
    ghost use Rattle.types.specs.declared.event.Entry.{Entry};

    ghost entry: { Entry };
}

impl Making for Brand {
    ghost use Rattle.locked_recorder.specs.Rule.{no_entry};

    ghost entry = { no_entry };
}

/// The keeper makes an entry of the caller on its seat.
pub struct Enter<M: Making>(PhantomData<M>);

impl<M: Making> Play<u8, View> for Enter<M> {
    ghost use Rattle.locked_recorder.specs.Rule.{Enters};

    ghost then = { λ step before found after. Enters M.entry before after };
}

/// The callers on the keeper's seat learn the log.
pub struct Learn;

impl Play<u8, View> for Learn {
    ghost use Rattle.locked_recorder.specs.Rule.{Learns};

    ghost then = { λ step before found after. Learns before after };
}

/// The word and its seats, as all threads share them.
pub type Row = shared_memory_on_table::Row<(), Unmoved>;

/// The word and its seats, as their owner has them.
pub type Board = Table<u8, View, (), OneHistory<Unmoved>, Global>;
