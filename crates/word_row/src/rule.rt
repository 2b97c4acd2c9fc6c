//! The rule of the row, and its steps.
use atomic_table::{Play, Table};
use shared_memory_on_table::{History, Naming, OneHistory, View};
use shared_memory_sequential::OneMemory;
use std::alloc::Global;
use std::marker::{Brand, PhantomData};

/// The words are those of the memory after the history, and there is no keeper. The key is the memory before any entry.
pub struct MemoryWords;

impl History<OneMemory> for MemoryWords {
    ghost use Rattle.std.specs.Prelude.{false};
    ghost use Rattle.word_row.specs.Rule.{Stores};

    ghost has_keeper = { false };

    ghost agree = { Stores };
}

/// Which event a step is a try of. Each call picks it.
pub trait Making {
    ghost use Rattle.types.specs.declared.event.Event.{Event};

    ghost event: { Event };
}

impl Making for Brand {
    ghost use Rattle.word_row.specs.Rule.{no_event};

    ghost event = { no_event };
}

/// A load of the size word: the caller enters its event where the page count settles the reply, and else sees the
/// history.
pub struct Note<B: Naming, M: Making>(PhantomData<(B, M)>);

impl<B: Naming, M: Making> Play<u8, View> for Note<B, M> {
    ghost use Rattle.word_row.specs.Rule.{NotesAs};

    ghost then = { λ step before found after. NotesAs B.opening M.event step.word before found after };
}

/// A load of a data word: the caller enters its event where the word settles the reply, and else sees the history.
pub struct Read<B: Naming, M: Making>(PhantomData<(B, M)>);

impl<B: Naming, M: Making> Play<u8, View> for Read<B, M> {
    ghost use Rattle.word_row.specs.Rule.{ReadsAs};

    ghost then = { λ step before found after. ReadsAs B.opening M.event step.word before found after };
}

/// A compare-exchange of the size word or of a data word: the caller enters its event where it was made, and else
/// sees the history.
pub struct Exchange<B: Naming, M: Making>(PhantomData<(B, M)>);

impl<B: Naming, M: Making> Play<u8, View> for Exchange<B, M> {
    ghost use Rattle.word_row.specs.Rule.{ExchangesAs};

    ghost then = { λ step before found after. ExchangesAs B.opening M.event step.first step.word before found after };
}

/// A store of a data word: the caller enters its event, whatever the word was.
pub struct Store<B: Naming, M: Making>(PhantomData<(B, M)>);

impl<B: Naming, M: Making> Play<u8, View> for Store<B, M> {
    ghost use Rattle.word_row.specs.Rule.{StoresAs};

    ghost then = { λ step before stored after. StoresAs B.opening M.event step.word before after };
}

/// A swap of a data word, or another single exchange that answers the word found: the caller enters its event,
/// whatever the word was.
pub struct Fetch<B: Naming, M: Making>(PhantomData<(B, M)>);

impl<B: Naming, M: Making> Play<u8, View> for Fetch<B, M> {
    ghost use Rattle.word_row.specs.Rule.{FetchesAs};

    ghost then = { λ step before found after. FetchesAs B.opening M.event step.word before found after };
}

/// A new seat on which nobody stands.
pub struct Arrive;

impl Play<u8, View> for Arrive {
    ghost use Rattle.word_row.specs.Rule.{IsEmpty};

    ghost then = { λ step before found after. IsEmpty after };
}

/// The words and their seats, as all threads share them.
pub type Row = shared_memory_on_table::Row<OneMemory, MemoryWords>;

/// The words and their seats, as their owner has them.
pub type Board = Table<u8, View, OneMemory, OneHistory<MemoryWords>, Global>;
