//! The rule of the table.
use crate::view::View;
use atomic_table::{Shared, TableRule};
use std::marker::PhantomData;

/// What the words of a table are of the one history. The key, of type `K`, is what the table is told when it is made.
pub trait History<K> {
    ghost use Rattle.std.specs.Prelude.{ℕ, Bool, List};
    ghost use Rattle.types.specs.declared.event.Entry.{Entry};

    // Whether the first seat is a keeper's, which knows the whole history.
    ghost has_keeper: { Bool };

    // The words agree with the history.
    ghost agree: { K → List Entry → List ℕ → Type 0 };
}

/// The rule: there is one history, the words agree with it, and each caller has seen a beginning of it.
pub struct OneHistory<H>(PhantomData<H>);

impl<K, H: History<K>> TableRule<u8, View, K> for OneHistory<H> {
    ghost use Rattle.shared_memory_on_table.specs.Rule.{Kept, opened};

    ghost holds = { λ k s. Kept H.has_keeper (H.agree k) s };

    ghost first = { λ _. opened H.has_keeper };
}

/// The words and their seats, as all threads share them.
pub type Row<K, H> = Shared<u8, View, K, OneHistory<H>>;
