//! Single steps on words that the caller of a seat makes for an event.
ghost use Rattle.std.specs.Prelude.{◌≡◌, ℕ, true, None};
ghost use Rattle.shared_memory.specs.Events.{IsEvent, is_of_queue};
ghost use Rattle.shared_memory_on_table.specs.Rule.{MakesTry};
ghost use Rattle.word_row.specs.Answers.{is_access, place_of, after_single, IsMadeBy};
ghost use Rattle.word_row.specs.Changes.{IsChange};
ghost use Rattle.word_row.specs.Rule.{EndsWithin, FetchesWord, IsRow, LeavesWord, NotesPages, ReadsWord};

use crate::changes::{Change, word_place};
use crate::{Exchange, Fetch, Making, Note, Read, Row, Single, Store};
use shared_memory_on_table::{Naming, StandingCaller};
use types::{Event, Reply};

/// Loads the page count: the caller's event is entered where that settles its reply.
#[inline(always)]
pub fn note<B: Naming, M: Making>(row: &Row, caller: &mut StandingCaller<B>, event: Event) -> u64
    requires row { IsRow B.table B.opening row.now.table_id row.now.key }
    requires making { M.event ≡ event }
    requires event { IsEvent event }
    requires right { is_of_queue event ≡ true → caller.old.has_queue_right ≡ true }
    ensures { NotesPages B.opening event caller.old result caller.new }
{
    row.load::<Note<B, M>>(&mut caller.place, 0)
}

/// Loads the word of an access that lies within the memory seen: the event is entered where that settles its reply.
#[inline(always)]
pub fn read<B: Naming, M: Making>(row: &Row, caller: &mut StandingCaller<B>, event: Event) -> u64
    requires row { IsRow B.table B.opening row.now.table_id row.now.key }
    requires making { M.event ≡ event }
    requires event { IsEvent event }
    requires right { is_of_queue event ≡ true → caller.old.has_queue_right ≡ true }
    requires access { is_access event ≡ true }
    requires within { EndsWithin B.opening event caller.old }
    ensures { ReadsWord B.opening event caller.old result caller.new }
{
    row.load::<Read<B, M>>(&mut caller.place, word_place(event))
}

/// Exchanges the word of an event for another, if it is still the one that is there after the list seen: the event is
/// entered where it was, and else the try is lost.
#[inline(always)]
pub fn exchange<B: Naming, M: Making>(
    row: &Row,
    caller: &mut StandingCaller<B>,
    event: Event,
    old: u64,
    change: Change,
) -> Reply
    requires row { IsRow B.table B.opening row.now.table_id row.now.key }
    requires making { M.event ≡ event }
    requires event { IsEvent event }
    requires within { EndsWithin B.opening event caller.old }
    requires change { IsChange B.opening.max event old change }
    requires word { LeavesWord B.opening caller.old (place_of event) old }
    ensures tried { MakesTry true B.opening None event result caller.old caller.new }
{
    let place = word_place(event);
    let found = row.compare_exchange::<Exchange<B, M>>(&mut caller.place, place, old, change.new);
    if found == old {
        return change.reply;
    }
    Reply::Again
}

/// Stores the word of an event, whatever it was: the event is entered.
#[inline(always)]
pub fn store<B: Naming, M: Making>(
    row: &Row,
    caller: &mut StandingCaller<B>,
    event: Event,
    new: u64,
)
    requires row { IsRow B.table B.opening row.now.table_id row.now.key }
    requires making { M.event ≡ event }
    requires event { IsEvent event }
    requires right { is_of_queue event ≡ true → caller.old.has_queue_right ≡ true }
    requires within { EndsWithin B.opening event caller.old }
    requires makes { IsMadeBy event (λ _. new) }
    ensures { (found : ℕ) × FetchesWord B.opening event caller.old found caller.new }
{
    row.store::<Store<B, M>>(&mut caller.place, word_place(event), new);
}

/// Changes the word of an event by a single exchange, whatever it was, and answers the word found: the event is entered.
#[inline(always)]
pub fn fetch<B: Naming, M: Making>(
    row: &Row,
    caller: &mut StandingCaller<B>,
    event: Event,
    single: Single,
) -> u64
    requires row { IsRow B.table B.opening row.now.table_id row.now.key }
    requires making { M.event ≡ event }
    requires event { IsEvent event }
    requires right { is_of_queue event ≡ true → caller.old.has_queue_right ≡ true }
    requires within { EndsWithin B.opening event caller.old }
    requires makes { IsMadeBy event (after_single single) }
    ensures { FetchesWord B.opening event caller.old result caller.new }
{
    let place = &mut caller.place;
    let word = word_place(event);
    match single {
        Single::Swap(new) => row.swap::<Fetch<B, M>>(place, word, new),
        Single::Add(more) => row.fetch_add::<Fetch<B, M>>(place, word, more),
        Single::And(bits) => row.fetch_and::<Fetch<B, M>>(place, word, bits),
        Single::Or(bits) => row.fetch_or::<Fetch<B, M>>(place, word, bits),
        Single::Xor(bits) => row.fetch_xor::<Fetch<B, M>>(place, word, bits),
    }
}
