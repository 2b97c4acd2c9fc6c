//! Priorities that change at few points (Burckhardt, Kothari, Musuvathi, Nagarakatte: A randomized scheduler with
//! probabilistic guarantees of finding bugs. ASPLOS 2010).
ghost use Rattle.std.specs.Prelude.{◌≡◌, ◌<◌, ◌≤◌, ◌+◌, ◌-◌, [], length, slice_index, slice_set, IfSome};
ghost use Rattle.selection.specs.declared.way.TheConstants.{MOST_DEPTH};
ghost use Rattle.search_strategies.specs.Places.{ChoosesBy};
ghost use Rattle.search_strategies.specs.Priorities.{priorities_of, by_priority, fall};
ghost use Rattle.std.specs.List.{range_with_len};
ghost use Rattle.types.specs.declared.limits.TheConstants.{MOST_THREADS};
ghost use Rattle.search_strategies.specs.Priorities as specified;

use crate::draws::Draws;
use crate::strategy::Strategy;
use arrayvec::ArrayVec;
use selection::MOST_DEPTH;
use std::marker::Model;
use types::{Entry, MOST_THREADS};

/// How many points of change there are at most.
const CHANGES: usize = MOST_DEPTH as usize - 1;

/// How many events a thread makes in a row, while others could go on, before it is put behind all.
const PATIENCE: u32 = 200;

/// The rank below those that are drawn and those of points of change: a thread that is put behind all gets a lower one.
const FLOOR: u32 = 1 << 31;

/// The thread with the highest rank goes on, of those that can. The ranks are drawn at the beginning; at each of `depth
/// - 1` points of change, drawn among so many events, the thread that would go on falls below all that didn't. One that
/// has made 200 events in a row falls behind all others: so nobody waits in a loop for good.
#[derive(Drop)]
pub struct Pct {
    ranks: [u32; MOST_THREADS],
    changes: ArrayVec<u32, CHANGES>,
    /// How many events were made.
    made: u32,
    /// The lowest rank so far.
    lowest: u32,
    /// Who made the last event, and how many in a row.
    last: u32,
    in_a_row: u32,
}

impl Model for Pct {
    ghost use Rattle.search_strategies.specs.Priorities.{Priorities};

    ghost Value = { Priorities };

    ghost view = { λ p. record {
      ranks = p.ranks;
      changes = p.changes.items;
      made = p.made;
      lowest = p.lowest;
      last = p.last;
      in_a_row = p.in_a_row;
    } };
}

impl Pct {
    /// Run number `run` of a seed, with a depth of 1 to 32 (`MOST_DEPTH`), and points of change among the first
    /// `events` events, 1 at least.
    pub fn new(seed: u64, run: u64, depth: u32, events: u32) -> Pct
        requires depth { depth ≤ MOST_DEPTH }
        requires events { 0 < events }
        ensures { result ≡ priorities_of seed run depth events }
    {
        let mut draws = Draws::new(seed, run);
        let ranks = drawn_ranks(&mut draws);
        let changes = drawn_changes(&mut draws, depth, events);
        Pct {
            ranks,
            changes,
            made: 0,
            lowest: FLOOR,
            last: 0,
            in_a_row: 0,
        }
    }

    /// The rank below all to which a thread falls that made too many events in a row, unless it is alone.
    fn tire(&mut self, alone: bool) -> Option<u32>
        ensures { ChoosesBy (λ s ready. specified.tired s alone) self.old [] result self.new }
    {
        if self.in_a_row <= PATIENCE || alone {
            return None;
        }
        self.in_a_row = 0;
        self.lowest = self.lowest.saturating_sub(1);
        Some(self.lowest)
    }

    /// The rank to which the thread falls that would make the next event, if it does.
    fn fall(&mut self, thread: u32, alone: bool) -> Option<u32>
        ensures { ChoosesBy (λ s ready. fall s thread alone) self.old [] result self.new }
    {
        if let Some(point) = point_at(&self.changes, self.made) {
            return Some(FLOOR + 1 + point as u32);
        }
        self.in_a_row = turns(thread, self.last, self.in_a_row);
        self.last = thread;
        self.tire(alone)
    }

    /// The place of the thread that makes the next event, where the one at a place had the highest rank, and falls or
    /// doesn't.
    fn named(&mut self, ready: &[u32], place: usize, fall: Option<u32>) -> Option<usize>
        requires { place < length ready.now }
        ensures place { IfSome result (λ place. place < length ready.now) }
        ensures chosen { ChoosesBy (λ s ready. specified.fallen place ready (fall, s)) self.old ready.now result self.new }
    {
        self.made = self.made.saturating_add(1);
        let Some(rank) = fall else {
            return Some(place);
        };
        set_rank(&mut self.ranks, ready[place], rank);
        Some(highest(&self.ranks, ready))
    }
}

/// Gives a thread another rank.
fn set_rank(ranks: &mut [u32], thread: u32, rank: u32)
    ensures { ranks.new ≡ slice_set ranks.old thread rank }
{
    let thread = thread as usize;
    if thread < ranks.len() {
        ranks[thread] = rank;
    }
}

/// The first of the points of change that lies behind so many events, if one does.
fn point_at(changes: &[u32], made: u32) -> Option<usize>
    ensures place { IfSome result (λ point. point < length changes.now) }
    ensures value { result ≡ specified.point_at changes.now made }
{
    changes.iter().position(|change| *change == made)
}

/// How many events in a row a thread will have made with the next one.
fn turns(thread: u32, last: u32, in_a_row: u32) -> u32
    ensures { result ≡ specified.turns thread last in_a_row }
{
    let before = if thread == last { in_a_row } else { 0 };
    before.saturating_add(1)
}

/// Points of change, one fewer than the depth, among so many events.
fn drawn_changes(draws: &mut Draws, depth: u32, events: u32) -> ArrayVec<u32, CHANGES>
    requires depth { depth ≤ MOST_DEPTH }
    requires events { 0 < events }
    ensures { result.items ≡ specified.drawn_numbers (depth - 1) events draws.old }
{
    let mut changes = ArrayVec::new();
    for _ in 1..depth {
        changes.push(draws.below(events));
    }
    changes
}

/// The ranks of all threads in order, above those of points of change.
fn first_ranks() -> [u32; MOST_THREADS]
    ensures { result ≡ range_with_len (specified.base_rank + 33) MOST_THREADS }
{
    let mut ranks = [0; MOST_THREADS];
    for (place, rank) in ranks.iter_mut().enumerate() {
        *rank = FLOOR + 33 + place as u32;
    }
    ranks
}

/// Puts ranks into an order that is drawn: each from the second on changes places with one of those up to it.
fn shuffle(ranks: &mut [u32], draws: &mut Draws)
    requires { length ranks.old ≡ MOST_THREADS }
    ensures { (ranks.new, draws.new) ≡ specified.shuffled (MOST_THREADS - 1) 1 (ranks.old, draws.old) }
{
    for place in 1..MOST_THREADS {
        let other = draws.below(place as u32 + 1) as usize;
        ranks.swap(place, other);
    }
}

/// The ranks of all threads in an order that is drawn.
#[tactic(auto, unfolding(crate::specs::Priorities::drawn_ranks))]
fn drawn_ranks(draws: &mut Draws) -> [u32; MOST_THREADS]
    ensures { (result, draws.new) ≡ specified.drawn_ranks draws.old }
{
    let mut ranks = first_ranks();
    shuffle(&mut ranks, draws);
    ranks
}

/// The rank of a thread, of 64.
fn rank_of(ranks: &[u32; MOST_THREADS], thread: u32) -> u32
    ensures { result ≡ slice_index ranks.now thread }
{
    ranks.get(thread as usize).copied().unwrap_or(0)
}

/// The highest rank of those that can go on.
fn highest_rank(ranks: &[u32; MOST_THREADS], ready: &[u32]) -> u32
    ensures { result ≡ specified.highest_rank ranks.now ready.now }
{
    ready
        .iter()
        .fold(0, |top: u32, thread| top.max(rank_of(ranks, *thread)))
}

/// The first place of one with this rank, if one has it.
fn place_with(ranks: &[u32; MOST_THREADS], ready: &[u32], rank: u32) -> Option<usize>
    ensures place { IfSome result (λ place. place < length ready.now) }
    ensures value { result ≡ specified.place_with ranks.now ready.now rank }
{
    ready
        .iter()
        .position(|thread| rank_of(ranks, *thread) == rank)
}

/// The place of the thread with the highest rank, of the first ones where two have it.
fn highest(ranks: &[u32; MOST_THREADS], ready: &[u32]) -> usize
    requires { 0 < length ready.now }
    ensures place { result < length ready.now }
    ensures value { result ≡ specified.highest ranks.now ready.now }
{
    let top = highest_rank(ranks, ready);
    place_with(ranks, ready, top).unwrap_or(0)
}

impl Strategy for Pct {
    ghost chooses = { ChoosesBy by_priority };

    ghost hears = { λ before entry after. after ≡ before };

    fn choose(&mut self, ready: &[u32]) -> Option<usize> {
        let place = highest(&self.ranks, ready);
        let thread = ready[place];
        let fall = self.fall(thread, ready.len() == 1);
        self.named(ready, place, fall)
    }

    fn hear(&mut self, _entry: &Entry) {}
}
