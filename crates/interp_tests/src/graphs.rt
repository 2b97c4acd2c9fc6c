//! Small graphs whose answers are known: two threads that spin, lock and wait.
use search_fairness::{Fairness, find_hint, judge};
use search_graph::{Graph, Move, cannot_end, is_graph};
use std::alloc::{AllocError, Global};
use std::test::Fail;
use test_cases::hold;

/// What is to be said of the fair runs.
#[derive(Clone, Copy)]
enum Wanted {
    AllEnd,
    /// A fair run without end: which threads move in it, and how many states it goes through.
    Cycle(&'static [u32], usize),
    /// The same, through some states of several.
    SomeCycle(&'static [u32]),
}

/// The number that a letter spells, from 0 on: those behind 9 are spelled by what comes then in ASCII.
fn number(letter: u8) -> u32 {
    u32::from(letter.wrapping_sub(b'0'))
}

/// The graph of so many states whose moves are spelled so: where it is from, the thread, a or b, and where it leads.
fn spelled(alloc: Global, states: usize, text: &str) -> Result<Graph, AllocError> {
    let mut moves = Vec::new(alloc);
    for word in text.split_ascii_whitespace() {
        if let [from, thread, next] = word.as_bytes() {
            moves.push(Move {
                from: number(*from),
                thread: u32::from(thread.wrapping_sub(b'a')),
                next: number(*next),
            })?;
        }
    }
    Ok(Graph { states, moves })
}

fn is_as_wanted(fairness: &Fairness, wanted: Wanted) -> bool {
    match (fairness, wanted) {
        (Fairness::AllEnd, Wanted::AllEnd) => true,
        (Fairness::Cycle(cycle), Wanted::Cycle(threads, states)) => {
            cycle.threads.as_slice() == threads && cycle.states.len() == states
        }
        (Fairness::Cycle(cycle), Wanted::SomeCycle(threads)) => cycle.threads.as_slice() == threads,
        _ => false,
    }
}

/// Whether that is said of a graph: from which states none that has ended can be reached, and whether each fair run
/// ends. Each thread's moves are spelled, and the states that have ended.
fn says(
    alloc: Global,
    (states, moves, ended): (usize, &str, &str),
    stuck: &[usize],
    wanted: Wanted,
) -> Result<bool, AllocError> {
    let graph = spelled(alloc, states, moves)?;
    let mut marks = vec![in alloc; false; states]?;
    for letter in ended.as_bytes() {
        if let Some(mark) = marks.get_mut(number(*letter) as usize) {
            *mark = true;
        }
    }
    if !is_graph(&graph) || marks.len() != graph.states {
        return Ok(false);
    }
    let found = cannot_end(alloc, &graph, marks.as_slice())?;
    let fairness = judge(alloc, &graph, find_hint(alloc, &graph)?)?;
    Ok(found.as_slice() == stuck && is_as_wanted(&fairness, wanted))
}

/// One spins until the other has gone on.
const SPIN: (usize, &str, &str) = (3, "0a0 0b1 1a2", "2");

/// Each locks and unlocks, by Peterson's two flags and a turn.
const PETERSON: (usize, &str, &str) = (
    38,
    "0a1 0b2 1a3 1b4 2a4 2b5 3a6 3b7 4a7 4b8 5a8 5b9 6a: 6b; 7a< 7b= 8a> 8b? 9a@ 9bA :bB ;aB ;bC <a7 <bD =aD =bE \
     >aF >bG ?aG ?b8 @aH @bI AaI BbJ CaJ CbK DaC DbL EaL Eb= Fa> FbM GaM GbH HaN HbO IaO JbP KaQ KbC LaK LbD MaG \
     MbN NaH NbR OaS PbT QbJ RaO SaU",
    "TU",
);

/// Both take two locks in one order, spinning at each.
const ONE_ORDER: (usize, &str, &str) = (
    12,
    "0a1 0b2 1a3 1b1 2a2 2b4 3a5 3b3 4a4 4b6 5b7 6a8 7b9 8a: 9b; :a;",
    ";",
);

/// They take them in opposite orders: in state 4 each has one, and spins for the other one.
const OPPOSITE: (usize, &str, &str) = (
    13,
    "0a1 0b2 1a3 1b4 2a4 2b5 3a6 3b3 4a4 4b4 5a5 5b7 6b8 7a9 8b: 9a; :b< ;a<",
    "<",
);

/// Likewise, but whoever finds the second one taken gives the first one back and begins again.
const STEPS_BACK: (usize, &str, &str) = (
    18,
    "0a1 0b2 1a3 1b4 2a4 2b5 3a6 3b3 4a7 4b8 5a5 5b9 6b: 7a2 7b; 8a; 8b1 9a< :b= ;a> ;b? <a@ =bA >a8 >b0 ?a0 ?b7 @aA",
    "A",
);

/// One waits for a lock that the other takes and gives back again and again.
const WAITS: (usize, &str, &str) = (4, "0a1 0b2 1a0 2a3", "3");

/// The moves lead to the end one after the other, and the last one comes first.
const CHAIN: (usize, &str, &str) = (13, ";a< :a; 9a: 8a9 7a8 6a7 5a6 4a5 3a4 2a3 1a2 0a1", "<");

#[test]
fn known_graphs_are_judged(rt: HostRuntime) -> Result<(), Fail> {
    let alloc = rt.alloc();
    hold(&[
        ("spin", says(alloc, SPIN, &[], Wanted::AllEnd)?),
        ("Peterson", says(alloc, PETERSON, &[], Wanted::AllEnd)?),
        ("one order", says(alloc, ONE_ORDER, &[], Wanted::AllEnd)?),
        (
            "opposite orders",
            says(alloc, OPPOSITE, &[4], Wanted::Cycle(&[0, 1], 1))?,
        ),
        (
            "steps back",
            says(alloc, STEPS_BACK, &[], Wanted::SomeCycle(&[0, 1]))?,
        ),
        ("waits", says(alloc, WAITS, &[], Wanted::Cycle(&[0], 2))?),
        ("chain", says(alloc, CHAIN, &[], Wanted::AllEnd)?),
        (
            "endless loop",
            says(alloc, (2, "0a1 1a0", ""), &[0, 1], Wanted::Cycle(&[0], 2))?,
        ),
        (
            "stopped for good",
            says(alloc, (2, "0a1", ""), &[0, 1], Wanted::AllEnd)?,
        ),
        ("no states", says(alloc, (0, "", ""), &[], Wanted::AllEnd)?),
    ])
}
