//! Ways from the first state, by the moves that were noted.
ghost use Rattle.std.specs.Prelude.{◌≡◌, ◌+◌, ◌<◌, IfOk, length, vec_len};
ghost use Rattle.search_reach.specs.Moved.{
  IsChoiceOf,
  AreChoicesOf,
  AreWaysIn,
  IsMoveTo,
  IsPathTo,
  ArePathsTo,
};

use search_graph::Move;
use std::alloc::{AllocError, Global};

/// Notes the place of a move where it is the first that leads to its state from one of a lower number.
fn note_way(moves: &[Move], ways: &mut Vec<usize>, place: usize)
    requires within { place < length moves.now }
    requires ways { AreWaysIn moves.now place ways.old.items }
    ensures ways { AreWaysIn moves.now (place + 1) ways.new.items }
    ensures len { vec_len ways.new ≡ vec_len ways.old }
{
    let m = moves[place];
    let to = m.next as usize;
    if m.next <= m.from || to >= ways.len() {
        return;
    }
    if ways[to] == moves.len() {
        ways[to] = place;
    }
}

/// For each of so many states the first move that leads there from one of a lower number, by its place, or a number that
/// is none's.
pub(crate) fn ways_in(
    alloc: Global,
    states: usize,
    moves: &[Move],
) -> Result<Vec<usize>, AllocError>
    ensures ways { IfOk result (λ ways. AreWaysIn moves.now (length moves.now) ways.items) }
    ensures len { IfOk result (λ ways. vec_len ways ≡ states) }
{
    let mut ways = vec![in alloc; moves.len(); states]?;
    for place in 0..moves.len() {
        note_way(moves, &mut ways, place);
    }
    Ok(ways)
}

/// Which of the moves from its state the move of this place is: the moves from a state stand together.
fn choice_of(moves: &[Move], place: usize) -> usize
    ensures { IsChoiceOf moves.now place result }
{
    let Some(m) = moves.get(place) else {
        return 0;
    };
    let mut choice: usize = 0;
    while choice < place {
        if moves[place - choice - 1].from != m.from {
            return choice;
        }
        choice += 1;
    }
    choice
}

/// The choices of the moves of these places.
pub(crate) fn choices_of(
    alloc: Global,
    moves: &[Move],
    places: &[u32],
) -> Result<Vec<usize>, AllocError>
    ensures { IfOk result (λ choices. AreChoicesOf moves.now places.now choices.items) }
{
    let mut choices = Vec::with_capacity(alloc, places.len())?;
    for place in places {
        choices.push(choice_of(moves, *place as usize))?;
    }
    Ok(choices)
}

/// The place of the first move that leads to the state of this number, if one does.
fn move_to(moves: &[Move], ways: &[usize], state: usize) -> Option<usize>
    requires { AreWaysIn moves.now (length moves.now) ways.now }
    ensures { IsMoveTo moves.now (length ways.now) state result }
{
    let Some(place) = ways.get(state) else {
        return None;
    };
    if *place == moves.len() {
        return None;
    }
    Some(*place)
}

/// The choices by which the state of this number was met, the first one first.
pub(crate) fn path_to(
    alloc: Global,
    moves: &[Move],
    ways: &[usize],
    state: usize,
) -> Result<Vec<usize>, AllocError>
    requires { AreWaysIn moves.now (length moves.now) ways.now }
    ensures { IfOk result (λ path. IsPathTo moves.now (length ways.now) path.items state) }
{
    let mut path = Vec::new(alloc);
    let mut at = state;
    while let Some(place) = move_to(moves, ways, at) {
        path.push(choice_of(moves, place))?;
        at = moves[place].from as usize;
    }
    path.reverse();
    Ok(path)
}

/// The same of some states.
pub(crate) fn paths_to(
    alloc: Global,
    moves: &[Move],
    ways: &[usize],
    states: &[usize],
) -> Result<Vec<Vec<usize>>, AllocError>
    requires { AreWaysIn moves.now (length moves.now) ways.now }
    ensures paths { IfOk result (λ paths. ArePathsTo moves.now (length ways.now) paths.items states.now) }
    ensures len { IfOk result (λ paths. vec_len paths ≡ length states.now) }
{
    let mut paths = Vec::new(alloc);
    for state in states {
        let path = path_to(alloc, moves, ways, *state)?;
        paths.push(path)?;
    }
    Ok(paths)
}
