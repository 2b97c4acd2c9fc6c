//! Clearing dead locals.

ghost use Rattle.std.specs.Prelude.{◌≡◌, if◌then◌else◌};
ghost use Rattle.std.specs.List.{fold};
ghost use Rattle.live_locals.specs.Live.{is_live_by};
ghost use Rattle.live_kept.specs.Cleared.{cleared, cleared_at};
ghost use Rattle.live_kept.specs.Clearing.{IsClearedOf, StandsForAlike};

use interp::Kept;
use interp_state::Caller;
use live_locals::{LiveTables, is_live};

/// A word by a row of marks: 0 where its local is dead.
fn word_by(row: &[bool], local: usize, word: u64) -> u64
    ensures { result ≡ (if is_live_by row.now local then word else 0) }
{
    if is_live(row, local) { word } else { 0 }
}

/// Clears words that are dead by a row of marks.
fn clear(row: &[bool], words: &mut [u64])
    ensures { words.new ≡ cleared row.now words.old }
{
    for local in 0..words.len() {
        words[local] = word_by(row, local, words[local]);
    }
}

/// Clears the locals of one open function that are dead where it goes on.
fn clear_open(tables: &LiveTables, words: &mut [u64], caller: Caller)
    ensures { words.new ≡ cleared_at tables.now words.old caller }
{
    if caller.base <= caller.operands && caller.operands <= words.len() {
        clear(
            tables.row(caller.function, caller.pc),
            &mut words[caller.base..caller.operands],
        );
    }
}

/// Clears those of all calling functions.
fn clear_callers(tables: &LiveTables, words: &mut [u64], callers: &[Caller])
    ensures { words.new ≡ fold (cleared_at tables.now) words.old callers.now }
{
    for caller in callers {
        clear_open(tables, words, *caller);
    }
}

/// Clears those of all open functions of a thread.
fn clear_all(tables: &LiveTables, kept: &mut Kept)
    ensures { IsClearedOf tables.now kept.old kept.new }
{
    let running = Caller {
        function: kept.function,
        pc: kept.pc,
        base: kept.base,
        operands: kept.operands,
        results: kept.results,
    };
    clear_callers(tables, kept.values.as_mut_slice(), kept.callers.as_slice());
    clear_open(tables, kept.values.as_mut_slice(), running);
}

/// Clears the locals of a thread that are dead at the places of its open functions: their words become 0.
pub fn clear_dead(tables: &LiveTables, kept: &mut Kept)
    ensures cleared { IsClearedOf tables.now kept.old kept.new }
    ensures alike { StandsForAlike tables.now kept.old kept.new }
{
    clear_all(tables, kept);
}
