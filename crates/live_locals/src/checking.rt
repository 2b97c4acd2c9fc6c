//! The checker of tables.

ghost use Rattle.std.specs.Prelude.{◌≡◌, ◌+◌, ◌<◌, ◌^◌, ◌↔◌, ◌⊎◌, ℕ, Some, IsTrue, length};
ghost use Rattle.std.specs.List.{Contains};
ghost use Rattle.validate_typing.specs.declared.target.Target.{Target};
ghost use Rattle.live_locals.specs.Live.{IsLive, IsSound, Covers, GoesTo, row_at, read_by, written_by};

use crate::instructions::{has_next, local_read, local_written};
use crate::rows::{is_live, row_at};
use types::{Instr, Sequence};
use validate_typing::{Table, Target};

/// Whether it is this local that is written.
fn is_written(written: Option<u32>, local: usize) -> bool
    ensures { IsTrue result ↔ (written ≡ Some local) }
{
    match written {
        Some(to) => to as usize == local,
        None => false,
    }
}

/// Whether what is live behind an instruction is live before it, but for what it writes.
fn covers(row: &[bool], behind: &[bool], written: Option<u32>) -> bool
    ensures accepts { IsTrue result → Covers row.now behind.now written }
    ensures refuses { Covers row.now behind.now written → IsTrue result }
{
    for local in 0..row.len() {
        if !row[local] && is_live(behind, local) && !is_written(written, local) {
            return false;
        }
    }
    true
}

/// Whether a row covers those of all places where targets lead, but for what is written.
fn covers_targets(
    row: &[bool],
    rows: &[Sequence<bool>],
    targets: &[Target],
    written: Option<u32>,
) -> bool
    ensures accepts { IsTrue result → (t : Target) → Contains targets.now t
        → Covers row.now (row_at rows.now t.to) written }
    ensures refuses { ((t : Target) → Contains targets.now t → Covers row.now (row_at rows.now t.to) written)
        → IsTrue result }
{
    for target in targets {
        if !covers(row, row_at(rows, target.to as usize), written) {
            return false;
        }
    }
    true
}

/// Whether what an instruction reads is live before it.
fn reads_live(instr: &Instr, row: &[bool]) -> bool
    ensures accepts { IsTrue result → (local : ℕ) → read_by instr.now ≡ Some local → IsLive row.now local }
    ensures refuses { ((local : ℕ) → read_by instr.now ≡ Some local → IsLive row.now local) → IsTrue result }
{
    match local_read(instr) {
        Some(local) => is_live(row, local as usize),
        None => true,
    }
}

/// Whether the row of an instruction's place covers those of all places where it may go.
fn covers_all(instr: &Instr, targets: &[Target], rows: &[Sequence<bool>], place: usize) -> bool
    requires { place + 1 < 2 ^ 64 }
    ensures accepts { IsTrue result → (next : ℕ) → GoesTo instr.now targets.now place next
        → Covers (row_at rows.now place) (row_at rows.now next) (written_by instr.now) }
    ensures refuses { ((next : ℕ) → GoesTo instr.now targets.now place next
        → Covers (row_at rows.now place) (row_at rows.now next) (written_by instr.now)) → IsTrue result }
{
    let row = row_at(rows, place);
    let written = local_written(instr);
    if has_next(instr) && !covers(row, row_at(rows, place + 1), written) {
        return false;
    }
    covers_targets(row, rows, targets, written)
}

/// The targets of an instruction.
fn targets_at(table: &Table, place: usize) -> &[Target]
    ensures { result.now ≡ row_at table.now place }
{
    match table.row(place) {
        Some(row) => row,
        None => &[],
    }
}

/// Whether a table of marks is sound for code with its table of branches. Whoever made it is not trusted.
pub fn is_sound(code: &[Instr], table: &Table, rows: &[Sequence<bool>]) -> bool
    ensures accepts { IsTrue result → IsSound code.now table.now rows.now }
    ensures refuses { IsSound code.now table.now rows.now → IsTrue result }
{
    for place in 0..code.len() {
        let instr = &code[place];
        if !reads_live(instr, row_at(rows, place)) {
            return false;
        }
        if !covers_all(instr, targets_at(table, place), rows, place) {
            return false;
        }
    }
    true
}
