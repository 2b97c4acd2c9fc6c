//! Rows of marks, and lists of numbers.
ghost use Rattle.std.specs.Prelude.{◌≡◌, ◌↔◌, IsTrue, All, slice_index_or, false};
ghost use Rattle.search_graph.specs.Graph.{IsMarked};
ghost use Rattle.search_ample.specs.Certificate.{row_at, Includes, AreDisjoint};

use types::Sequence;

/// Whether the number is marked. What there is no mark for is not.
pub(crate) fn is_marked(row: &[bool], number: usize) -> bool
    ensures { result ≡ slice_index_or row.now number false }
{
    match row.get(number) {
        Some(mark) => *mark,
        None => false,
    }
}

/// The row of this index, or an empty one.
pub(crate) fn marks_at(rows: &[Sequence<bool>], at: usize) -> &[bool]
    ensures { result.now ≡ row_at rows.now at }
{
    match rows.get(at) {
        Some(row) => row.as_slice(),
        None => &[],
    }
}

/// The numbers of this index, or none.
pub(crate) fn numbers_at(rows: &[Sequence<u32>], at: usize) -> &[u32]
    ensures { result.now ≡ row_at rows.now at }
{
    match rows.get(at) {
        Some(row) => row.as_slice(),
        None => &[],
    }
}

/// Whether what the other row marks this one does.
pub(crate) fn includes(row: &[bool], other: &[bool]) -> bool
    ensures { IsTrue result ↔ Includes row.now other.now }
{
    for number in 0..other.len() {
        if other[number] && !is_marked(row, number) {
            return false;
        }
    }
    true
}

/// Whether the rows mark nothing in common.
pub(crate) fn are_disjoint(row: &[bool], other: &[bool]) -> bool
    ensures { IsTrue result ↔ AreDisjoint row.now other.now }
{
    for number in 0..row.len() {
        if row[number] && is_marked(other, number) {
            return false;
        }
    }
    true
}

/// Whether each of these numbers is marked.
pub(crate) fn are_all_marked(numbers: &[u32], row: &[bool]) -> bool
    ensures { IsTrue result ↔ All (IsMarked row.now) numbers.now }
{
    numbers
        .iter()
        .all(|number| is_marked(row, *number as usize))
}

/// Whether the rows of these indices have nothing in common with this one.
pub(crate) fn are_all_disjoint(rows: &[Sequence<bool>], indices: &[u32], row: &[bool]) -> bool
    ensures { IsTrue result ↔ All (λ k. AreDisjoint (row_at rows.now k) row.now) indices.now }
{
    indices
        .iter()
        .all(|index| are_disjoint(marks_at(rows, *index as usize), row))
}
