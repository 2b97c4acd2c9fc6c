//! The rules of types, functions, tables and memories.

ghost use Rattle.std.specs.Prelude.{◌≡◌, length, nat_le, nat_lt, ◌&&◌, not};
ghost use Rattle.std.specs.List.{list_all};
ghost use Rattle.validate_module_rules.specs.Faults.{unless, types_fault, tables_fault, memories_fault, memory_fault};
ghost use Rattle.validate_module_rules.specs.Faults.{is_ordered};

use types::{FuncType, Limits};
use validate_typing::Fault;

/// A fault where a test fails.
pub fn unless(passes: bool, fault: Fault) -> Option<Fault>
    ensures { result ≡ unless passes fault }
{
    if passes { None } else { Some(fault) }
}

/// Whether each of these indices is below a number.
pub fn are_below(indices: &[u32], number: usize) -> bool
    ensures { result ≡ list_all (λ index. nat_lt index number) indices.now }
{
    indices.iter().all(|index| (*index as usize) < number)
}

fn have_one_result(types: &[FuncType]) -> bool
    ensures { result ≡ list_all (λ t. nat_le (length t.results) 1) types.now }
{
    types.iter().all(|func_type| func_type.results.len() <= 1)
}

/// The fault of the function types: one with several results.
pub fn fault_of_types(types: &[FuncType]) -> Option<Fault>
    ensures { result ≡ types_fault types.now }
{
    unless(have_one_result(types), Fault::MoreThanOne)
}

/// Whether the minimum doesn't pass the maximum.
fn is_ordered(limits: &Limits) -> bool
    ensures { result ≡ is_ordered limits.now }
{
    match limits.max {
        Some(max) => limits.min <= max,
        None => true,
    }
}

fn are_plain(tables: &[Limits]) -> bool
    ensures { result ≡ list_all (λ l. is_ordered l && not l.shared) tables.now }
{
    tables
        .iter()
        .all(|limits| is_ordered(limits) && !limits.shared)
}

/// The fault of the tables: more than one, or one that is shared or whose minimum passes its maximum.
pub fn fault_of_tables(tables: &[Limits]) -> Option<Fault>
    ensures { result ≡ tables_fault tables.now }
{
    if tables.len() > 1 {
        return Some(Fault::MoreThanOne);
    }
    unless(are_plain(tables), Fault::Limits)
}

fn fault_of_memory(limits: &Limits) -> Option<Fault>
    ensures { result ≡ memory_fault limits.now }
{
    if limits.shared && limits.max.is_none() {
        return Some(Fault::SharedWithoutMaximum);
    }
    unless(is_ordered(limits), Fault::Limits)
}

/// The fault of all memories, imported ones among them: more than one, or one that is shared without a maximum or whose
/// minimum passes its maximum.
pub fn fault_of_memories(memories: &[Limits]) -> Option<Fault>
    ensures { result ≡ memories_fault memories.now }
{
    if memories.len() > 1 {
        return Some(Fault::MoreThanOne);
    }
    for limits in memories {
        let fault = fault_of_memory(limits);
        if fault.is_some() {
            return fault;
        }
    }
    None
}
