//! Bytes that are laid over the memory with which the run of a module begins.
ghost use Rattle.std.specs.Prelude.{◌≡◌, ◌+◌, ◌∷◌, [], ◌++◌, nat_le, length, None, IfOk};
ghost use Rattle.std.specs.List.{slice_get};
ghost use Rattle.validate_typing.specs.Context.{memories_of};
ghost use Rattle.report_memory.specs.Laid as specified;
ghost use Rattle.report_memory.specs.Laid.{segment_at};

use std::alloc::{AllocError, Global};
use types::{
    DataSegment, Instr, Limits, MOST_ITEMS, Module, PAGE_SIZE, Parts, PlainInstr, Sequence,
};
use validate_module_rules::IndexSpaces;

/// Why bytes can't be laid over a module's opening memory.
#[derive(Clone, Copy, PartialEq, Eq, Debug)]
pub enum Unlaid {
    /// The module has no memory.
    Nowhere,
    /// They don't lie within its opening pages, which have so many bytes.
    Outside(usize),
    /// It has as many data segments as a module can have.
    Segments,
}

fn memory_of(alloc: Global, parts: &Parts) -> Result<Option<Limits>, AllocError>
    ensures { IfOk result (λ memory. memory ≡ slice_get (memories_of parts.now) 0) }
{
    let spaces = IndexSpaces::of(alloc, parts)?;
    Ok(spaces.memories.first().copied())
}

/// Whether so many bytes from an address on lie within the first bytes, which are as many.
fn lies_within(addr: u32, count: usize, room: usize) -> bool
    ensures { result ≡ nat_le (addr + count) room }
{
    count <= room && addr as usize <= room - count
}

/// Why so many bytes can't be laid over a memory from an address on, in a module with so many data segments.
fn unlaid_in(memory: Option<Limits>, segments: usize, addr: u32, count: usize) -> Option<Unlaid>
    ensures { result ≡ specified.unlaid_in memory segments addr count }
{
    let Some(limits) = memory else {
        return Some(Unlaid::Nowhere);
    };
    let room = PAGE_SIZE * limits.min as usize;
    if !lies_within(addr, count, room) {
        return Some(Unlaid::Outside(room));
    }
    if segments < MOST_ITEMS {
        None
    } else {
        Some(Unlaid::Segments)
    }
}

/// Why so many bytes can't be laid over a module's opening memory from an address on; `None` where they can.
///
/// # Errors
/// Where memory is refused.
pub fn why_unlaid(
    alloc: Global,
    module: &Module,
    addr: u32,
    count: usize,
) -> Result<Option<Unlaid>, AllocError>
    ensures { IfOk result (λ why. why ≡ specified.unlaid «module».now addr count) }
{
    let parts = module.parts();
    let memory = memory_of(alloc, parts)?;
    Ok(unlaid_in(memory, parts.data.len(), addr, count))
}

/// The data segment with which bytes are laid from an address on.
fn segment_of(alloc: Global, addr: u32, bytes: &[u8]) -> Result<DataSegment, AllocError>
    ensures { IfOk result (λ segment. segment ≡ segment_at addr bytes.now) }
{
    let mut offset = Vec::with_capacity(alloc, 2)?;
    offset.push(Instr::Plain(PlainInstr::I32Const(addr)))?;
    offset.push(Instr::End)?;
    Ok(DataSegment {
        memory: 0,
        offset: Sequence::from_vec(offset),
        bytes: Sequence::from_vec(Vec::from_slice(alloc, bytes)?),
    })
}

/// These data segments and one more behind them.
fn added(
    segments: Sequence<DataSegment>,
    segment: DataSegment,
) -> Result<Sequence<DataSegment>, AllocError>
    ensures { IfOk result (λ all. all ≡ segments ++ segment ∷ []) }
{
    let mut all = segments.into_vec();
    all.push(segment)?;
    Ok(Sequence::from_vec(all))
}

/// These parts with other data segments.
fn with_segments(parts: Parts, segments: Sequence<DataSegment>) -> Parts
    ensures { result ≡ record parts { «data» = segments } }
{
    Parts {
        data: segments,
        ..parts
    }
}

/// The module with one more data segment, behind its own, which lays the bytes over its opening memory from the address
/// on.
///
/// # Errors
/// Where memory is refused.
pub fn laid(alloc: Global, module: Module, addr: u32, bytes: &[u8]) -> Result<Module, AllocError>
    requires { specified.unlaid «module» addr (length bytes.now) ≡ None }
    ensures { IfOk result (λ with_bytes. with_bytes ≡ specified.laid «module» addr bytes.now) }
{
    let segment = segment_of(alloc, addr, bytes)?;
    let mut parts = module.into_parts();
    let none = Sequence::from_vec(Vec::new(alloc));
    let own = std::mem::replace(&mut parts.data, none);
    let segments = added(own, segment)?;
    match Module::from_parts(with_segments(parts, segments)) {
        Ok(module) => Ok(module),
        Err(_) => unreachable!(),
    }
}
