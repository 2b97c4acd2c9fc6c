//! The parts of a module, section by section.

use crate::instr::Instr;
use crate::sequence::{Name, Sequence};
use crate::value::ValType;

/// Sizes of a table in elements or of a memory in pages (Core specification 1.0, section 2.3.4; threads proposal,
/// section "Shared linear memory").
#[derive(Clone, Copy)]
pub struct Limits {
    pub min: u32,
    pub max: Option<u32>,
    pub shared: bool,
}

/// The type of a function (Core specification 1.0, section 2.3.3).
#[derive(PartialEq, Eq, Drop)]
pub struct FuncType {
    pub params: Sequence<ValType>,
    pub results: Sequence<ValType>,
}

/// The type of a global (Core specification 1.0, section 2.3.6).
#[derive(Clone, Copy)]
pub struct GlobalType {
    pub val_type: ValType,
    pub mutable: bool,
}

/// An import (Core specification 1.0, section 2.5.11).
#[derive(Drop)]
pub struct Import {
    pub module: Name,
    pub name: Name,
    pub desc: ImportDesc,
}

/// What is imported.
#[derive(Clone, Copy)]
pub enum ImportDesc {
    /// A function, with the index of its type.
    Func(u32),
    Table(Limits),
    Memory(Limits),
    Global(GlobalType),
}

/// An export (Core specification 1.0, section 2.5.10).
#[derive(Drop)]
pub struct Export {
    pub name: Name,
    pub desc: ExportDesc,
}

/// What is exported, by its index.
#[derive(Clone, Copy, Debug)]
pub enum ExportDesc {
    Func(u32),
    Table(u32),
    Memory(u32),
    Global(u32),
}

/// A global with its initial expression (Core specification 1.0, section 2.5.6).
#[derive(Drop)]
pub struct Global {
    pub global_type: GlobalType,
    pub init: Sequence<Instr>,
}

/// An element segment: functions, by index, that are put into a table (Core specification 1.0, section 2.5.7).
#[derive(Drop)]
pub struct ElementSegment {
    pub table: u32,
    pub offset: Sequence<Instr>,
    pub functions: Sequence<u32>,
}

/// A data segment: bytes that are put into a memory (Core specification 1.0, section 2.5.8).
#[derive(Drop)]
pub struct DataSegment {
    pub memory: u32,
    pub offset: Sequence<Instr>,
    pub bytes: Sequence<u8>,
}

/// A function's body (Core specification 1.0, section 2.5.3).
#[derive(Drop)]
pub struct Body {
    /// The types of the locals that aren't parameters, written out.
    pub locals: Sequence<ValType>,
    /// The flat code, with its final `End`.
    pub code: Sequence<Instr>,
}

/// A module's parts: one list for each section other than custom (Core specification 1.0, section 5.5), and the length
/// of its text.
#[derive(Drop)]
pub struct Parts {
    pub types: Sequence<FuncType>,
    pub imports: Sequence<Import>,
    /// The index of each function's type.
    pub functions: Sequence<u32>,
    pub tables: Sequence<Limits>,
    pub memories: Sequence<Limits>,
    pub globals: Sequence<Global>,
    pub exports: Sequence<Export>,
    /// The index of the start function.
    pub start: Option<u32>,
    pub elements: Sequence<ElementSegment>,
    pub bodies: Sequence<Body>,
    pub data: Sequence<DataSegment>,
    /// The bytes of the binary module, at most 1,048,576.
    pub length: u32,
}
