//! What a run is made of: modules and their instructions, values, the events by which a thread reaches the shared
//! memory and the desk, the replies to them, the entries of a history, and the outcomes of threads.
//!
//! Proved: `Module::from_parts` makes a module exactly of parts within the limits, with nested code and a body each. A
//! limit on a section's size in bytes is none of these. What is written of values, traps, stops and outcomes is exact,
//! and so are the numbers of traps and stops, and the widths and types of accesses.
#![tactic(auto)]

mod event;
mod instr;
mod limits;
mod module;
mod nesting;
mod operators;
mod outcome;
mod parts;
mod sequence;
mod value;
mod within;

pub use event::{Answer, Entry, Event, Question, Reply, RmwOp};
pub use instr::{BlockType, Instr, PlainInstr};
pub use limits::{
    DESK_NAME, MOST_BODY_BYTES, MOST_ELEMENTS, MOST_FRAMES, MOST_FUEL, MOST_FUNCTIONS, MOST_ITEMS,
    MOST_LIMIT, MOST_LOCALS, MOST_MODULE_BYTES, MOST_NESTED, MOST_PAGES, MOST_PARAMS, MOST_SPAWNED,
    MOST_THREADS, MOST_VALUES, PAGE_SIZE, PAST_LIMIT, SEATS,
};
pub use module::Module;
pub use operators::{
    AccessWidth, AtomicOp, BinaryOp, CompareOp, ConvertOp, LoadOp, MemArg, NarrowWidth,
    NumericInstr, UnaryOp,
};
pub use outcome::{Outcome, Stop, ThreadReport, Trap};
pub use parts::{
    Body, DataSegment, ElementSegment, Export, ExportDesc, FuncType, Global, GlobalType, Import,
    ImportDesc, Limits, Parts,
};
pub use sequence::{Labels, Name, Sequence};
pub use value::{ValType, Value};
pub use within::{imported_functions, param_count};
