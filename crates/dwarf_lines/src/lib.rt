//! Lines of source of a module's code, from its custom section `.debug_line` (DWARF 4 and 5, section 6.2, of 32 bits).
//!
//! Proved: `read_lines` ends on every input; the sections are the first of their names, and empty only where there is
//! none; `LineTable::at` is the first range that has the offset; `Sources::line` is the line of the first file of its name.
//!
//! Nothing is asked of the section: what can't be read gives no line.
#![tactic(auto)]

mod files;
mod header;
mod program;
mod sources;
mod table;
mod unit;

pub use files::{Files, read_files};
pub use header::Source;
pub use sources::{SourceFile, Sources};
pub use table::{DebugSections, LineTable, Range, read_lines};
