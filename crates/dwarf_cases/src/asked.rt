//! What is asked of a module, by the key of a case.

use crate::data::{write_data, write_sought};
use crate::frames::{write_inlined, write_variables};
use crate::lines::{write_cut_lines, write_directories, write_lines, write_short};
use crate::names::{write_exports, write_names};
use crate::places::{write_cut_places, write_places};
use crate::spoiled::{write_changed_info, write_cut_info};
use std::alloc::{AllocError, Global};
use test_cases::Case;

/// What is asked of a module.
#[derive(Clone, Copy)]
enum Asked {
    /// The lines of source at offsets of the code.
    Lines,
    /// The directories of these.
    Directories,
    /// The lines where the sections of debug information are cut.
    CutLines,
    /// The lines of fronts of so many bytes.
    Short,
    /// The names of functions with these numbers.
    Names,
    /// The same where there is no section of names.
    Exports,
    /// Where the instructions of the bodies stand.
    Places,
    /// The same where the code section is cut.
    CutPlaces,
    /// The names of addresses from one up to another.
    Data,
    /// The calls of functions that were put in their places, at offsets of the code.
    Inlined,
    /// The variables in scope at offsets of the code.
    Variables,
    /// All of these where a section of debug information is cut, or one of its bytes is another.
    CutInfo,
    ChangedInfo,
}

static KEYS: [(&str, Asked); 13] = [
    ("lines", Asked::Lines),
    ("directories", Asked::Directories),
    ("cut-lines", Asked::CutLines),
    ("short", Asked::Short),
    ("names", Asked::Names),
    ("exports", Asked::Exports),
    ("places", Asked::Places),
    ("cut-places", Asked::CutPlaces),
    ("data", Asked::Data),
    ("inlined", Asked::Inlined),
    ("variables", Asked::Variables),
    ("cut-info", Asked::CutInfo),
    ("changed-info", Asked::ChangedInfo),
];

/// The numbers of a text.
fn push_numbers(text: &str, numbers: &mut Vec<u64>) -> Result<(), AllocError> {
    for word in text.split_whitespace() {
        numbers.push(word.parse::<u64>().unwrap_or(u64::MAX))?;
    }
    Ok(())
}

/// Writes what was asked of a module, with these numbers.
fn tell_asked(
    alloc: Global,
    module: &[u8],
    asked: Asked,
    numbers: &[u64],
    given: &mut String,
) -> Result<(), AllocError> {
    match asked {
        Asked::Lines => write_lines(alloc, module, numbers, given),
        Asked::Directories => write_directories(alloc, module, numbers, given),
        Asked::CutLines => write_cut_lines(alloc, module, given),
        Asked::Short => write_short(alloc, module, numbers, given),
        Asked::Names => write_names(alloc, module, numbers, given),
        Asked::Exports => write_exports(alloc, module, numbers, given),
        Asked::Places => write_places(alloc, module, given),
        Asked::CutPlaces => write_cut_places(alloc, module, given),
        Asked::Data => write_data(alloc, module, numbers, given),
        Asked::Inlined => write_inlined(alloc, module, numbers, given),
        Asked::Variables => write_variables(alloc, module, numbers, given),
        Asked::CutInfo => write_cut_info(alloc, module, given),
        Asked::ChangedInfo => write_changed_info(alloc, module, given),
    }
}

/// Writes what a case asks of its module, which has these bytes.
pub fn tell(
    alloc: Global,
    case: Case,
    module: &[u8],
    given: &mut String,
) -> Result<(), AllocError> {
    if let Some(words) = case.get("sought") {
        write_sought(alloc, module, words, given)?;
    }
    let mut numbers = Vec::new(alloc);
    for (key, asked) in &KEYS {
        if let Some(text) = case.get(key) {
            push_numbers(text, &mut numbers)?;
            tell_asked(alloc, module, *asked, &numbers, given)?;
        }
    }
    Ok(())
}
