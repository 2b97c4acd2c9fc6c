//! Names of static data.

use dwarf_data::{NamedBytes, name_at, place_of, read_data};
use dwarf_units::{InfoSections, read_units};
use std::alloc::{AllocError, Global};
use std::fmt::Write;

/// Writes what each of these addresses is called, or `-` where it has no name.
pub(crate) fn write_data(
    alloc: Global,
    module: &[u8],
    addresses: &[u64],
    given: &mut String,
) -> Result<(), AllocError> {
    let units = read_units(alloc, InfoSections::of(module))?;
    let data = read_data(alloc, &units)?;
    for address in addresses {
        match name_at(alloc, &units, &data, *address, None)? {
            Some(words) => writeln!(given, "{address} {words}")?,
            None => writeln!(given, "{address} -")?,
        }
    }
    Ok(())
}

/// Writes where each of these words leads to, and how many bytes it names.
pub(crate) fn write_sought(
    alloc: Global,
    module: &[u8],
    words: &str,
    given: &mut String,
) -> Result<(), AllocError> {
    let units = read_units(alloc, InfoSections::of(module))?;
    let data = read_data(alloc, &units)?;
    for word in words.split_whitespace() {
        match place_of(alloc, &units, &data, word)? {
            NamedBytes::One(place) => {
                let (start, size) = (place.start, place.size);
                writeln!(given, "{word} {start} {size}")?;
            }
            NamedBytes::Several => writeln!(given, "{word} several")?,
            NamedBytes::Nothing => writeln!(given, "{word} -")?,
        }
    }
    Ok(())
}
