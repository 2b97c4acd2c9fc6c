//! What is shown of a record as a JSON object.
ghost use Rattle.std.specs.Prelude.{◌<◌, All, IfOk, OnOk, length};
ghost use Rattle.report_objects.specs.RaceObjects.{AddsRows, IsNamedRowAt, IsOffset, IsPlaceOf, IsRowOf};
ghost use Rattle.report_objects.specs.RaceObjects.{IsSource, WritesObject};

use selection::Look;
use show_json::{
    NamedRow, Offset, PlaceObject, RowObject, SourceObject, begin_rows, end_rows, write_row,
};
use show_named::DataMap;
use show_rows::{Shown, Story, chosen_entries};
use show_spots::Spot;
use show_text::Unwritten;
use std::alloc::{AllocError, Global};
use std::io::Write;
use types::Entry;

/// An offset in a function, where it is known.
fn offset_of(offset: Option<usize>) -> Option<Offset>
    ensures { IsOffset offset result }
{
    match offset {
        Some(offset) => Some(Offset(offset)),
        None => None,
    }
}

/// A line of source, where it is known.
fn source_of(source: Option<(&str, u64)>) -> Option<SourceObject<'_>>
    ensures { IsSource source.entry result }
{
    match source {
        Some((file, line)) => Some(SourceObject { file, line }),
        None => None,
    }
}

/// A place in the code.
fn place_of(spot: Spot<'_>) -> PlaceObject<'_>
    ensures { IsPlaceOf spot.entry result }
{
    PlaceObject {
        function: spot.name,
        offset: offset_of(spot.offset),
        source: source_of(spot.source),
    }
}

/// The entry at a place in the log.
pub(crate) fn row_of<'a>(
    shown: &'a Shown,
    story: &'a Story,
    at: usize,
    entry: &Entry,
) -> RowObject<'a>
    ensures { IsRowOf shown.now story.now at entry.now result }
{
    let place = match shown.place_at(story, at) {
        Some(place) => Some(place_of(shown.code.spot(place))),
        None => None,
    };
    RowObject {
        line: shown.line_of(at),
        words: shown.words_at(story, at, entry),
        place,
    }
}

/// The entry at a place in the log, with the name of its data.
pub(crate) fn named_row<'a>(
    alloc: Global,
    shown: &'a Shown,
    map: &DataMap,
    story: &'a Story,
    at: usize,
) -> Result<NamedRow<'a>, AllocError>
    requires { at < length shown.now.record.now.log }
    ensures { IfOk result (IsNamedRowAt shown.now map.now story.now at) }
{
    let entry = &shown.record.log.as_slice()[at];
    let name = map.data_of(alloc, entry.event)?;
    Ok(NamedRow {
        row: row_of(shown, story, at, entry),
        name,
    })
}

/// Writes the rows of the entries at these places.
fn write_places<'a, W: Write>(
    alloc: Global,
    shown: &'a Shown,
    map: &DataMap,
    story: &'a Story,
    places: &[usize],
    out: &mut W,
) -> Result<(), Unwritten>
    requires { All (λ at. at < length shown.now.record.now.log) places.now }
    ensures { OnOk result (AddsRows shown.now map.now story.now places.now (W.contents out.old) (W.contents out.new)) }
{
    let mut is_first = true;
    for place in 0..places.len() {
        let row = named_row(alloc, shown, map, story, places[place])?;
        write_row(alloc, out, is_first, &row)?;
        is_first = false;
    }
    Ok(())
}

/// Writes the entries that are chosen as one object, row by row.
///
/// # Errors
/// Where memory is refused, and where the output fails; then a part of the object may be written.
pub fn write_entries<W: Write>(
    alloc: Global,
    shown: Shown,
    map: &DataMap,
    look: &Look,
    out: &mut W,
) -> Result<(), Unwritten>
    ensures { OnOk result (WritesObject shown.entry map.now look.now (W.contents out.old) (W.contents out.new)) }
{
    let story = Story::new(alloc, shown.record.log.as_slice())?;
    let places = chosen_entries(alloc, shown, look)?;
    begin_rows(out)?;
    write_places(alloc, &shown, map, &story, places.as_slice(), out)?;
    end_rows(out)?;
    Ok(())
}
