//! What is known of a module's code: where its instructions are, what its functions are called, and their lines of
//! source.

ghost use Rattle.std.specs.Prelude.{◌≡◌, ◌^◌, ◌-◌, min, count_by, option_and_then, option_map, IfOk};
ghost use Rattle.show_places.specs.Names.{IsNames};
ghost use Rattle.show_rows.specs.Spots as specified;
ghost use Rattle.dwarf_lines.specs.Sources.{IsTextOf, line_in};
ghost use Rattle.show_rows.specs.Around.{lines_around};
ghost use Rattle.show_rows.specs.Spots.{IsSpotOf, AreBodies, are_apart, is_function_import, range_at};

use binary_wire::ReadFault;
use dwarf_frames::{Chain, Chains};
use dwarf_lines::{DebugSections, LineTable, Range, Sources, read_lines};
use dwarf_units::Spans;
use interp::CodePlace;
use selection::touched;
use show_places::{BodyPlaces, Named, code_places, function_name, read_names, section_of};
use show_spots::{Around, Spot};
use std::alloc::{AllocError, Global};
use types::{Event, Import, ImportDesc, Instr, Parts, PlainInstr, Sequence};

/// The code of a module, and what a file says of it that may be another build of the same code.
#[derive(Drop)]
pub struct CodeMap<'m, 'n> {
    parts: &'m Parts,
    /// Where the instructions of the module are.
    bodies: Sequence<BodyPlaces>,
    /// Where those of the file with the names are.
    named_bodies: Sequence<BodyPlaces>,
    names: Sequence<Named>,
    lines: LineTable<'n>,
    /// The functions that were put in the place of their calls, as far as they were asked for.
    chains: Chains,
    /// The static data of signed integer types, as far as it was asked for.
    signed: Spans,
    /// The text of its source, as far as it is there.
    sources: Sources<'n>,
    /// How many functions are imported.
    imported: u32,
}

/// The places of the instructions in a module's bytes; none where they can't be read.
fn bodies_of(alloc: Global, bytes: &[u8]) -> Result<Sequence<BodyPlaces>, AllocError>
    ensures { IfOk result (AreBodies bytes.now) }
{
    let Some(code) = section_of(bytes, 10) else {
        return Ok(Sequence::from_vec(Vec::new(alloc)));
    };
    match code_places(alloc, code.contents) {
        Ok(bodies) => Ok(bodies),
        Err(ReadFault::OutOfMemory) => Err(AllocError),
        Err(ReadFault::Malformed { .. }) => Ok(Sequence::from_vec(Vec::new(alloc))),
    }
}

fn count_functions(imports: &[Import]) -> u32
    ensures { result ≡ min (count_by is_function_import imports.now) (2 ^ 32 - 1) }
{
    let mut count = 0u32;
    for import in imports {
        if let ImportDesc::Func(_) = import.desc {
            count = count.saturating_add(1);
        }
    }
    count
}

/// The offset of the instruction at a place, from the start of the code section's contents.
fn offset_of(bodies: &[BodyPlaces], place: CodePlace) -> Option<usize>
    ensures { result ≡ specified.offset_of bodies.now place }
{
    let body = bodies.get(place.function)?;
    body.instrs.as_slice().get(place.instr).copied()
}

/// The file and the line.
fn source_in(range: Option<Range>) -> Option<(&str, u64)>
    ensures { result ≡ option_map (λ r. (r.file, r.line)) range.entry }
{
    let range = range?;
    Some((range.file, range.line))
}

impl<'m, 'n> CodeMap<'m, 'n> {
    /// What the bytes of a module say of its parts, with the names and lines of another file's bytes, which may be the
    /// same. Nothing is asked of the bytes: what can't be read isn't known.
    pub fn read(
        alloc: Global,
        parts: &'m Parts,
        bytes: &[u8],
        names: &'n [u8],
    ) -> Result<CodeMap<'m, 'n>, AllocError>
        ensures parts { IfOk result (λ c. c.parts.now ≡ parts.now) }
        ensures imported { IfOk result (λ c. c.imported ≡ min (count_by is_function_import parts.now.imports) (2 ^ 32 - 1)) }
        ensures names { IfOk result (λ c. IsNames names.now c.names) }
        ensures bodies { IfOk result (λ c. AreBodies bytes.now c.bodies) }
        ensures named_bodies { IfOk result (λ c. AreBodies names.now c.named_bodies) }
    {
        Ok(CodeMap {
            parts,
            bodies: bodies_of(alloc, bytes)?,
            named_bodies: bodies_of(alloc, names)?,
            names: read_names(alloc, names)?,
            lines: read_lines(alloc, DebugSections::of(names))?,
            chains: Chains::none(alloc)?,
            signed: Spans::new(alloc, Vec::new(alloc))?,
            sources: Sources::none(alloc),
            imported: count_functions(parts.imports.as_slice()),
        })
    }

    /// The same with the text of files of source.
    pub fn with_sources(self, sources: Sources<'n>) -> CodeMap<'m, 'n>
        ensures { result ≡ record self.entry { sources = sources.entry } }
    {
        CodeMap { sources, ..self }
    }

    /// The same with the functions that were put in the place of their calls.
    pub fn with_chains(self, chains: Chains) -> CodeMap<'m, 'n>
        ensures { result ≡ record self.entry { chains = chains } }
    {
        CodeMap { chains, ..self }
    }

    /// The same with static data of signed integer types.
    pub fn with_signed(self, signed: Spans) -> CodeMap<'m, 'n>
        ensures { result ≡ record self.entry { signed = signed } }
    {
        CodeMap { signed, ..self }
    }

    /// Whether the bytes that an event touches are those of data of a signed integer type.
    pub fn is_signed(&self, event: Event) -> bool
        ensures { result ≡ specified.is_signed self.now event }
    {
        let Some(addrs) = touched(event) else {
            return false;
        };
        match self.signed.at(addrs.first) {
            Some(span) => {
                span.start == addrs.first && addrs.last < span.end && span.end - addrs.last == 1
            }
            None => false,
        }
    }

    /// The functions that were put in the place of their calls at a place, if there are any.
    pub fn chain_at(&self, place: CodePlace) -> Option<&Chain>
        ensures { option_map (λ c. c.now) result ≡ specified.chain_at self.now place }
    {
        let offset = self.named_offset(place)?;
        self.chains.at(offset)
    }

    /// The parts of the module.
    pub fn parts(&self) -> &'m Parts
        ensures { result.now ≡ self.now.parts.now }
    {
        self.parts
    }

    /// The place as it is printed.
    pub fn spot(&self, place: CodePlace) -> Spot<'_>
        ensures { IsSpotOf self.now place result }
    {
        let own = u32::try_from(place.function).unwrap_or(u32::MAX);
        let index = own.saturating_add(self.imported);
        let range = self.range_of(place);
        Spot {
            name: function_name(self.names.as_slice(), self.parts.exports.as_slice(), index),
            offset: self.offset_in_body(place),
            source: source_in(range),
            text: self.text_of(range),
        }
    }

    /// What stands in this line of source, without the space around it.
    fn text_of(&self, range: Option<Range>) -> Option<&str>
        ensures { IsTextOf (option_and_then (line_in self.now.sources.files.items) range.entry) result }
    {
        match self.sources.line(range?) {
            Some(line) => Some(line.trim()),
            None => None,
        }
    }

    /// The lines of source around the place.
    pub fn around(&self, place: CodePlace) -> Around<'_>
        ensures { result ≡ lines_around self.now.sources.files.items (range_at self.now place) }
    {
        let Some(range) = self.range_of(place) else {
            return Around {
                line: 0,
                before: None,
                here: None,
                behind: None,
            };
        };
        Around {
            line: range.line,
            before: self.line_of(range, range.line.saturating_sub(1)),
            here: self.sources.line(range),
            behind: self.line_of(range, range.line.saturating_add(1)),
        }
    }

    /// A line of the file of a range of code.
    fn line_of(&self, range: Range, line: u64) -> Option<&str>
        ensures { result ≡ line_in self.now.sources.files.items (record range.entry { line = line }) }
    {
        self.sources.line(Range { line, ..range })
    }

    /// How far behind the start of its body the instruction is.
    fn offset_in_body(&self, place: CodePlace) -> Option<usize>
        ensures { result ≡ specified.offset_in_body self.now.bodies place }
    {
        let body = self.bodies.as_slice().get(place.function)?;
        let offset = body.instrs.as_slice().get(place.instr)?;
        Some(offset.saturating_sub(body.start))
    }

    /// Where the instruction is in the file with the names, from the start of the code section's contents, where both
    /// files have as many instructions in the function.
    pub fn named_offset(&self, place: CodePlace) -> Option<usize>
        ensures { result ≡ specified.named_offset self.now place }
    {
        let own = self.bodies.as_slice().get(place.function)?;
        let named = self.named_bodies.as_slice().get(place.function)?;
        if own.instrs.len() != named.instrs.len() {
            return None;
        }
        offset_of(self.named_bodies.as_slice(), place)
    }

    /// The code with its line of source, where both files have as many instructions in the function.
    fn range_of(&self, place: CodePlace) -> Option<Range<'n>>
        ensures { result ≡ range_at self.now place }
    {
        let offset = self.named_offset(place)?;
        self.lines.at(offset as u64)
    }

    /// Whether both places have a line of source, in files that differ.
    fn are_apart(&self, a: CodePlace, b: CodePlace) -> bool
        ensures { result ≡ are_apart (range_at self.now a) (range_at self.now b) }
    {
        match (self.range_of(a), self.range_of(b)) {
            (Some(a), Some(b)) => a.source() != b.source(),
            _ => false,
        }
    }

    /// The call, where it and the place that it led to have a line of source each, in files that differ.
    pub fn call_apart(&self, place: Option<CodePlace>, call: Option<CodePlace>) -> Option<CodePlace>
        ensures { result ≡ specified.call_apart self.now place call }
    {
        let place = place?;
        let call = call?;
        if self.are_apart(place, call) {
            Some(call)
        } else {
            None
        }
    }

    /// Whether the instruction at a place is an atomic one.
    pub fn is_atomic(&self, place: CodePlace) -> bool
        ensures { result ≡ specified.is_atomic self.now.parts.now place }
    {
        let Some(body) = self.parts.bodies.as_slice().get(place.function) else {
            return false;
        };
        matches!(
            body.code.as_slice().get(place.instr),
            Some(Instr::Plain(PlainInstr::Atomic(_, _)))
        )
    }
}
