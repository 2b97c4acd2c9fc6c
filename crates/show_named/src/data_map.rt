//! The static data of a module, and what is known of its frames, by its debug section.
ghost use Rattle.std.specs.Prelude.{◌≡◌, IfOk, IsSome, OnSome, find, string_bytes};
ghost use Rattle.dwarf_data.specs.Within.{NamesWithin};
ghost use Rattle.dwarf_units.specs.Spans.{holds};
ghost use Rattle.show_named.specs.Names.{HasData, IsDataText};

use crate::marks::marks_of;
use crate::signs::signed_in;
use dwarf_data::{NamedBytes, name_at, place_of, read_data};
use dwarf_frames::{CallFrame, read_chains, read_frame, read_functions};
use dwarf_lines::DebugSections;
use dwarf_units::{InfoSections, Spans, Units, read_units};
use selection::touched;
use show_rows::{CodeMap, Row};
use show_text::Plain;
use std::alloc::{AllocError, Global};
use types::{Entry, Event};

/// How many steps the name of an address takes at most.
const NAME_STEPS: u64 = 1 << 14;

/// How many steps the functions at a place in the code take at most.
const PLACE_STEPS: u64 = 1 << 16;

/// How many steps the open functions of a thread take at most, and the names to which their pointers lead.
const STACK_STEPS: u64 = 1 << 21;

/// How many values are told of a thread at most.
const MOST_VALUES: u64 = 256;

/// How many steps all moments of a page take at most.
const PAGE_STEPS: u64 = 1 << 28;

/// How many steps the types of all places that entries touch take at most.
const SIGN_STEPS: u64 = 1 << 26;

/// How many steps a byte of the entries takes at most, on average, where all entries are asked.
const BYTE_STEPS: u64 = 4;

/// How many steps all entries take at most.
fn steps_of(info: &[u8]) -> u64 {
    (info.len() as u64)
        .saturating_mul(BYTE_STEPS)
        .saturating_add(NAME_STEPS)
}

/// What a debug section says of static data, and where that is; and of functions.
#[derive(Drop)]
pub struct DataMap<'n> {
    units: Units<'n>,
    spans: Spans,
    functions: Spans,
    lines: DebugSections<'n>,
    /// How many steps all entries take at most.
    steps: u64,
}

impl<'n> DataMap<'n> {
    /// What the bytes of a module say. Nothing is asked of them: what can't be read has no name, and neither has what is
    /// behind the steps that so many bytes may take.
    pub fn read(alloc: Global, names: &'n [u8]) -> Result<DataMap<'n>, AllocError> {
        let sections = InfoSections::of(names);
        let steps = steps_of(sections.info);
        let units = read_units(alloc, sections)?;
        units.allow(steps);
        let spans = read_data(alloc, &units)?;
        units.allow(steps);
        let functions = read_functions(alloc, &units)?;
        Ok(DataMap {
            units,
            spans,
            functions,
            lines: DebugSections::of(names),
            steps,
        })
    }

    /// Lets the frames of a thread's open functions be asked. What takes more steps than all of them may is left out of
    /// the further ones, and so are more values than `MOST_VALUES`.
    pub fn begin_stack(&self) {
        self.units.allow(STACK_STEPS);
        self.units.allow_values(MOST_VALUES + 1);
    }

    /// Lets the frames of a page's moments be asked. What takes more steps than all of them may is left out of the
    /// further ones, until the page is ended.
    pub fn begin_page(&self) {
        self.units.allow_in_all(PAGE_STEPS);
    }

    /// Lets as much be asked as before the page.
    pub fn end_page(&self) {
        self.units.allow_in_all(u64::MAX);
    }

    /// What is said of a frame whose function is at an offset of the code.
    pub fn frame(&self, alloc: Global, offset: Option<usize>) -> Result<CallFrame, AllocError>
        ensures { IfOk result (λ frame. frame.offset ≡ offset) }
    {
        read_frame(alloc, &self.units, self.lines, &self.functions, offset)
    }

    /// The code with the data of signed integer types that these entries touch.
    ///
    /// # Errors
    /// Where memory is refused.
    pub fn signed<'m, 'c>(
        &self,
        alloc: Global,
        code: CodeMap<'m, 'c>,
        log: &[Entry],
    ) -> Result<CodeMap<'m, 'c>, AllocError>
        ensures parts { IfOk result (λ c. c.parts.now ≡ code.entry.parts.now) }
        ensures others { IfOk result (λ c. c ≡ record code.entry { signed = c.signed }) }
    {
        self.units.allow_in_all(SIGN_STEPS);
        let signed = signed_in(alloc, &self.units, &self.spans, log, NAME_STEPS)?;
        self.units.allow_in_all(u64::MAX);
        Ok(code.with_signed(signed))
    }

    /// The code with the functions that were put in the place of their calls, at the places of these rows and of their
    /// callers.
    ///
    /// # Errors
    /// Where memory is refused.
    pub fn chained<'m, 'c>(
        &self,
        alloc: Global,
        code: CodeMap<'m, 'c>,
        rows: &[Option<Row>],
    ) -> Result<CodeMap<'m, 'c>, AllocError>
        ensures parts { IfOk result (λ c. c.parts.now ≡ code.entry.parts.now) }
        ensures others { IfOk result (λ c. c ≡ record code.entry { chains = c.chains }) }
    {
        let marks = marks_of(alloc, &code, rows)?;
        let chains = read_chains(
            alloc,
            &self.units,
            self.lines,
            &self.functions,
            &marks,
            PLACE_STEPS,
        )?;
        Ok(code.with_chains(chains))
    }

    /// What the data is called that is at an address: that of a type, if such data begins there.
    pub fn name(
        &self,
        alloc: Global,
        address: u64,
        its_type: Option<usize>,
    ) -> Result<Option<String>, AllocError>
        ensures { IfOk result (λ name. OnSome name (IsSome (find (holds address) self.now.spans.items.items))) }
    {
        name_at(alloc, &self.units, &self.spans, address, its_type)
    }

    /// What the data is called that an event touches first, or at which it waits or wakes.
    ///
    /// # Errors
    /// Where memory is refused.
    pub fn data_of(&self, alloc: Global, event: Event) -> Result<Option<String>, AllocError>
        ensures { IfOk result (λ name. OnSome name (HasData self.now event)) }
    {
        let Some(addrs) = touched(event) else {
            return Ok(None);
        };
        self.units.allow(NAME_STEPS);
        self.name(alloc, addrs.first, None)
    }

    /// The same behind `at`; empty where that has no name.
    pub(crate) fn text(&self, alloc: Global, event: Event) -> Result<String, AllocError>
        ensures { IfOk result (λ text. IsDataText self.now event (string_bytes text)) }
    {
        let Some(name) = self.data_of(alloc, event)? else {
            return Ok(String::new(alloc));
        };
        let name = Plain(name.as_str());
        let text = format!(in alloc; " at {name}")?;
        Ok(text)
    }

    /// The bytes of data that words name, as `slots[3].item`.
    pub fn named(&self, alloc: Global, words: &str) -> Result<NamedBytes, AllocError>
        ensures { IfOk result (NamesWithin self.now.spans.items.items) }
    {
        self.units.allow(self.steps);
        place_of(alloc, &self.units, &self.spans, words)
    }
}
