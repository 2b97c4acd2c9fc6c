//! The sections of debug information.

ghost use Rattle.std.specs.Prelude.{codes};
ghost use Rattle.dwarf_reader.specs.Sections.{IsCustomOrEmpty};

use dwarf_reader::custom_or_empty;

/// The sections of a module that say what its functions and its data are; empty where there is none.
#[derive(Clone, Copy)]
pub struct InfoSections<'a> {
    /// `.debug_info`
    pub info: &'a [u8],
    /// `.debug_abbrev`
    pub abbreviations: &'a [u8],
    /// `.debug_str`
    pub texts: &'a [u8],
    /// `.debug_line_str`
    pub line_texts: &'a [u8],
    /// `.debug_str_offsets`
    pub text_offsets: &'a [u8],
    /// `.debug_addr`
    pub addresses: &'a [u8],
    /// `.debug_ranges`
    pub ranges: &'a [u8],
    /// `.debug_rnglists`
    pub range_lists: &'a [u8],
    /// `.debug_loc`
    pub locations: &'a [u8],
    /// `.debug_loclists`
    pub location_lists: &'a [u8],
}

impl<'a> InfoSections<'a> {
    /// Those of a module.
    pub fn of(bytes: &'a [u8]) -> InfoSections<'a>
        ensures info { IsCustomOrEmpty bytes.now (codes ".debug_info") result.info.now }
        ensures abbreviations { IsCustomOrEmpty bytes.now (codes ".debug_abbrev") result.abbreviations.now }
        ensures texts { IsCustomOrEmpty bytes.now (codes ".debug_str") result.texts.now }
        ensures line_texts { IsCustomOrEmpty bytes.now (codes ".debug_line_str") result.line_texts.now }
        ensures text_offsets { IsCustomOrEmpty bytes.now (codes ".debug_str_offsets") result.text_offsets.now }
        ensures addresses { IsCustomOrEmpty bytes.now (codes ".debug_addr") result.addresses.now }
        ensures ranges { IsCustomOrEmpty bytes.now (codes ".debug_ranges") result.ranges.now }
        ensures range_lists { IsCustomOrEmpty bytes.now (codes ".debug_rnglists") result.range_lists.now }
        ensures locations { IsCustomOrEmpty bytes.now (codes ".debug_loc") result.locations.now }
        ensures location_lists { IsCustomOrEmpty bytes.now (codes ".debug_loclists") result.location_lists.now }
    {
        InfoSections {
            info: custom_or_empty(bytes, b".debug_info"),
            abbreviations: custom_or_empty(bytes, b".debug_abbrev"),
            texts: custom_or_empty(bytes, b".debug_str"),
            line_texts: custom_or_empty(bytes, b".debug_line_str"),
            text_offsets: custom_or_empty(bytes, b".debug_str_offsets"),
            addresses: custom_or_empty(bytes, b".debug_addr"),
            ranges: custom_or_empty(bytes, b".debug_ranges"),
            range_lists: custom_or_empty(bytes, b".debug_rnglists"),
            locations: custom_or_empty(bytes, b".debug_loc"),
            location_lists: custom_or_empty(bytes, b".debug_loclists"),
        }
    }
}
