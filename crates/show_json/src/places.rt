//! Places in a module.
ghost use Rattle.show_json.specs.Places.{function_json, offset_json, source_json, place_json};

use crate::object::{ToJson, given, put, put_if};
use serde::Serializer;
use show_places::FunctionName;
use std::alloc::Global;

/// How far an instruction is behind the start of its function's body.
#[derive(Clone, Copy)]
pub struct Offset(pub usize);

/// A line of source.
#[derive(Clone, Copy)]
pub struct SourceObject<'a> {
    pub file: &'a str,
    pub line: u64,
}

/// A place in a module: the function, how far the instruction is behind the start of its body, and the line of source,
/// as far as they are known. Names are as they are in the module: control characters have escapes in JSON.
#[derive(Clone, Copy)]
pub struct PlaceObject<'a> {
    pub function: FunctionName<'a>,
    pub offset: Option<Offset>,
    pub source: Option<SourceObject<'a>>,
}

impl ToJson for FunctionName<'_> {
    ghost json = { function_json };

    fn send<S: Serializer>(&self, alloc: Global, out: &mut S) -> Result<(), S::Error> {
        match self {
            FunctionName::Named(name) | FunctionName::Exported(name) => out.str(name),
            FunctionName::Numbered(index) => match format!(in alloc; "func {index}") {
                Ok(text) => out.str(text.as_str()),
                Err(_) => Err(out.custom("no memory")),
            },
        }
    }
}

impl ToJson for Offset {
    ghost json = { offset_json };

    fn send<S: Serializer>(&self, alloc: Global, out: &mut S) -> Result<(), S::Error> {
        let offset = self.0;
        match format!(in alloc; "0x{offset:x}") {
            Ok(text) => out.str(text.as_str()),
            Err(_) => Err(out.custom("no memory")),
        }
    }
}

impl ToJson for SourceObject<'_> {
    ghost json = { source_json };

    fn send<S: Serializer>(&self, alloc: Global, out: &mut S) -> Result<(), S::Error> {
        let SourceObject { file, line } = *self;
        match format!(in alloc; "{file}:{line}") {
            Ok(text) => out.str(text.as_str()),
            Err(_) => Err(out.custom("no memory")),
        }
    }
}

impl ToJson for PlaceObject<'_> {
    ghost json = { place_json };

    fn send<S: Serializer>(&self, alloc: Global, out: &mut S) -> Result<(), S::Error> {
        out.begin_map(Some(1 + given(&self.offset) + given(&self.source)))?;
        put(alloc, out, "function", &self.function)?;
        put_if(alloc, out, "offset", &self.offset)?;
        put_if(alloc, out, "source", &self.source)?;
        out.end_map()
    }
}
