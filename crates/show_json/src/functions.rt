//! Open functions.
ghost use Rattle.std.specs.Prelude.{OnOk};
ghost use Rattle.show_json.specs.Functions as specified;
ghost use Rattle.show_json.specs.Functions.{chain_json, function_json, number_json, value_json, word_json};
ghost use Rattle.show_json.specs.Sent.{SendsField};

use crate::object::{ToJson, given, put, put_if, put_some, some};
use crate::places::{Offset, SourceObject};
use dwarf_frames::Chain;
use serde::Serializer;
use show_told::{ToldFunction, ToldNumber, ToldValue, TypedWord};
use std::alloc::Global;

impl ToJson for TypedWord {
    ghost json = { word_json };

    fn send<S: Serializer>(&self, alloc: Global, out: &mut S) -> Result<(), S::Error> {
        let value = self.value();
        match value {
            Some(_) => value.send(alloc, out),
            None => self.word.send(alloc, out),
        }
    }
}

impl ToJson for ToldNumber {
    ghost json = { number_json };

    /// Its digits, behind a minus where it is below 0.
    fn send<S: Serializer>(&self, alloc: Global, out: &mut S) -> Result<(), S::Error> {
        match self.to_string(alloc) {
            Ok(digits) => out.str(digits.as_str()),
            Err(_) => Err(out.custom("no memory")),
        }
    }
}

impl ToJson for ToldValue {
    ghost json = { value_json };

    fn send<S: Serializer>(&self, alloc: Global, out: &mut S) -> Result<(), S::Error> {
        out.begin_map(Some(1 + given(&self.number) + given(&self.target)))?;
        put(alloc, out, "variable", &self.label)?;
        put_if(alloc, out, "value", &self.number)?;
        put_if(alloc, out, "points_to", &self.target)?;
        out.end_map()
    }
}

impl ToJson for Chain {
    ghost json = { chain_json };

    /// As `lock < take queue.c:88 < body queue.c:120`.
    fn send<S: Serializer>(&self, alloc: Global, out: &mut S) -> Result<(), S::Error> {
        let (innermost, calls) = (self.innermost.as_str(), self.calls.as_str());
        match format!(in alloc; "{innermost}{calls}") {
            Ok(text) => out.str(text.as_str()),
            Err(_) => Err(out.custom("no memory")),
        }
    }
}

fn put_offset<S: Serializer>(
    alloc: Global,
    out: &mut S,
    offset: Option<usize>,
) -> Result<(), S::Error>
    ensures { OnOk result (SendsField (specified.offset_field offset) (S.written out.old) (S.written out.new)) }
{
    match offset {
        Some(offset) => put(alloc, out, "offset", &Offset(offset)),
        None => Ok(()),
    }
}

fn put_source<S: Serializer>(
    alloc: Global,
    out: &mut S,
    source: Option<(&str, u64)>,
) -> Result<(), S::Error>
    ensures { OnOk result
        (SendsField (specified.source_field source.entry) (S.written out.old) (S.written out.new)) }
{
    match source {
        Some((file, line)) => put(alloc, out, "source", &SourceObject { file, line }),
        None => Ok(()),
    }
}

impl ToJson for ToldFunction<'_> {
    ghost json = { function_json };

    fn send<S: Serializer>(&self, alloc: Global, out: &mut S) -> Result<(), S::Error> {
        let (offset, source) = (self.spot.offset, self.spot.source);
        let (locals, operands) = (self.locals.as_slice(), self.operands.as_slice());
        let values = self.values.as_slice();
        let known = given(&offset) + given(&source) + given(&self.chain);
        out.begin_map(Some(1 + known + some(locals) + some(operands) + some(values)))?;
        put(alloc, out, "function", &self.spot.name)?;
        put_offset(alloc, out, offset)?;
        put_source(alloc, out, source)?;
        put_if(alloc, out, "inlined", &self.chain)?;
        put_some(alloc, out, "locals", locals)?;
        put_some(alloc, out, "operands", operands)?;
        put_some(alloc, out, "values", values)?;
        out.end_map()
    }
}
