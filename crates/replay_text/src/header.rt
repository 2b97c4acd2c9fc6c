//! Reading the lines before the entries.

ghost use Rattle.std.specs.Prelude.{◌≤◌, IfOk, IfSome};
ghost use Rattle.types.specs.declared.limits.TheConstants.{MOST_LIMIT, MOST_THREADS};
ghost use Rattle.replay_forms.specs.Reading.{Reads, ReadsNext, both};
ghost use Rattle.replay_text.specs.Faults.{GivesLines, GivesLinesAs};
ghost use Rattle.replay_text.specs.Views.{scale_of, header_of};
ghost use Rattle.replay_text.specs.Reading.{named, count_at, scale_at, invoke_at, args_at, fuel_at, limit_at};
ghost use Rattle.replay_text.specs.Reading.{header_at};
ghost use Rattle.replay_text.specs.Refusals.{header_line, scale_refusal, budget_refusal, header_refusal};

use crate::fault::RecordFault;
use crate::number::{number_behind, u32_behind};
use crate::value::Argument;
use crate::version::{FIRST_PAGES, FIRST_THREADS, Version};
use replay_forms::{HexByte, after, several};
use std::alloc::Global;
use types::{
    MOST_FUEL, MOST_LIMIT, MOST_MODULE_BYTES, MOST_PAGES, MOST_THREADS, Name, Sequence, Value,
};

/// The version, the module's length, and how many threads and pages there may be.
#[derive(Clone, Copy)]
pub struct Scale {
    pub version: Version,
    pub module_len: u32,
    pub threads: u32,
    pub max_pages: u32,
}

/// What the lines before the entries say.
#[derive(Drop)]
pub struct Header {
    pub scale: Scale,
    pub invoke: Name,
    pub args: Sequence<Value>,
    pub fuel: u64,
    pub limit: u32,
}

/// A line of a word and a number, 1 to `max`.
fn count_at<'a>(word: &[u8], max: u32, bytes: &'a [u8]) -> Option<(u32, &'a [u8])>
    ensures reads { ReadsNext (count_at word.now max) bytes.now result }
    ensures within { IfSome result (λ r. r.0 ≤ max) }
{
    let Some((number, rest)) = u32_behind(word, max, b"\n", bytes) else {
        return None;
    };
    if number == 0 {
        return None;
    }
    Some((number, rest))
}

/// The first line, and in version 2 the three behind it.
#[tactic(auto, unfolding(crate::specs::Reading::scale_at))]
fn scale_in(bytes: &[u8]) -> Result<(Scale, &[u8]), RecordFault>
    ensures threads { IfOk result (λ r. r.0.threads ≤ MOST_THREADS) }
    ensures gives { GivesLinesAs scale_of scale_at scale_refusal bytes.now result }
{
    if let Some(rest) = after(b"wathread-record 1\n", bytes) {
        let scale = Scale {
            version: Version::One,
            module_len: 0,
            threads: FIRST_THREADS,
            max_pages: FIRST_PAGES,
        };
        return Ok((scale, rest));
    }
    let Some(rest) = after(b"wathread-record 2\n", bytes) else {
        return Err(RecordFault::Header(1));
    };
    let most = MOST_MODULE_BYTES as u32;
    let Some((module_len, rest)) = u32_behind(b"module ", most, b"\n", rest) else {
        return Err(RecordFault::Header(2));
    };
    let Some((threads, rest)) = count_at(b"threads ", MOST_THREADS as u32, rest) else {
        return Err(RecordFault::Header(3));
    };
    let Some((max_pages, rest)) = count_at(b"max-pages ", MOST_PAGES, rest) else {
        return Err(RecordFault::Header(4));
    };
    let scale = Scale {
        version: Version::Two,
        module_len,
        threads,
        max_pages,
    };
    Ok((scale, rest))
}

/// The name of these bytes, at least one, where they are UTF-8.
#[tactic(auto, using(crate::proofs::Names::empty_named))]
fn name_of(bytes: Vec<u8>) -> Option<Name>
    ensures { Reads (λ n. n) result (named bytes.items) }
{
    if bytes.as_slice().is_empty() {
        return None;
    }
    match String::from_utf8(bytes) {
        Ok(name) => Some(Name::from_string(name)),
        Err(_) => None,
    }
}

#[tactic(auto, unfolding(crate::specs::Reading::invoke_at))]
fn invoke_in(alloc: Global, line: usize, bytes: &[u8]) -> Result<(Name, &[u8]), RecordFault>
    ensures { GivesLines invoke_at (header_line line) bytes.now result }
{
    let Some(rest) = after(b"invoke ", bytes) else {
        return Err(RecordFault::Header(line));
    };
    if let Some(rest) = after(b"-\n", rest) {
        return Ok((Name::from_string(String::new(alloc)), rest));
    }
    let (name, rest) = several(alloc, &HexByte, rest.len(), rest)?;
    let Some(rest) = after(b"\n", rest) else {
        return Err(RecordFault::Header(line));
    };
    match name_of(name) {
        Some(name) => Ok((name, rest)),
        None => Err(RecordFault::Header(line)),
    }
}

#[tactic(auto, unfolding(crate::specs::Reading::args_at))]
fn args_in(
    alloc: Global,
    line: usize,
    bytes: &[u8],
) -> Result<(Sequence<Value>, &[u8]), RecordFault>
    ensures { GivesLines args_at (header_line line) bytes.now result }
{
    let Some(rest) = after(b"args", bytes) else {
        return Err(RecordFault::Header(line));
    };
    let (args, rest) = several(alloc, &Argument, rest.len(), rest)?;
    let Some(rest) = after(b"\n", rest) else {
        return Err(RecordFault::Header(line));
    };
    Ok((Sequence::from_vec(args), rest))
}

/// The lines of the fuel and of the limit.
fn budget_in(line: usize, bytes: &[u8]) -> Result<((u64, u32), &[u8]), RecordFault>
    requires { line ≤ 7 }
    ensures limit { IfOk result (λ r. r.0.1 ≤ MOST_LIMIT) }
    ensures gives { GivesLines (both fuel_at limit_at) (budget_refusal line) bytes.now result }
{
    let Some((fuel, rest)) = number_behind(b"fuel ", MOST_FUEL, b"\n", bytes) else {
        return Err(RecordFault::Header(line));
    };
    let Some((limit, rest)) = count_at(b"limit ", MOST_LIMIT, rest) else {
        return Err(RecordFault::Header(line + 1));
    };
    Ok(((fuel, limit), rest))
}

/// The lines before the entries.
#[tactic(auto, unfolding(crate::specs::Reading::header_at))]
pub fn header_in(alloc: Global, bytes: &[u8]) -> Result<(Header, &[u8]), RecordFault>
    ensures limit { IfOk result (λ r. r.0.limit ≤ MOST_LIMIT) }
    ensures threads { IfOk result (λ r. r.0.scale.threads ≤ MOST_THREADS) }
    ensures gives { GivesLinesAs header_of header_at header_refusal bytes.now result }
{
    let (scale, rest) = scale_in(bytes)?;
    let last = scale.version.header_lines();
    let (invoke, rest) = invoke_in(alloc, last - 3, rest)?;
    let (args, rest) = args_in(alloc, last - 2, rest)?;
    let ((fuel, limit), rest) = budget_in(last - 1, rest)?;
    let header = Header {
        scale,
        invoke,
        args,
        fuel,
        limit,
    };
    Ok((header, rest))
}
