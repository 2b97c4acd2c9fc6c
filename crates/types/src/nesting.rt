//! The test that code is nested blocks with a final end.
ghost use Rattle.std.specs.Prelude.{◌≡◌, ◌<◌, ◌≤◌, [], ◌∷◌, length, if◌then◌else◌, Some, None, false};
ghost use Rattle.std.specs.Option.{MatchOption};
ghost use Rattle.std.specs.List.{list_all};
ghost use Rattle.types.specs.Tests.{opens_behind, opened, divided, ended, is_expression, has_nested_code};

use crate::instr::Instr;
use crate::limits::MOST_NESTED;
use crate::parts::{Body, DataSegment, ElementSegment, Global, Parts};
use std::marker::Model;

/// The blocks that are open at a place of an expression, which is itself the outermost one, and of each whether an
/// `Else` may come: in an `If` that has had none. In contracts it is their list, the innermost first.
#[derive(Drop)]
struct OpenBlocks {
    may_divide: [bool; 256],
    len: usize,
}

impl Model for OpenBlocks {
    ghost use Rattle.std.specs.Prelude.{List, Bool, ◌≤◌, take, reverse};

    ghost Value = { List Bool };

    ghost view = { λ o. reverse (take o.len o.may_divide) };

    ghost invariant = { λ o. o.len ≤ 256 };
}

impl OpenBlocks {
    /// The expression alone.
    fn new() -> OpenBlocks
        ensures { result ≡ false ∷ [] }
    {
        OpenBlocks {
            may_divide: [false; 256],
            len: 1,
        }
    }

    fn len(&self) -> usize
        ensures { result ≡ length self.now }
    {
        self.len
    }

    fn push(&mut self, may_divide: bool)
        requires { length self.old < 256 }
        ensures { self.new ≡ may_divide ∷ self.old }
    {
        self.may_divide[self.len] = may_divide;
        self.len += 1;
    }

    fn pop(&mut self) -> Option<bool>
        ensures innermost { MatchOption result (self.old ≡ []) (λ o. self.old ≡ o ∷ self.new) }
        ensures few { length self.old ≤ 256 }
    {
        if self.len == 0 {
            return None;
        }
        self.len -= 1;
        Some(self.may_divide[self.len])
    }

    /// Opens a block inside the innermost one. The answer is whether it may stand there.
    fn open(&mut self, may_divide: bool) -> bool
        ensures { opened may_divide self.old ≡ (if result then Some self.new else None) }
    {
        if self.len() == 0 || self.len() > MOST_NESTED {
            return false;
        }
        self.push(may_divide);
        true
    }

    /// Divides the innermost block. The answer is whether it may be divided.
    fn divide(&mut self) -> bool
        ensures { divided self.old ≡ (if result then Some self.new else None) }
    {
        match self.pop() {
            Some(true) => {
                self.push(false);
                true
            }
            _ => false,
        }
    }

    /// Ends the innermost block. The answer is whether there was one.
    fn end(&mut self) -> bool
        ensures { ended self.old ≡ (if result then Some self.new else None) }
    {
        self.pop().is_some()
    }

    /// Goes past an instruction. The answer is whether it may stand there.
    fn step(&mut self, instr: &Instr) -> bool
        ensures { opens_behind self.old instr.now ≡ (if result then Some self.new else None) }
    {
        match instr {
            Instr::Block(_) | Instr::Loop(_) => self.open(false),
            Instr::If(_) => self.open(true),
            Instr::Else => self.divide(),
            Instr::End => self.end(),
            Instr::Plain(_) => self.len() > 0,
        }
    }
}

/// Whether code is nested blocks with a final end.
fn is_expression_in(code: &[Instr]) -> bool
    ensures { result ≡ is_expression code.now }
{
    let mut opens = OpenBlocks::new();
    for instr in code {
        if !opens.step(instr) {
            return false;
        }
    }
    opens.len() == 0
}

fn is_global_nested(global: &Global) -> bool
    ensures { result ≡ is_expression global.now.init }
{
    is_expression_in(global.init.as_slice())
}

fn are_globals_nested(globals: &[Global]) -> bool
    ensures { result ≡ list_all (λ g. is_expression g.init) globals.now }
{
    globals.iter().all(is_global_nested)
}

fn is_element_nested(segment: &ElementSegment) -> bool
    ensures { result ≡ is_expression segment.now.offset }
{
    is_expression_in(segment.offset.as_slice())
}

fn are_elements_nested(segments: &[ElementSegment]) -> bool
    ensures { result ≡ list_all (λ e. is_expression e.offset) segments.now }
{
    segments.iter().all(is_element_nested)
}

fn is_datum_nested(segment: &DataSegment) -> bool
    ensures { result ≡ is_expression segment.now.offset }
{
    is_expression_in(segment.offset.as_slice())
}

fn are_data_nested(segments: &[DataSegment]) -> bool
    ensures { result ≡ list_all (λ d. is_expression d.offset) segments.now }
{
    segments.iter().all(is_datum_nested)
}

fn is_body_nested(body: &Body) -> bool
    ensures { result ≡ is_expression body.now.code }
{
    is_expression_in(body.code.as_slice())
}

fn are_bodies_nested(bodies: &[Body]) -> bool
    ensures { result ≡ list_all (λ b. is_expression b.code) bodies.now }
{
    bodies.iter().all(is_body_nested)
}

/// Whether all expressions are nested blocks with a final end.
pub fn has_nested_code_in(parts: &Parts) -> bool
    ensures { result ≡ has_nested_code parts.now }
{
    are_globals_nested(parts.globals.as_slice())
        && are_elements_nested(parts.elements.as_slice())
        && are_data_nested(parts.data.as_slice())
        && are_bodies_nested(parts.bodies.as_slice())
}
