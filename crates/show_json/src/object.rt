//! Values as JSON: numbers, texts, fields of objects, and a value as a line.
ghost use Rattle.std.specs.Prelude.{◌≡◌, [], ◌∷◌, codes, OnOk, IfErr};
ghost use Rattle.serde.specs.Event.{Log};
ghost use Rattle.replay_forms.specs.Texts.{Wrote};
ghost use Rattle.show_json.specs.Json.{json_text, json_line, number, text, list_of, object_of, is, is_given, are_some};
ghost use Rattle.show_json.specs.Unwritten.{LeavesAs};
ghost use Rattle.show_json.specs.Sent as specified;
ghost use Rattle.show_json.specs.Sent.{Sends, SendsField};

use itoa::Buffer;
use serde::{Described, Serialize, Serializer};
use show_text::Unwritten;
use std::alloc::Global;
use std::io::{self, Write};

/// The numbers below this one are printed as numbers, others as texts.
const WIDE: u64 = 9_007_199_254_740_992;

/// What is printed as a JSON value.
pub trait ToJson {
    ghost use Rattle.show_json.specs.Json.{Json};

    /// That value.
    ghost json: { Self → Json };

    /// Sends it to a writer of serde.
    fn send<S: Serializer>(&self, alloc: Global, out: &mut S) -> Result<(), S::Error>
        ensures { OnOk result (Sends (json self.now) (S.written out.old) (S.written out.new)) };
}

fn send_number<S: Serializer>(out: &mut S, n: u64) -> Result<(), S::Error>
    ensures { OnOk result (Sends (number n) (S.written out.old) (S.written out.new)) }
{
    if n < WIDE {
        return out.u64(n);
    }
    let mut digits = Buffer::new();
    out.str(digits.format(n))
}

impl ToJson for u8 {
    ghost json = { number };

    fn send<S: Serializer>(&self, _alloc: Global, out: &mut S) -> Result<(), S::Error> {
        send_number(out, u64::from(*self))
    }
}

impl ToJson for u32 {
    ghost json = { number };

    fn send<S: Serializer>(&self, _alloc: Global, out: &mut S) -> Result<(), S::Error> {
        send_number(out, u64::from(*self))
    }
}

impl ToJson for u64 {
    ghost json = { number };

    fn send<S: Serializer>(&self, _alloc: Global, out: &mut S) -> Result<(), S::Error> {
        send_number(out, *self)
    }
}

impl ToJson for usize {
    ghost json = { number };

    fn send<S: Serializer>(&self, _alloc: Global, out: &mut S) -> Result<(), S::Error> {
        send_number(out, *self as u64)
    }
}

impl ToJson for bool {
    ghost use Rattle.show_json.specs.Json.{truth};

    ghost json = { truth };

    fn send<S: Serializer>(&self, _alloc: Global, out: &mut S) -> Result<(), S::Error> {
        out.bool(*self)
    }
}

impl ToJson for &str {
    ghost json = { λ s. text s.now };

    fn send<S: Serializer>(&self, _alloc: Global, out: &mut S) -> Result<(), S::Error> {
        out.str(*self)
    }
}

impl ToJson for String {
    ghost use Rattle.show_json.specs.Json.{string_json};

    ghost json = { string_json };

    fn send<S: Serializer>(&self, _alloc: Global, out: &mut S) -> Result<(), S::Error> {
        out.str(self.as_str())
    }
}

/// Sends a field.
pub fn put<S: Serializer, T: ToJson>(
    alloc: Global,
    out: &mut S,
    name: &str,
    value: &T,
) -> Result<(), S::Error>
    ensures { OnOk result (SendsField (is name.now (T.json value.now)) (S.written out.old) (S.written out.new)) }
{
    out.key(name)?;
    value.send(alloc, out)
}

/// Sends a field, where it is given.
pub fn put_if<S: Serializer, T: ToJson>(
    alloc: Global,
    out: &mut S,
    name: &str,
    value: &Option<T>,
) -> Result<(), S::Error>
    ensures { OnOk result
        (SendsField (is_given name.now T.json value.now) (S.written out.old) (S.written out.new)) }
{
    match value {
        Some(given) => put(alloc, out, name, given),
        None => Ok(()),
    }
}

/// Sends values as a list.
pub(crate) fn send_list<S: Serializer, T: ToJson>(
    alloc: Global,
    out: &mut S,
    values: &[T],
) -> Result<(), S::Error>
    ensures { OnOk result (Sends (list_of T.json values.now) (S.written out.old) (S.written out.new)) }
{
    out.begin_seq(Some(values.len()))?;
    for value in values {
        value.send(alloc, out)?;
    }
    out.end_seq()
}

/// Sends a field with a list.
pub fn put_list<S: Serializer, T: ToJson>(
    alloc: Global,
    out: &mut S,
    name: &str,
    values: &[T],
) -> Result<(), S::Error>
    ensures { OnOk result
        (SendsField (is name.now (list_of T.json values.now)) (S.written out.old) (S.written out.new)) }
{
    out.key(name)?;
    send_list(alloc, out, values)
}

/// The same, where the list has an item.
pub fn put_some<S: Serializer, T: ToJson>(
    alloc: Global,
    out: &mut S,
    name: &str,
    values: &[T],
) -> Result<(), S::Error>
    ensures { OnOk result
        (SendsField (are_some name.now T.json values.now) (S.written out.old) (S.written out.new)) }
{
    if values.is_empty() {
        return Ok(());
    }
    put_list(alloc, out, name, values)
}

/// Sends an object of one field.
pub fn send_one<S: Serializer, T: ToJson>(
    alloc: Global,
    out: &mut S,
    name: &str,
    value: &T,
) -> Result<(), S::Error>
    ensures { OnOk result
        (Sends (object_of (is name.now (T.json value.now) ∷ [])) (S.written out.old) (S.written out.new)) }
{
    out.begin_map(Some(1))?;
    put(alloc, out, name, value)?;
    out.end_map()
}

/// Sends an object of two fields, each a name and a value.
pub fn send_two<S: Serializer, T: ToJson, U: ToJson>(
    alloc: Global,
    out: &mut S,
    first: (&str, &T),
    second: (&str, &U),
) -> Result<(), S::Error>
    ensures { OnOk result
        (Sends (object_of (is first.entry.0.now (T.json first.entry.1.now)
        ∷ is second.entry.0.now (U.json second.entry.1.now) ∷ []))
        (S.written out.old) (S.written out.new)) }
{
    out.begin_map(Some(2))?;
    put(alloc, out, first.0, first.1)?;
    put(alloc, out, second.0, second.1)?;
    out.end_map()
}

/// How many fields there are of one that may be given.
pub fn given<T>(value: &Option<T>) -> usize
    ensures { result ≡ specified.given value.now }
{
    match value {
        Some(_) => 1,
        None => 0,
    }
}

/// How many fields there are of one whose list may be empty.
pub fn some<T>(values: &[T]) -> usize
    ensures { result ≡ specified.some values.now }
{
    if values.is_empty() { 0 } else { 1 }
}

/// A value as serde takes it.
struct Sent<'a, T> {
    alloc: Global,
    value: &'a T,
}

impl<T> Drop for Sent<'_, T> {
    fn drop(self) {
        let Sent { alloc: _, value: _ } = self;
    }
}

impl<T: ToJson> Described for Sent<'_, T> {
    ghost writes = { λ sent. Sends (T.json sent.value.now) };
}

impl<T: ToJson> Serialize for Sent<'_, T> {
    fn serialize<S: Serializer>(&self, out: &mut S) -> Result<(), S::Error> {
        self.value.send(self.alloc, out)
    }
}

/// Writes the text of a value.
///
/// # Errors
/// Where memory is refused, and then nothing is written; that of the writer, and then what was written isn't said.
pub(crate) fn write_text<W: Write, T: ToJson>(
    alloc: Global,
    out: &mut W,
    value: &T,
) -> Result<(), Unwritten>
    ensures text { Wrote W.contents out.old out.new result (json_text (T.json value.now)) }
    ensures left { IfErr result (LeavesAs out.old out.new) }
{
    let Ok(text) = serde_json::to_vec(alloc, &Sent { alloc, value }) else {
        return Err(Unwritten::NoMemory);
    };
    match out.write_all(&text) {
        Ok(()) => Ok(()),
        Err(_) => Err(Unwritten::Output),
    }
}

/// Ends a line, and hands on what the writer holds back.
fn end_line<W: Write>(out: &mut W) -> io::Result<()>
    ensures { Wrote W.contents out.old out.new result (codes "\n") }
{
    out.write_all(b"\n")?;
    out.flush()
}

/// Writes a value as a line.
///
/// # Errors
/// As for `write_text`.
pub fn write_line<W: Write, T: ToJson>(
    alloc: Global,
    out: &mut W,
    value: &T,
) -> Result<(), Unwritten>
    ensures line { Wrote W.contents out.old out.new result (json_line (T.json value.now)) }
    ensures left { IfErr result (LeavesAs out.old out.new) }
{
    write_text(alloc, out, value)?;
    match end_line(out) {
        Ok(()) => Ok(()),
        Err(_) => Err(Unwritten::Output),
    }
}
