//! What threads say.
ghost use Rattle.std.specs.Prelude.{OnOk};
ghost use Rattle.report_json.specs.Said.{said_field, said_json};
ghost use Rattle.show_json.specs.Json.{list_of};
ghost use Rattle.show_json.specs.Sent.{Sends, SendsField};

use serde::Serializer;
use show_json::{ToJson, put};
use show_said::Said;
use std::alloc::Global;

/// Sends a line: who said it, where it ended in the record, and its text.
fn send_line<S: Serializer>(alloc: Global, out: &mut S, said: &Said) -> Result<(), S::Error>
    ensures { OnOk result (Sends (said_json said.now) (S.written out.old) (S.written out.new)) }
{
    out.begin_map(Some(3))?;
    put(alloc, out, "thread", &said.thread)?;
    put(alloc, out, "line", &said.line)?;
    put(alloc, out, "text", &said.text.as_str())?;
    out.end_map()
}

/// Lines, in their order.
#[derive(Clone, Copy)]
struct SaidLines<'a>(&'a [Said]);

impl ToJson for SaidLines<'_> {
    ghost json = { λ lines. list_of said_json lines.0.now };

    fn send<S: Serializer>(&self, alloc: Global, out: &mut S) -> Result<(), S::Error> {
        let lines = self.0;
        out.begin_seq(Some(lines.len()))?;
        for said in lines {
            send_line(alloc, out, said)?;
        }
        out.end_seq()
    }
}

/// Sends the field of what threads say, where they say something.
pub(crate) fn put_said<S: Serializer>(
    alloc: Global,
    out: &mut S,
    said: &[Said],
) -> Result<(), S::Error>
    ensures { OnOk result (SendsField (said_field said.now) (S.written out.old) (S.written out.new)) }
{
    if said.is_empty() {
        return Ok(());
    }
    put(alloc, out, "said", &SaidLines(said))
}
