//! Reading a record.

ghost use Rattle.std.specs.Prelude.{◌≡◌, ◌⊎◌, ℕ, List, IfOk, IfErr};
ghost use Rattle.replay_text.specs.Faults.{Gives};
ghost use Rattle.replay_text.specs.Reading.{record_at};
ghost use Rattle.replay_text.specs.Refusals.{record_refusal};
ghost use Rattle.replay_text.specs.Text.{record_text, IsRecord, FindsRecord};
ghost use Rattle.replay_text.specs.Breaks.{IsFaultOf};
ghost use Rattle.replay_text.specs.declared.fault.RecordFault.{RecordFault};
ghost use Rattle.replay_text.specs.declared.fault.RecordFault.TheVariants.{NoMemory};
ghost use Rattle.replay_text.specs.declared.parts.RecordParts.{RecordParts};

use crate::body::body_in;
use crate::fault::RecordFault;
use crate::header::header_in;
use crate::parts::RecordParts;
use crate::record::Record;
use std::alloc::Global;

#[tactic(auto, unfolding(crate::specs::Reading::record_at))]
fn parts_in(alloc: Global, bytes: &[u8]) -> Result<RecordParts, RecordFault>
    ensures { Gives (λ r. r) result (record_refusal bytes.now) (record_at bytes.now) }
{
    let (header, rest) = header_in(alloc, bytes)?;
    let scale = header.scale;
    let (body, rest) = body_in(alloc, scale, header.limit, rest)?;
    if !rest.is_empty() {
        let lines = scale.version.header_lines() + body.log.len() + body.ends.len();
        return Err(RecordFault::Unreadable(lines + 3));
    }
    Ok(RecordParts {
        version: scale.version,
        module_len: scale.module_len,
        threads: scale.threads,
        max_pages: scale.max_pages,
        invoke: header.invoke,
        args: header.args,
        fuel: header.fuel,
        limit: header.limit,
        log: body.log,
        ends: body.ends,
        pages: body.pages,
    })
}

/// The record whose text the bytes are, all of them.
///
/// The text is cut into lines at each line feed; a last piece without one is no line. A wrong or missing line among the
/// first eight, or five where the first says version 1, is `Header` with the number of the first such line. Behind them
/// the first line that is wrong where it stands is `Unreadable` with its number, from 1 on; a text that ends before the
/// line `finish` is `EndMissing`; and any byte behind that line is `Unreadable` with the number of the line behind it.
/// `NoMemory` says nothing of the bytes.
#[tactic(auto, using(crate::proofs::Whole::record_takes, crate::proofs::Whole::read_found))]
pub fn read_record(alloc: Global, bytes: &[u8]) -> Result<Record, RecordFault>
    ensures ok { IfOk result (λ r. IsRecord r × (bytes.now ≡ record_text r)) }
    ensures found { FindsRecord bytes.now result }
    ensures refused { IfErr result (λ e. (e ≡ NoMemory) ⊎ IsFaultOf bytes.now e) }
{
    match parts_in(alloc, bytes) {
        Ok(parts) => Ok(Record::from_tested(parts)),
        Err(fault) => Err(fault),
    }
}

/// Bytes have one fault at most.
pub fn one_fault()
    ensures { (bytes : List ℕ) (e f : RecordFault) → IsFaultOf bytes e → IsFaultOf bytes f → e ≡ f }
{}

/// A record's text has none.
pub fn no_fault()
    ensures { (r : RecordParts) (e : RecordFault) → IsRecord r → IsFaultOf (record_text r) e → ⊥ }
{}
