//! Records: parts within their ranges.

ghost use Rattle.std.specs.Prelude.{◌≡◌, IfOk, IfErr};
ghost use Rattle.replay_text.specs.Text.{record_text, IsRecord};
ghost use Rattle.replay_text.specs.declared.parts.RecordParts.{RecordParts};

use crate::parts::RecordParts;
use crate::ranges::is_record_in;
use std::marker::Model;

/// What was recorded of a run, within the ranges of a record. In contracts it is its parts.
#[derive(Drop)]
pub struct Record {
    parts: RecordParts,
}

impl Model for Record {
    ghost use Rattle.replay_text.specs.declared.parts.RecordParts.{RecordParts};
    ghost use Rattle.replay_text.specs.Text.{IsRecord};

    ghost Value = { RecordParts };

    ghost view = { λ r. r.parts };

    ghost invariant = { λ r. IsRecord r.parts };
}

impl Record {
    /// A record of these parts, or the parts again where one is out of its range. No entry is copied.
    pub fn new(parts: RecordParts) -> Result<Record, RecordParts>
        ensures ok { IfOk result (λ r. (r ≡ parts) × IsRecord parts) }
        ensures err { IfErr result (λ p. (p ≡ parts) × ¬ IsRecord parts) }
    {
        if is_record_in(&parts) {
            Ok(Record { parts })
        } else {
            Err(parts)
        }
    }

    pub(crate) fn from_tested(parts: RecordParts) -> Record
        requires { IsRecord parts }
        ensures { result ≡ parts }
    {
        Record { parts }
    }

    /// The record's parts.
    pub fn parts(&self) -> &RecordParts
        ensures parts { result.now ≡ self.now }
        ensures ranges { IsRecord self.now }
    {
        &self.parts
    }

    /// The record's parts, by value.
    pub fn into_parts(self) -> RecordParts
        ensures parts { result ≡ self }
        ensures ranges { IsRecord self }
    {
        self.parts
    }
}

/// Two records with one text are equal.
pub fn one_text()
    ensures { (r s : RecordParts) → IsRecord r → IsRecord s → record_text r ≡ record_text s → r ≡ s }
{}
