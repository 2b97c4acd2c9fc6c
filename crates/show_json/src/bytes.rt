//! Bytes.
ghost use Rattle.hex.specs.Hex.{encode_lower};
ghost use Rattle.show_json.specs.Json.{text};

use crate::object::ToJson;
use serde::Serializer;
use std::alloc::Global;

/// Bytes, which are printed as digits of base 16.
#[derive(Clone, Copy)]
pub struct Hex<'a>(pub &'a [u8]);

impl ToJson for Hex<'_> {
    ghost json = { λ h. text (encode_lower h.0.now) };

    fn send<S: Serializer>(&self, alloc: Global, out: &mut S) -> Result<(), S::Error> {
        match hex::encode(alloc, self.0) {
            Ok(digits) => out.str(digits.as_str()),
            Err(_) => Err(out.custom("no memory")),
        }
    }
}
