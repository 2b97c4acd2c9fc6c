//! How threads end.
ghost use Rattle.show_json.specs.Json.{text};
ghost use Rattle.show_json.specs.Outcomes.{outcome_json, result_json};
ghost use Rattle.types.specs.Outcomes.{stop_words, trap_words};

use crate::object::{ToJson, send_one, send_two};
use serde::Serializer;
use std::alloc::Global;
use types::{Outcome, Stop, Trap, Value};

impl ToJson for Option<Value> {
    ghost json = { result_json };

    fn send<S: Serializer>(&self, alloc: Global, out: &mut S) -> Result<(), S::Error> {
        match *self {
            None => out.unit(),
            Some(Value::I32(n)) => send_one(alloc, out, "i32", &n),
            Some(Value::I64(n)) => send_one(alloc, out, "i64", &n),
        }
    }
}

impl ToJson for Trap {
    ghost json = { λ t. text (trap_words t) };

    fn send<S: Serializer>(&self, alloc: Global, out: &mut S) -> Result<(), S::Error> {
        match self.to_string(alloc) {
            Ok(words) => out.str(words.as_str()),
            Err(_) => Err(out.custom("no memory")),
        }
    }
}

impl ToJson for Stop {
    ghost json = { λ s. text (stop_words s) };

    fn send<S: Serializer>(&self, alloc: Global, out: &mut S) -> Result<(), S::Error> {
        match self.to_string(alloc) {
            Ok(words) => out.str(words.as_str()),
            Err(_) => Err(out.custom("no memory")),
        }
    }
}

impl ToJson for Outcome {
    ghost json = { outcome_json };

    fn send<S: Serializer>(&self, alloc: Global, out: &mut S) -> Result<(), S::Error> {
        match self {
            Outcome::Done(result) => send_one(alloc, out, "ok", result),
            Outcome::Trap(trap) => send_two(alloc, out, ("trap", trap), ("number", &trap.number())),
            Outcome::Stop(stop) => send_two(alloc, out, ("stop", stop), ("number", &stop.number())),
        }
    }
}
