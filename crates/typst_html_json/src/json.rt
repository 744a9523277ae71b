//! Parsing of bytes as JSON, with the line and the column where they are wrong.

ghost use Rattle.typst_html_json.specs.{Json.{json_of}, JsonPlaces.{input_place}, Reading.{ReadsJson}};

use crate::json_place::wrong_place;
use crate::{Fault, InputPlace};
use serde_json::{Category, Value};
use std::alloc::Global;

/// Parses the bytes as a JSON value. Fails with [`Fault::BadInput`] and the place where they are
/// wrong ([`InputPlace::Text`]) if they are not a JSON value or not UTF-8, and with
/// [`Fault::OutOfMemory`] if an allocation fails.
#[tactic(auto, using(crate::proofs::Bytes::json_of_steps))]
pub fn parse(alloc: Global, bytes: &[u8]) -> Result<Value, Fault>
    ensures { ReadsJson result (json_of bytes.now) (input_place bytes.now) }
{
    match Value::from_slice(alloc, bytes) {
        Ok(value) => Ok(value),
        Err(fault) => match fault.classify() {
            Category::Memory => Err(Fault::OutOfMemory),
            _ => {
                let (line, column) = wrong_place(alloc, bytes)?;
                Err(Fault::BadInput(InputPlace::Text(line, column)))
            }
        },
    }
}
