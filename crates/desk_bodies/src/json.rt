//! The JSON value of a body.

ghost use Rattle.std.specs.Prelude.{◌≡◌, None, Some, IfOk};
ghost use Rattle.serde_json.specs.View.{view};
ghost use Rattle.desk_bodies.specs.Values.{json_of};

use crate::fault::BodyFault;
use serde_json::Value;
use std::alloc::Global;

/// The JSON value that the body is.
pub fn read_json(alloc: Global, body: &[u8]) -> Result<Value, BodyFault>
    ensures read { IfOk result (λ value. json_of body.now ≡ Some (view value)) }
    ensures refused { result ≡ Err BodyFault.Form → json_of body.now ≡ None }
{
    match Value::from_slice(alloc, body) {
        Ok(value) => Ok(value),
        Err(error) if error.is_memory() => Err(BodyFault::NoMemory),
        Err(_) => Err(BodyFault::Form),
    }
}
