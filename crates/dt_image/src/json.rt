// The JSON value of a file of an image's folder.
ghost use Rattle.std.specs.Prelude.{◌≡◌, ◌≤◌, IfOk, length, option_map};
ghost use Rattle.serde_json.specs.Read.{read};
ghost use Rattle.serde_json.specs.View.{view};
ghost use Rattle.dt_image.specs.ImageOf.{value_of};

use dt_base::{INDEX_LIMIT, NoMemory};
use serde_json::{Category, Value};
use std::alloc::Global;

/// The JSON value (RFC 8259) that bytes are, no more than an index may have; None where they are none.
pub fn parse(alloc: Global, bytes: &[u8]) -> Result<Option<Value>, NoMemory>
    requires { length bytes.now ≤ INDEX_LIMIT }
    ensures { IfOk result (λ found. option_map view found ≡ value_of bytes.now) }
{
    match str::from_utf8(bytes) {
        Ok(text) => parse_text(alloc, text),
        Err(_) => Ok(None),
    }
}

fn parse_text(alloc: Global, text: &str) -> Result<Option<Value>, NoMemory>
    ensures { IfOk result (λ found. option_map view found ≡ read text.now) }
{
    match Value::from_str(alloc, text) {
        Ok(value) => Ok(Some(value)),
        Err(error) if error.classify() == Category::Memory => Err(NoMemory),
        Err(_) => Ok(None),
    }
}
