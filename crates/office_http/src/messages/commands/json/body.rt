//! Parses the body of a request as JSON.
ghost use Rattle.std.specs.Prelude.{◌≡◌, ◌≢◌, ◌<◌, IfOk, IsUtf8, Some, None, length};
ghost use Rattle.serde_json.specs.View.{view};
ghost use Rattle.serde_json.specs.Read.{read};

use serde_json::Value;
use std::alloc::Global;
use std::error::Error;
use std::fmt;
use std::fmt::{Display, Formatter};

/// The JSON value of a request's body.
pub type Body = Value;

/// The reason why a JSON body contains no valid command.
#[derive(Clone, Copy, Debug)]
pub enum BodyFault {
    /// The body is not JSON, or a required member is missing or has the wrong type.
    Malformed,
    /// All required members exist, but a number that must not be negative is negative.
    Negative,
    /// Out of memory.
    Memory,
}

impl Display for BodyFault {
    fn fmt<W: fmt::Write>(&self, f: &mut Formatter<W>) -> fmt::Result {
        f.write_str(match self {
            BodyFault::Malformed =>
                "the body is no JSON, or a member that is wanted is missing or of another kind",
            BodyFault::Negative => "a number of the body is negative",
            BodyFault::Memory => "memory ran out",
        })
    }
}

impl Error for BodyFault {}

/// Parses the bytes of a request's body as JSON (RFC 8259).
pub fn body_of(alloc: Global, bytes: &[u8]) -> Result<Body, BodyFault>
    ensures utf8 { IfOk result (λ body. IsUtf8 bytes.now) }
    ensures spelled { IfOk result (λ body. read bytes.now ≡ Some (view body)) }
    ensures malformed { result ≡ Err BodyFault.Malformed → IsUtf8 bytes.now
        → read bytes.now ≡ None }
    ensures memory { result ≡ Err BodyFault.Memory → 0 < length bytes.now }
    ensures never { result ≢ Err BodyFault.Negative }
{
    match Value::from_slice(alloc, bytes) {
        Ok(body) => Ok(body),
        Err(error) => {
            if error.is_memory() {
                Err(BodyFault::Memory)
            } else {
                Err(BodyFault::Malformed)
            }
        }
    }
}
