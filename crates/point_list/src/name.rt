//! Names of the points in a point list.
ghost use Rattle.std.specs.Prelude.{◌≡◌, ◌↔◌, IsTrue, IsOk, IfOk, IfErr};
ghost use Rattle.std.specs.List.{list_all};
ghost use Rattle.point_list.specs.Names.{is_name, is_name_byte};

use std::marker::Model;

/// The name of a point: 1 to 32 ASCII letters, digits, `_` and `.`, with a letter first.
#[derive(Drop)]
pub struct PointName {
    bytes: Vec<u8>,
}

impl Model for PointName {
    ghost use Rattle.std.specs.Prelude.{List, ℕ, IsTrue};
    ghost use Rattle.point_list.specs.Names.{is_name};

    ghost Value = { List ℕ };

    ghost view = { λ n. n.bytes.items };

    ghost invariant = { λ n. IsTrue (is_name n.bytes.items) };
}

fn is_name_rest(byte: u8) -> bool
    ensures { result ≡ is_name_byte byte }
{
    byte.is_ascii_alphanumeric() || byte == b'_' || byte == b'.'
}

fn are_name_rest(bytes: &[u8]) -> bool
    ensures { result ≡ list_all is_name_byte bytes.now }
{
    bytes.iter().all(|byte| is_name_rest(*byte))
}

/// Returns whether the bytes are a valid point name.
pub fn is_point_name(bytes: &[u8]) -> bool
    ensures { result ≡ is_name bytes.now }
{
    match bytes.split_first() {
        Some((first, rest)) => {
            first.is_ascii_alphabetic() && rest.len() <= 31 && are_name_rest(rest)
        }
        None => false,
    }
}

impl PointName {
    /// Creates a point name from its bytes. Returns the bytes as the error if they are not a valid
    /// name.
    pub fn new(bytes: Vec<u8>) -> Result<Self, Vec<u8>>
        ensures lawful { IsOk result ↔ IsTrue (is_name bytes.items) }
        ensures name { IfOk result (λ name. name ≡ bytes.items) }
        ensures handed_back { IfErr result (λ back. back.items ≡ bytes.items) }
    {
        if is_point_name(&bytes) {
            Ok(PointName { bytes })
        } else {
            Err(bytes)
        }
    }

    /// Creates a point name from bytes that are a valid name, as the function's contract requires.
    pub(crate) fn of_lawful(bytes: Vec<u8>) -> Self
        requires { IsTrue (is_name bytes.items) }
        ensures { result ≡ bytes.items }
    {
        PointName { bytes }
    }

    /// Returns the bytes of the point name.
    pub fn as_bytes(&self) -> &[u8]
        ensures bytes { result.now ≡ self.now }
        ensures lawful { IsTrue (is_name self.now) }
    {
        self.bytes.as_slice()
    }

    /// Consumes the point name, and returns its bytes.
    pub fn into_bytes(self) -> Vec<u8>
        ensures bytes { result.items ≡ self }
        ensures lawful { IsTrue (is_name self) }
    {
        let PointName { bytes } = self;
        bytes
    }
}
