//! Names of devices, accounting registers (named energy counters) and meters.
ghost use Rattle.std.specs.Prelude.{◌≡◌, ℕ, ◌≤◌, ◌-◌, ◌++◌, ◌↔◌, List, length, take};
ghost use Rattle.std.specs.Prelude.{replicate};
ghost use Rattle.std.specs.List.{list_all};
ghost use Rattle.std.specs.Str.{bytes_eq};
ghost use Rattle.office_events.specs.Names as specs_names;

use crate::limits::MAX_NAME;
use std::marker::Model;

/// The name of a device, accounting register (a named energy counter) or meter: 1 to 16 ASCII
/// letters, digits, `_` or `-`, with a letter first.
#[derive(Clone, Copy, PartialEq, Eq)]
pub struct Name {
    bytes: [u8; MAX_NAME],
    len: usize,
}

impl Model for Name {
    ghost use Rattle.std.specs.Prelude.{◌≡◌, ℕ, ◌≤◌, ◌-◌, ◌++◌, List, length, take};
    ghost use Rattle.std.specs.Prelude.{replicate, true};
    ghost use Rattle.office_events.specs.declared.limits.TheConstants.{MAX_NAME};
    ghost use Rattle.office_events.specs.Names.{is_name};

    ghost Value = { List ℕ };

    ghost view = { λ n. take n.len n.bytes };

    // In the 16-byte array of a name, the bytes after the name are zero. Derived equality of the
    // arrays is therefore equality of the names.
    ghost invariant = { λ n. (n.len ≤ MAX_NAME)
        × (take n.len n.bytes ++ replicate (MAX_NAME - length (take n.len n.bytes)) 0 ≡ n.bytes)
        × (length (take n.len n.bytes) ≡ n.len) × (length n.bytes ≡ MAX_NAME)
        × (is_name (take n.len n.bytes) ≡ true) };

    ghost inverse = { λ text.
        record { bytes = text ++ replicate (MAX_NAME - length text) 0; len = length text } };

    ghost inverse_ok = { λ n h i. record { bytes = h.1 i; len = h.2 i } };
}

fn is_letter(byte: u8) -> bool
    ensures { result ≡ specs_names.is_letter byte }
{
    byte.is_ascii_alphabetic()
}

fn is_name_byte(byte: u8) -> bool
    ensures { result ≡ specs_names.is_name_byte byte }
{
    byte.is_ascii_alphanumeric() || byte == b'_' || byte == b'-'
}

fn are_name_bytes(text: &[u8]) -> bool
    ensures { result ≡ list_all specs_names.is_name_byte text.now }
{
    text.iter().all(|&byte| is_name_byte(byte))
}

fn begins_with_letter(text: &[u8]) -> bool
    ensures { result ≡ specs_names.begins_with_letter text.now }
{
    match text {
        [] => false,
        [first, ..] => is_letter(*first),
    }
}

fn padded(text: &[u8]) -> [u8; MAX_NAME]
    requires { length text.now ≤ MAX_NAME }
    ensures { result ≡ text.now ++ replicate (MAX_NAME - length text.now) 0 }
{
    let mut bytes = [0; MAX_NAME];
    bytes[..text.len()].copy_from_slice(text);
    bytes
}

impl Name {
    /// Creates a name from its bytes, or returns `None` if they are not a valid name.
    pub fn new(text: &[u8]) -> Option<Name>
        ensures { result ≡ specs_names.named text.now }
    {
        if text.len() <= MAX_NAME && begins_with_letter(text) && are_name_bytes(text) {
            Some(Name {
                bytes: padded(text),
                len: text.len(),
            })
        } else {
            None
        }
    }

    /// Returns true if two names are equal.
    pub fn is(&self, other: &Name) -> bool
        ensures { result ≡ bytes_eq self.now other.now }
    {
        self.as_bytes() == other.as_bytes()
    }

    /// Returns the bytes of the name.
    pub fn as_bytes(&self) -> &[u8]
        ensures bytes { result.now ≡ self.now }
        ensures few { length result.now ≤ MAX_NAME }
    {
        &self.bytes[..self.len]
    }
}
