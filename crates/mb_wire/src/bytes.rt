//! Reads big-endian 16-bit numbers from a Modbus PDU, and appends coils and registers to a PDU.
ghost use Rattle.std.specs.Prelude.{◌≡◌, ◌+◌, ◌*◌, ◌/◌, ◌%◌, ◌^◌, ◌≤◌, ◌<◌, ◌++◌};
ghost use Rattle.std.specs.Prelude.{length, take};
ghost use Rattle.mb_wire.specs.Bytes.{number_at, word_bytes, words_of};
ghost use Rattle.mb_wire.specs.Coils.{bytes_for, coils_of, packed};
ghost use Rattle.mb_wire.specs.Requests.{head_bytes};

use crate::limits::MAX_PDU;
use byteorder::{BigEndian, ByteOrder};

// Returns the big-endian 16-bit number that starts at index `place` of `bytes`.
pub(crate) fn read_number(bytes: &[u8], place: usize) -> u16
    requires { place + 2 ≤ length bytes.now }
    ensures { result ≡ number_at bytes.now place }
{
    BigEndian::read_u16(&bytes[place..])
}

// Returns the first five bytes of a request: the function code and two 16-bit numbers.
pub(crate) fn head(function: u8, address: u16, field: u16) -> [u8; 5]
    ensures { result ≡ head_bytes function address field }
{
    let [address_high, address_low] = address.to_be_bytes();
    let [field_high, field_low] = field.to_be_bytes();
    [function, address_high, address_low, field_high, field_low]
}

// Writes `bytes` into `out` from index `end`, and returns the index after the last byte written.
pub(crate) fn append(out: &mut [u8; MAX_PDU], end: usize, bytes: &[u8]) -> usize
    requires { end + length bytes.now ≤ MAX_PDU }
    ensures count { result ≡ end + length bytes.now }
    ensures written { take result out.new ≡ take end out.old ++ bytes.now }
{
    let new_end = end + bytes.len();
    out[end..new_end].copy_from_slice(bytes);
    new_end
}

// Returns the `count` lowest bits of a byte, with all higher bits set to 0.
fn lowest_bits(byte: u8, count: u16) -> u8
    requires { count < 8 }
    ensures { result ≡ byte % 2 ^ count }
{
    let limit = 1u16 << count;
    (u16::from(byte) % limit) as u8
}

// Writes `quantity` coils into `out` from index `end`, and returns the index after the last byte
// written. The spare bits of the last byte are 0.
pub(crate) fn append_coils(
    out: &mut [u8; MAX_PDU],
    end: usize,
    quantity: u16,
    bytes: &[u8],
) -> usize
    requires fits { end + length bytes.now ≤ MAX_PDU }
    requires bytes { length bytes.now ≡ bytes_for quantity }
    ensures count { result ≡ end + length bytes.now }
    ensures written { take result out.new ≡
        take end out.old ++ packed (coils_of quantity bytes.now) }
{
    let whole = usize::from(quantity / 8);
    let new_end = append(out, end, &bytes[..whole]);
    if quantity % 8 == 0 {
        new_end
    } else {
        append(out, new_end, &[lowest_bits(bytes[whole], quantity % 8)])
    }
}

// Writes the bytes of registers into `out` from index `end`, and returns the index after the last
// byte written.
pub(crate) fn append_words(out: &mut [u8; MAX_PDU], end: usize, bytes: &[u8]) -> usize
    requires fits { end + length bytes.now ≤ MAX_PDU }
    requires bytes { length bytes.now ≡ 2 * length (words_of bytes.now) }
    ensures count { result ≡ end + length bytes.now }
    ensures written { take result out.new ≡ take end out.old ++ word_bytes (words_of bytes.now) }
{
    append(out, end, bytes)
}
