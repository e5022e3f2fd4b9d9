//! Packs values into the data bytes of a response, and unpacks the data bytes of a request.
ghost use Rattle.std.specs.Prelude.{◌≡◌, ◌≤◌, ◌<◌, ◌+◌, ◌*◌, ◌/◌, ◌^◌, ◌++◌, slice_get};
ghost use Rattle.std.specs.Prelude.{map, length, take};
ghost use Rattle.std.specs.Option.{option_map};
ghost use Rattle.mb_wire.specs.Bytes.{word, word_bytes, words_of};
ghost use Rattle.mb_wire.specs.Coils.{bytes_for, coils_of, number_of, packed};
ghost use Rattle.mb_device.specs.Maps.{all_written};
ghost use Rattle.mb_device.specs.Device.{coil_number, is_kept_on, kept_value};

use mb_wire::{MAX_READ_COILS, MAX_READ_REGISTERS, Reply};

// The most data bytes in the response to a read: 2,000 coils need as many bytes as 125 registers.
pub(crate) const MAX_BYTES: usize = 250;

// Packs up to eight values into a byte, the lowest bit first.
fn pack_byte(values: &[Option<u16>]) -> u8
    requires { length values.now ≤ 8 }
    ensures value { result ≡ number_of (map is_kept_on values.now) }
    ensures fits { result < 2 ^ length values.now }
{
    match values {
        [] => 0,
        [first, others @ ..] => u8::from(first.unwrap_or(0) != 0) + 2 * pack_byte(others),
    }
}

// Writes values as coils to the front of `out`, eight to a byte, and returns the number of bytes
// written.
pub(crate) fn pack_coils(values: &[Option<u16>], out: &mut [u8; MAX_BYTES]) -> usize
    requires { length values.now ≤ MAX_READ_COILS }
    ensures count { result ≡ bytes_for (length values.now) }
    ensures written { take result out.new ≡ packed (map is_kept_on values.now) }
{
    let count = (values.len() + 7) / 8;
    for i in 0..count {
        let end = values.len().min(8 * i + 8);
        out[i] = pack_byte(&values[8 * i..end]);
    }
    count
}

// Writes the value into `out` as register `i`: two bytes, the high byte first.
fn write_word(out: &mut [u8; MAX_BYTES], i: usize, value: u16)
    requires { i < MAX_READ_REGISTERS }
    ensures { take (2 * i + 2) out.new ≡ take (2 * i) out.old ++ word value }
{
    let place = 2 * i;
    out[place..place + 2].copy_from_slice(&value.to_be_bytes());
}

// Writes values as registers to the front of `out`, two bytes each, and returns the number of bytes
// written.
pub(crate) fn pack_words(values: &[Option<u16>], out: &mut [u8; MAX_BYTES]) -> usize
    requires { length values.now ≤ MAX_READ_REGISTERS }
    ensures count { result ≡ 2 * length values.now }
    ensures written { take result out.new ≡ word_bytes (map kept_value values.now) }
{
    for (i, value) in values.iter().enumerate() {
        write_word(out, i, value.unwrap_or(0));
    }
    2 * values.len()
}

// Writes the registers in the data bytes of a request into the device's table of registers, from
// index `place`.
pub(crate) fn write_words(table: &mut [Option<u16>], place: usize, bytes: &[u8])
    requires { place + length bytes.now / 2 ≤ length table.old }
    ensures { table.new ≡ all_written table.old place (words_of bytes.now) }
{
    for i in 0..bytes.len() / 2 {
        table[place + i] = Reply::Words(bytes).word(i);
    }
}

// Returns coil `i` of the data bytes as 0 or 1, or `None` if the data has no such coil.
fn coil_in(quantity: u16, bytes: &[u8], i: usize) -> Option<u16>
    ensures { result ≡ option_map coil_number (slice_get (coils_of quantity bytes.now) i) }
{
    match (Reply::Bits { quantity, bytes }).bit(i) {
        Some(on) => Some(u16::from(on)),
        None => None,
    }
}

// Writes the coils in the data bytes of a request into the device's table of coils as 0 or 1, from
// index `place`.
pub(crate) fn write_coils(table: &mut [Option<u16>], place: usize, quantity: u16, bytes: &[u8])
    requires count { length bytes.now ≡ bytes_for quantity }
    requires fits { place + quantity ≤ length table.old }
    ensures { table.new ≡
        all_written table.old place (map coil_number (coils_of quantity bytes.now)) }
{
    for i in 0..usize::from(quantity) {
        table[place + i] = coil_in(quantity, bytes, i);
    }
}
