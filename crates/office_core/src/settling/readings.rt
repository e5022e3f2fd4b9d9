//! Decodes the reading of an accounting register (a named energy counter) from a Modbus response.
ghost use Rattle.std.specs.Prelude.{◌≡◌};
ghost use Rattle.office_books.specs.Readings as readings;
ghost use Rattle.office_core.specs.Settling.Replies.{words_of};

use energy_core::Reading;
use mb_wire::{ReadSpan, Reply};
use office_events::{Register, ScaleSource};
use sun_points::{acc32, sunssf};

/// Returns the value of the Modbus register at an address in the response, or 0 past the end of the
/// response.
fn word_at(span: ReadSpan, reply: &Reply, address: u32) -> u16
    ensures { result ≡ readings.word_at span (words_of reply.now) address }
{
    let place = address.saturating_sub(u32::from(span.address));
    reply.word(place as usize).unwrap_or(0)
}

/// Returns the scale factor of an accounting register (a named energy counter): fixed, or from a
/// Modbus register of the response.
fn scale_of(span: ReadSpan, reply: &Reply, scale: ScaleSource) -> i16
    ensures { result ≡ readings.scale_of span (words_of reply.now) scale }
{
    match scale {
        ScaleSource::Fixed(sf) => sf,
        ScaleSource::Register(address) => sunssf(word_at(span, reply, u32::from(address))),
    }
}

/// Returns the reading of an accounting register (a named energy counter) in a Modbus response: its
/// counter value and its scale factor.
pub fn reading_of(at: u64, span: ReadSpan, reply: &Reply, register: &Register) -> Reading
    ensures { result ≡ readings.reading_of at span (words_of reply.now) register.now }
{
    let address = u32::from(register.address);
    let high = word_at(span, reply, address);
    let low = word_at(span, reply, address + 1);
    Reading {
        at,
        raw: acc32(high, low),
        sf: scale_of(span, reply, register.scale),
    }
}
