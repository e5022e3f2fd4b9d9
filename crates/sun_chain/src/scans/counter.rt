//! Reads a counter of a device and its scale once.
ghost use Rattle.std.specs.Prelude.{◌≡◌, ◌≤◌, ◌+◌, ◌*◌, [], Err, Some, IfOk};
ghost use Rattle.std.specs.Option.{option_map};
ghost use Rattle.mb_wire.specs.Links.{risen};
ghost use Rattle.mb_wire.specs.Spans.{span_view};
ghost use Rattle.sun_chain.specs.Scanning.Counters as specs;
ghost use Rattle.sun_chain.specs.Scanning.Counters.{AsksCounter, ShowsCounter, counter_span};
ghost use Rattle.sun_chain.specs.Scanning.Lines.{Garbles, has_failed, is_gone};
ghost use Rattle.sun_chain.specs.declared.scans.hearing.TheConstants.{MOST_TAKES};

use crate::scans::client::Client;
use crate::scans::fault::ScanFault;
use mb_wire::{ADDRESSES, Link, MAX_READ_REGISTERS, ReadFunction, ReadSpan};
use std::alloc::Global;
use sun_points::{acc32, sunssf};

/// Where the power of ten of a counter's unit comes from: a fixed number, or a `sunssf` register of
/// the device.
#[derive(Clone, Copy)]
pub enum CounterScale {
    /// A fixed power of ten for a counter's values, which is not read from the device.
    Fixed(i16),
    /// The `sunssf` register at this address of the device.
    Register(u16),
}

/// The value of a counter: its count, and the power of ten of the count's unit.
#[derive(Clone, Copy, PartialEq, Eq)]
pub struct Shown {
    pub raw: u32,
    pub sf: i16,
}

fn first_register(address: u16, scale: CounterScale) -> u16
    ensures { result ≡ specs.first_register address scale }
{
    match scale {
        CounterScale::Fixed(_) => address,
        CounterScale::Register(at) => address.min(at),
    }
}

fn end_register(address: u16, scale: CounterScale) -> u32
    ensures { result ≡ specs.end_register address scale }
{
    let end = u32::from(address) + 2;
    match scale {
        CounterScale::Fixed(_) => end,
        CounterScale::Register(at) => end.max(u32::from(at) + 1),
    }
}

fn span_of(function: ReadFunction, address: u16, scale: CounterScale) -> Option<ReadSpan>
    ensures { option_map span_view result ≡ counter_span function address scale }
{
    let first = first_register(address, scale);
    let end = end_register(address, scale);
    let count = end - u32::from(first);
    if count <= u32::from(MAX_READ_REGISTERS) && end <= ADDRESSES {
        Some(ReadSpan {
            function,
            address: first,
            count: count as u16,
        })
    } else {
        None
    }
}

// Returns the word at an address, or 0 if the words do not include the address. A caller must first
// have read every address for which it calls this function.
fn word_at(first: u16, words: &[u16], address: u32) -> u16
    ensures { result ≡ specs.word_at first words.now address }
{
    let place = address.saturating_sub(u32::from(first));
    words.get(place as usize).copied().unwrap_or(0)
}

fn allowed(sf: i16) -> Option<i16>
    ensures { result ≡ specs.allowed sf }
{
    if -3 <= sf && sf <= 3 { Some(sf) } else { None }
}

// Returns the power of ten in a sunssf register, or `None` if the register has the value for "not
// implemented" or a power that is not from -3 to 3.
fn decode_scale(word: u16) -> Option<i16>
    ensures { result ≡ specs.reported word }
{
    if word == 0x8000 {
        None
    } else {
        allowed(sunssf(word))
    }
}

fn scale_in(first: u16, words: &[u16], scale: CounterScale) -> Option<i16>
    ensures { result ≡ specs.scale_in first words.now scale }
{
    match scale {
        CounterScale::Fixed(sf) => allowed(sf),
        CounterScale::Register(at) => decode_scale(word_at(first, words, u32::from(at))),
    }
}

fn decode_counter(first: u16, words: &[u16], address: u16, scale: CounterScale) -> Option<Shown>
    ensures { result ≡ specs.decode_counter first words.now address scale }
{
    let high = word_at(first, words, u32::from(address));
    let low = word_at(first, words, u32::from(address) + 1);
    match scale_in(first, words, scale) {
        Some(sf) => Some(Shown {
            raw: acc32(high, low),
            sf,
        }),
        None => None,
    }
}

/// Reads a counter of a unit over a new link (the connection to a device): two registers from
/// `address`, high word first, and the register of the scale. One read requests all of these
/// registers, and is retried once if it returns no words.
///
/// Returns `None` if neither the read nor its one retry returns registers. Also if the scale
/// register is not implemented or its power of ten is not from -3 to 3. If one Modbus read cannot
/// request all registers, returns `None` without sending a request.
pub fn read_counter<L: Link>(
    alloc: Global,
    link: &mut L,
    unit: u8,
    function: ReadFunction,
    address: u16,
    scale: CounterScale,
) -> Result<Option<Shown>, ScanFault>
    ensures shown { IfOk result (ShowsCounter unit (counter_span function address scale)
        (L.remaining link.old) (L.given link.old) (L.remaining link.new) (L.given link.new)
        address scale) }
    ensures asks { AsksCounter unit (counter_span function address scale) result
        (L.given link.old) (L.given link.new) }
    ensures garbled { result ≡ Err ScanFault.Garbled
        → Garbles (L.remaining link.old) (L.remaining link.new) [] }
    ensures failures { L.failed link.new ≡ risen (has_failed result) (L.failed link.old) }
    ensures ends { L.ended link.new ≡ risen (is_gone result) (L.ended link.old) }
    ensures takes { L.taken link.new ≤ L.taken link.old + 2 * MOST_TAKES }
{
    let Some(span) = span_of(function, address, scale) else {
        return Ok(None);
    };
    let mut client = Client::new(unit);
    match client.read(alloc, link, span) {
        Ok(Some(words)) => Ok(decode_counter(span.address, &words, address, scale)),
        Ok(None) => Ok(None),
        Err(fault) => Err(fault),
    }
}
