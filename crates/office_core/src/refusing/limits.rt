//! Checks whether the names, scales and numbers of a command are in range.
ghost use Rattle.std.specs.Prelude.{◌≡◌, nat_lt, false};
ghost use Rattle.office_events.specs.declared.commands.Command.TheVariants as command;
ghost use Rattle.office_books.specs.Refusals as refusals;

use energy_core::{MAX_CEILING, MAX_RANGE, MAX_SCALE, MIN_RANGE, MIN_SCALE};
use mb_wire::MAX_READ_REGISTERS;
use office_events::{
    AddDevice, AddRegister, Close, Exchange, GivenScale, LAST_ADDRESS, LAST_COUNTER, LAST_UNIT,
    MAX_ROLLS, Manual, Name, Rescale,
};
use poll_core::{MAX_TIMEOUT, MAX_WINDOW};

/// Returns true if a scale factor is not from -3 to 3.
pub fn is_off_scale(sf: i64) -> bool
    ensures { result ≡ refusals.is_off_scale sf }
{
    sf < i64::from(MIN_SCALE) || i64::from(MAX_SCALE) < sf
}

/// Returns true if the new scale factor of a change of scale is out of the range that is permitted
/// for a counter (-3 to 3).
pub fn is_off_scale_rescale(rescale: &Rescale) -> bool
    ensures { result ≡ refusals.asks_bad_scale (command.Rescale rescale.now) }
{
    is_off_scale(rescale.sf)
}

/// Returns true if the scale factor of the new meter in an exchange is not from -3 to 3.
pub fn is_off_scale_exchange(exchange: &Exchange) -> bool
    ensures { result ≡ refusals.asks_bad_scale (command.Exchange exchange.now) }
{
    is_off_scale(exchange.sf)
}

/// Returns true if the scale of a new accounting register (a named energy counter) is a fixed scale
/// factor outside the range that the program accepts.
pub fn is_bad_scale(scale: GivenScale) -> bool
    ensures { result ≡ refusals.is_bad_scale scale }
{
    match scale {
        GivenScale::Fixed(sf) => is_off_scale(sf),
        GivenScale::Register(_) => false,
    }
}

/// Returns true if a number is below `low` or above `high`.
fn is_outside(low: u64, high: u64, n: u64) -> bool
    ensures { result ≡ refusals.is_outside low high n }
{
    n < low || high < n
}

/// Returns true if a name or a number of a new device is invalid.
pub fn is_bad_device(moment: u64, device: &AddDevice) -> bool
    ensures { result ≡ refusals.asks_bad_field moment (command.AddDevice device.now) }
{
    device.name.is_none()
        || LAST_UNIT < device.unit
        || is_outside(1, MAX_TIMEOUT, device.timeout)
        || is_outside(1, MAX_WINDOW as u64, device.window)
}

/// Returns true if the Modbus address of a scale factor is out of range.
fn is_bad_address(scale: GivenScale) -> bool
    ensures { result ≡ refusals.is_bad_address scale }
{
    match scale {
        GivenScale::Fixed(_) => false,
        GivenScale::Register(address) => LAST_ADDRESS < address,
    }
}

/// Returns true if a single Modbus read cannot contain both the counter and its scale factor.
fn is_wide(address: u64, scale: GivenScale) -> bool
    requires address { nat_lt LAST_COUNTER address ≡ false }
    requires scale { refusals.is_bad_address scale ≡ false }
    ensures { result ≡ nat_lt MAX_READ_REGISTERS (refusals.registers_spanned address scale) }
{
    match scale {
        GivenScale::Fixed(_) => false,
        GivenScale::Register(at) => u64::from(MAX_READ_REGISTERS)
            < (address + 2).max(at + 1) - address.min(at),
    }
}

/// Returns true if a name or a number of a new accounting register (a named energy counter) is
/// invalid.
pub fn is_bad_register(moment: u64, register: &AddRegister) -> bool
    ensures { result ≡ refusals.asks_bad_field moment (command.AddRegister register.now) }
{
    register.name.is_none()
        || is_outside(3, 4, register.function)
        || LAST_COUNTER < register.address
        || is_bad_address(register.scale)
        || is_wide(register.address, register.scale)
}

/// Returns true if the meter's name, range or maximum power is invalid, or if the counter cannot
/// show `raw`.
pub fn is_bad_meter(meter: &Option<Name>, range: u64, raw: u64, ceiling: u64) -> bool
    ensures { result ≡ refusals.is_bad_meter meter.now range raw ceiling }
{
    meter.is_none()
        || is_outside(MIN_RANGE, MAX_RANGE, range)
        || range <= raw
        || is_outside(1, MAX_CEILING, ceiling)
}

/// Returns true if the given time of a manual reading is later than the time of the command.
fn is_later(moment: u64, reported: Option<u64>) -> bool
    ensures { result ≡ refusals.is_later moment reported }
{
    match reported {
        None => false,
        Some(at) => moment < at,
    }
}

/// Returns true if the command for a manual reading has too many counter rollovers, or a time of
/// the reading that is after the command's time.
pub fn is_bad_manual(moment: u64, manual: &Manual) -> bool
    ensures { result ≡ refusals.asks_bad_field moment (command.Manual manual.now) }
{
    MAX_ROLLS < manual.rolls || is_later(moment, manual.at)
}

/// Returns true if a number in the command to close a meter is out of the range that commands
/// permit for it.
pub fn is_bad_close(moment: u64, close: &Close) -> bool
    ensures { result ≡ refusals.asks_bad_field moment (command.Close close.now) }
{
    MAX_ROLLS < close.rolls
}

/// Returns true if a name or a number in the command to exchange a meter is invalid.
pub fn is_bad_exchange(moment: u64, exchange: &Exchange) -> bool
    ensures { result ≡ refusals.asks_bad_field moment (command.Exchange exchange.now) }
{
    MAX_ROLLS < exchange.rolls
        || is_bad_meter(
            &exchange.meter,
            exchange.range,
            exchange.raw,
            exchange.ceiling,
        )
}
