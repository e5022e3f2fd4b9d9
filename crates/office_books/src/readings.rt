//! Selects the accounting registers (named energy counters) that a Modbus read covers.
ghost use Rattle.std.specs.Prelude.{◌≡◌, ◌≤◌, IfOk};
ghost use Rattle.std.specs.List.{filter};
ghost use Rattle.office_books.specs.Readings as readings;

use mb_wire::ReadSpan;
use office_events::{Register, ScaleSource};
use std::alloc::{AllocError, Global};

fn contains(span: ReadSpan, address: u16, count: u32) -> bool
    requires { count ≤ 2 }
    ensures { result ≡ readings.contains span address count }
{
    let address = u32::from(address);
    let from = u32::from(span.address);
    from <= address && address + count <= from + u32::from(span.count)
}

/// Returns true if the read contains the Modbus register with the scale factor, or if the scale is
/// fixed.
fn contains_scale(span: ReadSpan, scale: ScaleSource) -> bool
    ensures { result ≡ readings.contains_scale span scale }
{
    match scale {
        ScaleSource::Fixed(_) => true,
        ScaleSource::Register(address) => contains(span, address, 1),
    }
}

/// Returns true if the response to a Modbus read contains a reading of the accounting register (an
/// energy counter).
///
/// A Modbus read that covers an accounting register (a named energy counter) must have the
/// register's function code and contain both Modbus registers of the counter. It must also contain
/// the Modbus register with the scale factor, if the scale factor is not fixed.
pub fn is_read_by(span: ReadSpan, register: &Register) -> bool
    ensures { result ≡ readings.is_read_by span register.now }
{
    span.function.code() == register.function.code()
        && contains(span, register.address, 2)
        && contains_scale(span, register.scale)
}

/// Returns copies of only those accounting registers (energy counters) that the Modbus read covers.
pub fn registers_read(
    alloc: Global,
    registers: &[Register],
    span: ReadSpan,
) -> Result<Vec<Register>, AllocError>
    ensures { IfOk result (λ v. v.items ≡ filter (readings.is_read_by span) registers.now) }
{
    let mut read = Vec::new(alloc);
    for register in registers {
        if is_read_by(span, register) {
            read.push(*register)?;
        }
    }
    Ok(read)
}

/// Removes the accounting registers (energy counters) that the Modbus read does not cover, without
/// allocating memory.
pub fn retain_covered(registers: &mut Vec<Register>, span: ReadSpan)
    ensures { registers.new.items ≡ filter (readings.is_read_by span) registers.old.items }
{
    registers.retain(|register| is_read_by(span, register));
}
