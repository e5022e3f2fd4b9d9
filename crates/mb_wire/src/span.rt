//! A range of consecutive registers that one Modbus request reads.
ghost use Rattle.mb_wire.specs.declared.limits.TheConstants.{ADDRESSES, MAX_READ_REGISTERS};
ghost use Rattle.std.specs.Prelude.{◌≡◌, ◌≤◌, ◌+◌, ◌↔◌, IsSome, IfSome};

use crate::limits::{ADDRESSES, MAX_READ_REGISTERS};
use crate::requests::Request;

/// A Modbus function that reads registers.
#[derive(Clone, Copy, PartialEq, Eq)]
pub enum ReadFunction {
    /// Function 3: reads holding registers.
    HoldingRegisters,
    /// Function 4: reads input registers.
    InputRegisters,
}

impl ReadFunction {
    ghost use Rattle.mb_wire.specs.Spans.{code_of};

    /// Returns the Modbus function code: 3 or 4.
    pub fn code(self) -> u8
        ensures { result ≡ code_of self }
    {
        match self {
            ReadFunction::HoldingRegisters => 3,
            ReadFunction::InputRegisters => 4,
        }
    }
}

/// A range of 1 to 125 consecutive registers, within the 65536 addresses of a device.
#[derive(Clone, Copy, PartialEq, Eq)]
pub struct ReadSpan {
    pub function: ReadFunction,
    pub address: u16,
    pub count: u16,
    pub ghost some: { 1 ≤ count },
    pub ghost few: { count ≤ MAX_READ_REGISTERS },
    pub ghost inside: { address + count ≤ ADDRESSES },
}

impl ReadSpan {
    ghost use Rattle.mb_wire.specs.Spans.{IsSpan, code_of, request_of, span_view};

    /// Creates a span (a range of registers). Returns `None` unless the function code is 3 or 4 and
    /// the range has 1 to 125 registers within the 65536 addresses of a device.
    pub fn new(function: u8, address: u16, count: u16) -> Option<ReadSpan>
        ensures lawful { IsSome result ↔ IsSpan function address count }
        ensures function { IfSome result (λ span. code_of span.function ≡ function) }
        ensures address { IfSome result (λ span. span.address ≡ address) }
        ensures count { IfSome result (λ span. span.count ≡ count) }
    {
        let function = match function {
            3 => ReadFunction::HoldingRegisters,
            4 => ReadFunction::InputRegisters,
            _ => return None,
        };
        if 1 <= count
            && count <= MAX_READ_REGISTERS
            && u32::from(address) + u32::from(count) <= ADDRESSES
        {
            Some(ReadSpan {
                function,
                address,
                count,
            })
        } else {
            None
        }
    }

    /// Returns the request that reads the registers of this span.
    pub fn request(self) -> Request<'static>
        ensures { result ≡ request_of (span_view self) }
    {
        match self.function {
            ReadFunction::HoldingRegisters => Request::ReadHolding {
                address: self.address,
                quantity: self.count,
            },
            ReadFunction::InputRegisters => Request::ReadInput {
                address: self.address,
                quantity: self.count,
            },
        }
    }
}
