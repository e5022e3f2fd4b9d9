//! The sizes and counts that the Modbus standards allow. Each constant states its section of the
//! Modbus Application Protocol V1.1b3 or of the Messaging on TCP/IP Implementation Guide V1.0b.
//!
//! A frame over TCP (an ADU) is a header (MBAP) and a PDU:
//!
//! ```text
//!  byte   0      1      2      3      4      5      6       7        8 ..
//!       +------+------+------+------+------+------+------+----------+-----------+
//!       | transaction | protocol, 0 | length      | unit | function | data      |
//!       +------+------+------+------+------+------+------+----------+-----------+
//!       |<---------------- MBAP, 7 bytes --------------->|<-- PDU, 1 to 253 --->|
//!                                                 |<- as many as length says -->|
//! ```
//!
//! All numbers in a frame are big-endian.

/// The greatest length of a PDU in bytes, with its function code (Modbus Application Protocol,
/// section 4.1).
pub const MAX_PDU: usize = 253;

/// The length of the header before a PDU, in bytes (Messaging on TCP/IP, section 3.1.3).
pub const MBAP_HEADER: usize = 7;

/// The greatest length of a frame in bytes: a header and the longest PDU (Modbus Application
/// Protocol, section 4.1).
pub const MAX_ADU: usize = 260;

/// The least value of a header's length field, in bytes: a unit identifier and a function code
/// (Messaging on TCP/IP, section 3.1.3).
pub const MIN_LENGTH: usize = 2;

/// The greatest value of a header's length field, in bytes: a unit identifier and the longest PDU
/// (Messaging on TCP/IP, section 3.1.3).
pub const MAX_LENGTH: usize = 254;

/// The number of addresses of each kind of data in a device: registers or coils (Modbus Application
/// Protocol, section 4.3).
pub const ADDRESSES: u32 = 65536;

/// The greatest number of coils or discrete inputs in a read request (Modbus Application Protocol,
/// sections 6.1 and 6.2).
pub const MAX_READ_COILS: u16 = 2000;

/// The greatest number of registers in a read request (Modbus Application Protocol, sections 6.3
/// and 6.4).
pub const MAX_READ_REGISTERS: u16 = 125;

/// The greatest number of coils in a write request (Modbus Application Protocol, section 6.11).
pub const MAX_WRITE_COILS: u16 = 1968;

/// The greatest number of registers in a write request (Modbus Application Protocol, section 6.12).
pub const MAX_WRITE_REGISTERS: u16 = 123;
