//! One Modbus request of a read of a device's registers.
use mb_wire::ReadSpan;

/// One Modbus request of a read: its transaction identifier, its unit identifier, and the requested
/// registers.
#[derive(Clone, Copy)]
pub(crate) struct Try {
    pub(crate) id: u16,
    pub(crate) unit: u8,
    pub(crate) span: ReadSpan,
}
