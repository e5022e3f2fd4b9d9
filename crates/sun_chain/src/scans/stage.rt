//! The stages of a scan of a device. A stage says what the scan reads next.
use crate::Model;

/// The kind of words that a scan reads next: the `SunS` mark, the ID and length of a SunSpec model,
/// or the registers of a model.
#[derive(Clone, Copy, PartialEq, Eq)]
pub(crate) enum Stage {
    /// The scan next reads the `SunS` mark at this base address.
    Mark(u16),
    /// The scan next reads the ID and length of a model, or the end of the chain, at this address.
    /// The second field is the number of earlier models.
    Head(u16, u8),
    /// The scan next reads the ID at this address alone, because this ID may end the chain of
    /// models.
    Ending(u16),
    /// The scan next reads registers of this model. The second field is how many of the registers
    /// were read, and the third is the number of models found so far.
    Registers(Model, u16, u8),
    /// The scan is over.
    Over,
}
