//! Reads the members of the JSON bodies of commands.

mod body;
mod devices;
mod members;
mod meters;
mod readings;

pub use body::{Body, BodyFault, body_of};
pub use devices::{DeviceBody, RegisterBody, Scale, device_in, register_in};
pub use meters::{
    ExchangeBody, InstallBody, RescaleBody, ResetBody, exchange_in, install_in, rescale_in,
    reset_in,
};
pub use readings::{CloseBody, ManualBody, VoidBody, close_in, manual_in, void_in};
