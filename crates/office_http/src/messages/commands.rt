//! Parses the command in the body of a request, by the route of the request.

mod fault;
mod given;
mod json;
mod registers;
mod setup;
mod values;

pub use fault::CommandFault;
pub use given::command_in;
pub use json::{
    BodyFault, CloseBody, DeviceBody, ExchangeBody, InstallBody, ManualBody, RegisterBody,
    RescaleBody, ResetBody, Scale, VoidBody, body_of, close_in, device_in, exchange_in, install_in,
    manual_in, register_in, rescale_in, reset_in, void_in,
};
