//! SunSpec models: the memory image of a device, and the chain of models in the image. The module
//! `scans` reads the chain of a live device.
#![tactic(auto)]

mod chain;
mod chain_parts;
mod chain_walk;
mod common;
mod fault;
mod image;
mod laws;
mod model;
mod named_point;
mod points;
pub mod scans;
mod tables;

pub use chain::Chain;
pub use chain_walk::walk;
pub use common::Common;
pub use fault::{ChainFault, ImageFault};
pub use image::Image;
pub use laws::{chain_or_fault_is_one, tables_are_lawful};
pub use model::Model;
pub use named_point::{NamedPoint, PointScale};
pub use tables::scale_name;
