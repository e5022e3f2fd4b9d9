//! The chain of SunSpec models in a device's memory image (the words read from the device).
ghost use Rattle.std.specs.Prelude.{◌+◌, ◌≤◌, length};
ghost use Rattle.std.specs.List.{All};

use crate::image::Image;
use crate::model::Model;

/// The chain of SunSpec models in a memory image (the words read from a device), which the function
/// `walk` found.
#[derive(Drop)]
pub struct Chain<'a> {
    pub(crate) image: &'a Image,
    pub(crate) base: u16,
    pub(crate) end: u16,
    pub(crate) models: Vec<Model>,
    ghost few: { length models.items ≤ 64 },
    ghost inside: { All (λ model. model.address + 2 + model.length ≤ 65536) models.items },
}
