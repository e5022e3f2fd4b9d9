//! A point of a SunSpec model, with its name, address, value and scale.
ghost use Rattle.std.specs.Prelude.{◌≡◌};
ghost use Rattle.sun_chain.specs.Points.{faulty_text, scale_said, seen, value_text};
ghost use Rattle.sun_points.specs.Point.{seen as point_seen};

use crate::tables::EntryType;
use std::io;
use sun_points::{Point, PointType, Scale, Sink};

/// The scale of a point: the power of ten for its value.
#[derive(Clone, Copy, PartialEq, Eq)]
pub enum PointScale {
    /// The point has no scale point.
    Unscaled,
    Scaled(Scale),
    /// The register of the scale point has no scale factor from -10 to 10.
    Faulty,
}

/// A point of a SunSpec model in a memory image. A text value borrows the image.
#[derive(Clone, Copy)]
pub struct NamedPoint<'a> {
    pub(crate) name: &'a str,
    pub(crate) address: u16,
    pub(crate) ty: EntryType,
    pub(crate) value: Point<'a>,
    pub(crate) scale_word: Option<u16>,
}

impl<'a> NamedPoint<'a> {
    /// Returns the name of the point in its model.
    pub fn name(&self) -> &'a str
        ensures { result.now ≡ (seen self.now).name }
    {
        self.name
    }

    /// Returns the address of the point's first register.
    pub fn address(&self) -> u16
        ensures { result ≡ (seen self.now).address }
    {
        self.address
    }

    /// Returns the SunSpec type of the point.
    pub fn ty(&self) -> PointType
        ensures { result ≡ (seen self.now).ty }
    {
        self.ty.point_type()
    }

    /// Returns the value of the point, without its scale applied.
    pub fn value(&self) -> Point<'a>
        ensures { point_seen result ≡ (seen self.now).value }
    {
        self.value
    }

    /// Returns the scale of the point. A scale point that lies outside the model or was not read
    /// counts as 0.
    pub fn scale(&self) -> PointScale
        ensures { result ≡ (seen self.now).scale }
    {
        match self.scale_word {
            None => PointScale::Unscaled,
            Some(word) => scale_of_word(word),
        }
    }

    /// Writes the value of the point at its scale. A value with a faulty scale is written as
    /// `faulty`, unless it is absent.
    pub fn write_value<S: Sink>(&self, output: &mut S) -> io::Result<()>
        ensures { let point = seen self.now in
            S.takes output.old (value_text point.value point.scale) result output.new }
    {
        match self.scale() {
            PointScale::Unscaled => self.value.write(Scale::default(), output),
            PointScale::Scaled(scale) => self.value.write(scale, output),
            PointScale::Faulty => output.take_text(text_at_faulty(self.value).as_bytes()),
        }
    }
}

fn scale_of_word(word: u16) -> PointScale
    ensures { result ≡ scale_said word }
{
    match Scale::new(word) {
        Some(scale) => PointScale::Scaled(scale),
        None => PointScale::Faulty,
    }
}

fn text_at_faulty(value: Point<'_>) -> &'static str
    ensures { result.now ≡ faulty_text (point_seen value.entry) }
{
    match value {
        Point::Absent => "absent",
        _ => "faulty",
    }
}
