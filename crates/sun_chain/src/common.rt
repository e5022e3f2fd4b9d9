//! Reads the identity of a device from its first common model (model 1).
ghost use Rattle.std.specs.Prelude.{◌≡◌};
ghost use Rattle.std.specs.Option.{option_map};
ghost use Rattle.sun_chain.specs.Chain.{models_of, words_of};
ghost use Rattle.sun_chain.specs.Common.{common_in, device_address_in, first_common, said, text_in};

use crate::chain::Chain;
use crate::model::Model;
use sun_points::{Point, PointType, Text, TextLength, read_point};

/// The fields of a device's first common model. A text is empty if the device does not implement it
/// (its registers are 0), if it lies outside the model, or if its registers were not read.
#[derive(Clone, Copy)]
pub struct Common<'a> {
    pub manufacturer: Text<'a>,
    pub model: Text<'a>,
    pub options: Text<'a>,
    pub version: Text<'a>,
    pub serial: Text<'a>,
    pub device_address: Option<u16>,
}

impl<'a> Chain<'a> {
    /// Returns the fields of the first common model, or `None` if the chain has no model with ID 1.
    pub fn common(&self) -> Option<Common<'a>>
        ensures { option_map said result
            ≡ option_map (common_in (words_of self.now)) (first_common (models_of self.now)) }
    {
        let model = first_of(&self.models)?;
        Some(self.common_of(&model))
    }

    fn common_of(&self, model: &Model) -> Common<'a>
        ensures { said result ≡ common_in (words_of self.now) model.now }
    {
        let manufacturer = self.text(model, 2, TextLength::SIXTEEN);
        let name = self.text(model, 18, TextLength::SIXTEEN);
        let options = self.text(model, 34, TextLength::EIGHT);
        let version = self.text(model, 42, TextLength::EIGHT);
        let serial = self.text(model, 50, TextLength::SIXTEEN);
        Common {
            manufacturer,
            model: name,
            options,
            version,
            serial,
            device_address: self.device_address(model),
        }
    }

    fn text(&self, model: &Model, offset: u16, length: TextLength) -> Text<'a>
        ensures { result.words.now ≡ text_in (words_of self.now) model.now offset length }
    {
        let nothing = Text { words: &[] };
        let Some(words) = self.registers(model, offset, length.registers()) else {
            return nothing;
        };
        match read_point(PointType::Text(length), words) {
            Point::Text(text) => text,
            _ => nothing,
        }
    }

    fn device_address(&self, model: &Model) -> Option<u16>
        ensures { result ≡ device_address_in (words_of self.now) model.now }
    {
        match self.registers(model, 66, 1)? {
            [0xFFFF] => None,
            [address] => Some(*address),
            _ => None,
        }
    }
}

fn first_of(models: &[Model]) -> Option<Model>
    ensures { result ≡ first_common models.now }
{
    models.iter().copied().find(|model| model.id == 1)
}
