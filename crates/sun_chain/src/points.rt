//! Lists the points of a model that were read, in order of address.
ghost use Rattle.std.specs.Prelude.{◌≡◌, ◌<◌, ◌≤◌, ◌+◌, map, length, IfOk, IfSome};
ghost use Rattle.std.specs.Option.{option_map};
ghost use Rattle.sun_chain.specs.Chain.{words_of};
ghost use Rattle.sun_chain.specs.Points.{point_in, points_in, register_in, registers_in};
ghost use Rattle.sun_chain.specs.Points.{scale_word_in, seen, value_in};
ghost use Rattle.sun_points.specs.Point.{seen as point_seen};
ghost use Rattle.sun_chain.specs.TableRules.{StandInOrder};
ghost use Rattle.sun_chain.specs.Tables.{row_of};

use crate::chain::Chain;
use crate::model::Model;
use crate::named_point::NamedPoint;
use crate::tables::{Entry, table};
use std::alloc::AllocError;
use sun_points::{Point, read_point};

impl<'a> Chain<'a> {
    /// Returns the points of a model that lie fully inside the model and were read, in order of
    /// address. An unknown model has no points.
    pub fn points(&self, model: &Model) -> Result<Vec<NamedPoint<'a>>, AllocError>
        ensures points { IfOk result
            (λ points. map seen points.items ≡ points_in (words_of self.now) model.now) }
        ensures in_order { IfOk result
            (λ points. StandInOrder (model.now.address + 2) (map seen points.items)) }
    {
        let mut points = Vec::new(*self.models.allocator());
        for entry in table(model.id) {
            if let Some(point) = self.point(model, entry) {
                points.push(point)?;
            }
        }
        Ok(points)
    }

    fn point(&self, model: &Model, entry: &'static Entry) -> Option<NamedPoint<'a>>
        ensures { option_map seen result
            ≡ point_in (words_of self.now) model.now (row_of entry.now) }
    {
        let value = self.value(model, entry)?;
        let scale_word = self.scale_word(model, entry.scale);
        let address = u32::from(model.address) + u32::from(entry.offset);
        Some(NamedPoint {
            name: entry.name,
            address: address as u16,
            ty: entry.ty,
            value,
            scale_word,
        })
    }

    fn value(&self, model: &Model, entry: &Entry) -> Option<Point<'a>>
        ensures value { option_map point_seen result
            ≡ value_in (words_of self.now) model.now (row_of entry.now) }
        ensures inside { IfSome result (λ _. model.now.address + entry.now.offset < 65536) }
    {
        let count = entry.ty.point_type().registers();
        let words = self.registers(model, entry.offset, count)?;
        Some(read_point(entry.ty.point_type(), words))
    }

    /// Returns `count` registers at an offset of a model, or `None` unless they lie inside the
    /// model and were read.
    pub(crate) fn registers(&self, model: &Model, offset: u16, count: u16) -> Option<&'a [u16]>
        requires { 1 ≤ count }
        ensures words { option_map (λ words. words.now) result
            ≡ registers_in (words_of self.now) model.now offset count }
        ensures length { IfSome result (λ words. length words.now ≡ count) }
        ensures inside { IfSome result (λ _. model.now.address + offset + count ≤ 65536) }
    {
        if u32::from(offset) + u32::from(count) > 2 + u32::from(model.length) {
            return None;
        }
        self.image
            .words_at(u32::from(model.address) + u32::from(offset), count)
    }

    // Returns the register value of a point's scale point, or `None` without one. A scale point
    // that is outside the model or was not read counts as 0.
    fn scale_word(&self, model: &Model, scale: Option<u16>) -> Option<u16>
        ensures { result ≡ scale_word_in (words_of self.now) model.now scale }
    {
        let offset = scale?;
        Some(self.register(model, offset).unwrap_or(0))
    }

    fn register(&self, model: &Model, offset: u16) -> Option<u16>
        ensures { result ≡ register_in (words_of self.now) model.now offset }
    {
        if u32::from(offset) + 1 > 2 + u32::from(model.length) {
            return None;
        }
        self.image
            .word_at(u32::from(model.address) + u32::from(offset))
    }
}
