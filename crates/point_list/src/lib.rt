//! Reads and writes point lists: the registers of a device that the program polls, as
//! comma-separated values.
#![tactic(auto)]

mod chain_points;
mod fault;
mod fields;
mod lawful;
mod laws;
mod list;
mod list_reader;
mod list_writer;
mod name;
mod point;
mod row;
mod row_points;
mod row_texts;
mod rows;

pub use chain_points::from_chain;
pub use fault::{FaultyRow, FaultyRows, ListFault, RowFault};
pub use fields::{fixed_scale, point_type};
pub use laws::texts_spell_one_list;
pub use list::PointList;
pub use list_reader::read_list;
pub use list_writer::{WriteListFault, write_list};
pub use name::PointName;
pub use point::{ListedPoint, PointScale, find_scale};
pub use row_texts::type_text;
