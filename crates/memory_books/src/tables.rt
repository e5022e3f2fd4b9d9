//! The lookup tables of a store in memory. They find the store's records by keys such as the name
//! of a meter, without a search of the list of all records.

mod interval_rows;
mod keys;
mod lookups;
mod meter;
mod meters;
mod places;
mod polls;
mod table;
mod tables;

pub use tables::Tables;
