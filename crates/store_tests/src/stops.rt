//! Tests crashes of the machine at each call to the two files of a database. At the time of the
//! crash, a file is being upgraded to version 3, or `sunreg` is creating its tables or handling
//! events and a request. After the crash the file has every acknowledged change. The change in
//! progress is applied completely or not at all.
pub(crate) mod asked;
mod crashes;
mod day;
pub(crate) mod files;
pub(crate) mod offices;
mod shown;
pub(crate) mod standing;
pub(crate) mod work;
