//! SQL statements on the tables `devices`, `points` and `registers`: devices, their lists of
//! SunSpec points, and their named counters.

mod columns;
mod devices;
mod points;
mod registers;
mod rows;

pub use columns::{fits_a_read, read_device, read_point, read_register};
pub use devices::{device_rows, insert_device, last_device_rows};
pub use points::{point_rows, replace_points};
pub use registers::{
    insert_register, last_register_rows, register_count, register_of, register_rows,
};
pub use rows::{Device, DeviceRow, Point, PointRow, Register, RegisterRow, RegisterScale};
