//! Reads the rows of a point list from CSV text, with the crate `csv`.
ghost use Rattle.std.specs.Prelude.{◌≡◌, IfOk, map, take};
ghost use Rattle.csv.specs.Records.{fields_of};
ghost use Rattle.point_list.specs.Rows.{csv_rows};

use csv::{ByteRecord, ReaderBuilder};
use std::alloc::{AllocError, Global};

/// The maximum number of rows that are read: the header, 512 points, and one row beyond the limit.
pub const ROW_LIMIT: usize = 514;

/// Returns the first 514 rows of a CSV text, including the header.
pub fn first_rows(alloc: Global, text: &[u8]) -> Result<Vec<ByteRecord>, AllocError>
    ensures { IfOk result (λ v. map fields_of v.items ≡ take 514 (csv_rows text.now)) }
{
    let reader = ReaderBuilder::new()
        .has_headers(false)
        .flexible(true)
        .from_reader(alloc, text);
    let mut rows = Vec::new(alloc);
    for row in reader.into_byte_records() {
        match row {
            Ok(row) => rows.push(row)?,
            Err(_) => return Err(AllocError),
        }
        if rows.len() == ROW_LIMIT {
            return Ok(rows);
        }
    }
    Ok(rows)
}
