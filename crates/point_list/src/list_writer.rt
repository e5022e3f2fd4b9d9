//! Writes a point list as comma-separated values.
ghost use Rattle.std.specs.Prelude.{◌≡◌, IfOk, OnOk};
ghost use Rattle.point_list.specs.Lists.{SpellsList};
ghost use Rattle.point_list.specs.ListWriter.{HandsOver};
ghost use Rattle.point_list.specs.RowTexts.{list_text};

use crate::list::PointList;
use crate::row_texts::{point_rows, text_of_rows};
use std::alloc::{AllocError, Global};
use std::error::Error;
use std::fmt;
use std::fmt::{Display, Formatter};
use sun_points::Sink;

/// The reason why a point list was not written.
#[derive(Clone, Copy, Debug, PartialEq, Eq)]
pub enum WriteListFault {
    /// The output failed to accept the text of the point list.
    Write,
    /// There was not enough memory for the text of the point list.
    Memory,
}

impl WriteListFault {
    ghost use Rattle.point_list.specs.ListWriter.{write_fault_number};

    /// Returns the numeric code of the reason why a point list was not written. The codes begin at
    /// 1. The program does not print them.
    pub fn number(self) -> u8
        ensures { result ≡ write_fault_number self }
    {
        match self {
            WriteListFault::Write => 1,
            WriteListFault::Memory => 2,
        }
    }
}

impl Display for WriteListFault {
    fn fmt<W: fmt::Write>(&self, f: &mut Formatter<W>) -> fmt::Result {
        f.write_str(match self {
            WriteListFault::Write => "the list could not be written",
            WriteListFault::Memory => "memory ran out",
        })
    }
}

impl Error for WriteListFault {}

fn list_text(alloc: Global, list: &PointList) -> Result<Vec<u8>, AllocError>
    ensures exact { IfOk result (λ text. text.items ≡ list_text list.now) }
    ensures spelled { OnOk result (SpellsList (list_text list.now) list.now) }
{
    let rows = point_rows(alloc, list.points())?;
    text_of_rows(alloc, &rows)
}

/// Writes a point list as comma-separated values, which `read_list` reads as the same list. The
/// complete text is in memory before the first byte is written.
pub fn write_list<S: Sink>(
    alloc: Global,
    list: &PointList,
    output: &mut S,
) -> Result<(), WriteListFault>
    ensures text { HandsOver S.takes result (list_text list.now) output.old output.new }
    ensures spelled { OnOk result (SpellsList (list_text list.now) list.now) }
{
    let Ok(text) = list_text(alloc, list) else {
        return Err(WriteListFault::Memory);
    };
    match output.take_text(&text) {
        Ok(()) => Ok(()),
        Err(_) => Err(WriteListFault::Write),
    }
}
