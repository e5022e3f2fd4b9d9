//! Faults of the rows of a point list.
ghost use Rattle.std.specs.Prelude.{◌≡◌};

use std::alloc::{AllocError, AllocFailed};
use std::error::Error;
use std::fmt;
use std::fmt::{Display, Formatter};
use std::marker::Model;

/// The reason why a row of a point list is invalid, in the order of the checks. The faults of scale
/// points, `NoSuchScale` and `GroupTooWide`, are checked last, and only if no row has another
/// fault.
#[derive(Clone, Copy, Debug, PartialEq, Eq)]
pub enum RowFault {
    /// The row of the point list does not have six fields.
    Csv,
    /// The header of the point list is not `name,function,area,address,type,scale`.
    Header,
    /// The point's name is not 1 to 32 letters, digits, `_` and `.` with a letter first.
    Name,
    /// An earlier row of the point list has the same name.
    DoubleName,
    /// The Modbus function of the point is not 3 or 4.
    Function,
    /// The area number is not 0 to 255. Points with different area numbers are never in one Modbus
    /// read.
    Area,
    /// The Modbus address of the point is not 0 to 65535, or the point extends past address 65535.
    Address,
    /// The type of the point is not a SunSpec point type.
    Type,
    /// The scale of the point is invalid: it is not empty, not a number from -10 to 10, and not a
    /// name. Or the point's type allows no scale.
    Scale,
    /// The scale of the point is a name, and no sunssf point (SunSpec scale factor) has that name.
    NoSuchScale,
    /// One Modbus read can't cover the point and its scale point (SunSpec scale factor): they
    /// differ in function or area number, or span more than 125 registers.
    GroupTooWide,
    /// The point list has more than 512 rows after the header.
    TooMany,
}

impl RowFault {
    ghost use Rattle.point_list.specs.Faults.{fault_number};

    /// Returns the numeric code of the fault of a point list's row. The codes begin at 1.
    pub fn number(self) -> u8
        ensures { result ≡ fault_number self }
    {
        match self {
            RowFault::Csv => 1,
            RowFault::Header => 2,
            RowFault::Name => 3,
            RowFault::DoubleName => 4,
            RowFault::Function => 5,
            RowFault::Area => 6,
            RowFault::Address => 7,
            RowFault::Type => 8,
            RowFault::Scale => 9,
            RowFault::NoSuchScale => 10,
            RowFault::GroupTooWide => 11,
            RowFault::TooMany => 12,
        }
    }
}

impl Display for RowFault {
    fn fmt<W: fmt::Write>(&self, f: &mut Formatter<W>) -> fmt::Result {
        f.write_str(match self {
            RowFault::Csv => "the row does not have six fields",
            RowFault::Header => "the header is not name,function,area,address,type,scale",
            RowFault::Name => "the name is not 1 to 32 letters, digits, _ and ., a letter first",
            RowFault::DoubleName => "an earlier row has the same name",
            RowFault::Function => "the function is not 3 or 4",
            RowFault::Area => "the area is not 0 to 255",
            RowFault::Address => "the address is not 0 to 65535, or the point reaches past 65535",
            RowFault::Type =>
                "the type is not int16, uint16, enum16, int32, uint32, bitfield32, acc32, sunssf or string1 to string125",
            RowFault::Scale =>
                "the scale is not empty, -10 to 10 or a name, or the type takes none",
            RowFault::NoSuchScale => "no point of the type sunssf has the scale's name",
            RowFault::GroupTooWide =>
                "the point and its scale point differ in function or area, or span more than 125 registers",
            RowFault::TooMany => "the list has more than 512 points",
        })
    }
}

impl Error for RowFault {}

/// A row of a point list with a fault.
#[derive(Clone, Copy, Debug, PartialEq, Eq)]
pub struct FaultyRow {
    /// The number of the row in the CSV text. The header is row 1.
    pub row: usize,
    pub fault: RowFault,
}

impl Display for FaultyRow {
    fn fmt<W: fmt::Write>(&self, f: &mut Formatter<W>) -> fmt::Result {
        let FaultyRow { row, fault } = self;
        write!(f, "row {row}: {fault}")
    }
}

impl Error for FaultyRow {}

/// The faulty rows of a point list, in order of row number. The function `read_list` returns them
/// as its error.
#[derive(Debug, Drop)]
pub struct FaultyRows {
    rows: Vec<FaultyRow>,
}

impl Model for FaultyRows {
    ghost use Rattle.std.specs.Prelude.{List};
    ghost use Rattle.point_list.specs.declared.fault.FaultyRow.{FaultyRow};

    ghost Value = { List FaultyRow };

    ghost view = { λ f. f.rows.items };
}

impl FaultyRows {
    /// Creates an error value from the faulty rows of a point list.
    pub fn new(rows: Vec<FaultyRow>) -> Self
        ensures { result ≡ rows.items }
    {
        FaultyRows { rows }
    }

    /// Returns the faulty rows of the point list.
    pub fn rows(&self) -> &[FaultyRow]
        ensures { result.now ≡ self.now }
    {
        self.rows.as_slice()
    }

    /// Returns the faulty rows of the point list as a vector.
    pub fn into_rows(self) -> Vec<FaultyRow>
        ensures { result.items ≡ self }
    {
        let FaultyRows { rows } = self;
        rows
    }
}

// Prints the first faulty row of a point list and the number of faulty rows.
impl Display for FaultyRows {
    fn fmt<W: fmt::Write>(&self, f: &mut Formatter<W>) -> fmt::Result {
        match self.rows.as_slice() {
            [] => write!(f, "no row is faulty"),
            [only] => write!(f, "{only}"),
            [first, ..] => write!(f, "{first} (faulty rows: {})", self.rows.len()),
        }
    }
}

impl Error for FaultyRows {}

/// The reason why a text or a chain of SunSpec models is not a point list.
#[derive(Debug, Drop)]
pub enum ListFault {
    Memory,
    /// At least one row of the point list is faulty. The value lists the faulty rows, each with its
    /// first fault.
    Faults(FaultyRows),
}

impl ListFault {
    ghost use Rattle.point_list.specs.Lists.{list_fault_number};

    /// Returns the numeric code that the program prints for the fault of a point list. The variant
    /// `Faults` (a list of faulty rows) has no code, because each faulty row is printed with its
    /// own code.
    pub fn number(&self) -> Option<u8>
        ensures { result ≡ list_fault_number self.now }
    {
        match self {
            ListFault::Memory => Some(13),
            ListFault::Faults(_) => None,
        }
    }
}

impl From<AllocError> for ListFault {
    ghost use Rattle.point_list.specs.declared.fault.ListFault.TheVariants.{Memory};

    ghost from_gives = { λ _ fault. fault ≡ Memory };

    fn from(_: AllocError) -> ListFault {
        ListFault::Memory
    }
}

impl<T: Drop> From<AllocFailed<T>> for ListFault {
    ghost use Rattle.point_list.specs.declared.fault.ListFault.TheVariants.{Memory};

    ghost from_gives = { λ _ fault. fault ≡ Memory };

    fn from(_: AllocFailed<T>) -> ListFault {
        ListFault::Memory
    }
}

impl Display for ListFault {
    fn fmt<W: fmt::Write>(&self, f: &mut Formatter<W>) -> fmt::Result {
        match self {
            ListFault::Memory => write!(f, "memory ran out"),
            ListFault::Faults(rows) => write!(f, "{rows}"),
        }
    }
}

impl Error for ListFault {}
