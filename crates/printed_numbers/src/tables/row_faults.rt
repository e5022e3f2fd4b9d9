//! The meanings of the faults of rows in a point list.
ghost use Rattle.printed_numbers.specs.Numbers.{Answers};
ghost use Rattle.printed_numbers.specs.declared.kind.Kind.TheVariants.{RowFault};

use crate::kind::Kind;
use crate::meaning::Meaning;

static NOT_SIX_FIELDS: Meaning = Meaning {
    kind: Kind::RowFault,
    number: 1,
    means: "the row doesn't have six fields",
    cause: "an extra comma or quote, or semicolons instead of commas",
    remedy: "write name,function,area,address,type,scale in each row, where scale may be empty",
};

static OTHER_HEADER: Meaning = Meaning {
    kind: Kind::RowFault,
    number: 2,
    means: "wrong header; the other rows are not read",
    cause: "a list without a header, or with another one",
    remedy: "let row 1 be name,function,area,address,type,scale",
};

static BAD_NAME: Meaning = Meaning {
    kind: Kind::RowFault,
    number: 3,
    means: "invalid name",
    cause: "a space, another sign, or more than 32 characters",
    remedy: "use 1 to 32 letters, digits, _ and ., starting with a letter",
};

static DOUBLE_NAME: Meaning = Meaning {
    kind: Kind::RowFault,
    number: 4,
    means: "an earlier row has the same name",
    cause: "a point that is listed twice",
    remedy: "remove one of the two, or rename it",
};

static BAD_FUNCTION: Meaning = Meaning {
    kind: Kind::RowFault,
    number: 5,
    means: "invalid function",
    cause: "a register number, like 40001, instead of a function",
    remedy: "write 3 for holding registers, or 4 for input registers",
};

static BAD_AREA: Meaning = Meaning {
    kind: Kind::RowFault,
    number: 6,
    means: "invalid area",
    cause: "an empty field",
    remedy: "write a number from 0 to 255; use 0 if all points may be read together",
};

static BAD_ADDRESS: Meaning = Meaning {
    kind: Kind::RowFault,
    number: 7,
    means: "invalid address, or the point extends past 65535",
    cause: "a hexadecimal address, or one that the manufacturer counts from 400001",
    remedy: "write the address as in the request, from 0 to 65535",
};

static BAD_TYPE: Meaning = Meaning {
    kind: Kind::RowFault,
    number: 8,
    means: "invalid type",
    cause: "a type of the manufacturer's table, like float32 or U32",
    remedy: "write int16, uint16, enum16, int32, uint32, bitfield32, acc32, sunssf or string1 to string125",
};

static ROW_SCALE: Meaning = Meaning {
    kind: Kind::RowFault,
    number: 9,
    means: "invalid scale",
    cause: "a factor, like 0.1, instead of a power of ten, or a scale for a type that has none",
    remedy: "leave it empty, or write -10 to 10 or the name of a sunssf point; only int16, uint16, int32, uint32 and acc32 have one",
};

static NO_SUCH_SCALE: Meaning = Meaning {
    kind: Kind::RowFault,
    number: 10,
    means: "no sunssf point has the scale's name",
    cause: "a misspelt name, or a scale point that is missing or of another type",
    remedy: "list the scale as a point of the type sunssf",
};

static GROUP_TOO_WIDE: Meaning = Meaning {
    kind: Kind::RowFault,
    number: 11,
    means: "the point and its scale point differ in function or area, or span more than 125 registers",
    cause: "a scale point of another model",
    remedy: "name the scale point of the same model",
};

static TOO_MANY_ROWS: Meaning = Meaning {
    kind: Kind::RowFault,
    number: 12,
    means: "more than 512 points",
    cause: "a list of all the points of a device",
    remedy: "remove the points that aren't needed",
};

/// Returns the meaning of the fault with the given numeric code in a row of a point list.
pub fn row_fault(number: u32) -> Option<&'static Meaning>
    ensures { Answers RowFault number result }
{
    match number {
        1 => Some(&NOT_SIX_FIELDS),
        2 => Some(&OTHER_HEADER),
        3 => Some(&BAD_NAME),
        4 => Some(&DOUBLE_NAME),
        5 => Some(&BAD_FUNCTION),
        6 => Some(&BAD_AREA),
        7 => Some(&BAD_ADDRESS),
        8 => Some(&BAD_TYPE),
        9 => Some(&ROW_SCALE),
        10 => Some(&NO_SUCH_SCALE),
        11 => Some(&GROUP_TOO_WIDE),
        12 => Some(&TOO_MANY_ROWS),
        _ => None,
    }
}
