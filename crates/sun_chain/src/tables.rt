//! The tables of points of the known SunSpec models.

ghost use Rattle.std.specs.Prelude.{◌≡◌, ◌==◌, find, map};
ghost use Rattle.std.specs.Option.{option_copied, option_map};
ghost use Rattle.std.specs.Str.{bytes_eq};
ghost use Rattle.sun_chain.specs.Tables.{name_at_in, row_of, scale_name_in, table_of, type_of};

use EntryType::{Acc32, Bitfield32, Enum16, Int16, String8, String16, Sunssf, Uint16};
use sun_points::{PointType, TextLength};

/// The SunSpec point types that occur in the model tables.
#[derive(Clone, Copy)]
pub(crate) enum EntryType {
    Int16,
    Uint16,
    Enum16,
    Bitfield32,
    Acc32,
    Sunssf,
    String8,
    String16,
}

impl EntryType {
    pub(crate) fn point_type(self) -> PointType
        ensures { result ≡ type_of self }
    {
        match self {
            Int16 => PointType::Int16,
            Uint16 => PointType::Uint16,
            Enum16 => PointType::Enum16,
            Bitfield32 => PointType::Bitfield32,
            Acc32 => PointType::Acc32,
            Sunssf => PointType::Sunssf,
            String8 => PointType::Text(TextLength::EIGHT),
            String16 => PointType::Text(TextLength::SIXTEEN),
        }
    }
}

/// A point in a model table. Offsets are in registers from the model's ID register.
#[derive(Clone, Copy)]
pub(crate) struct Entry {
    pub(crate) name: &'static str,
    pub(crate) offset: u16,
    pub(crate) ty: EntryType,
    /// The offset of the point's scale point, or `None` without one.
    pub(crate) scale: Option<u16>,
}

// Builds a table from tuples of a point's name, offset, type and offset of the scale point.
macro_rules! entries {
    ($(($name:expr, $offset:expr, $ty:expr, $scale:expr),)*) => {
        [$(Entry { name: $name, offset: $offset, ty: $ty, scale: $scale }),*]
    };
}

// The points of model 1 (common).
static COMMON: [Entry; 6] = entries![
    ("Mn", 2, String16, None),
    ("Md", 18, String16, None),
    ("Opt", 34, String8, None),
    ("Vr", 42, String8, None),
    ("SN", 50, String16, None),
    ("DA", 66, Uint16, None),
];

// The points of models 101 to 103 (inverters).
static INVERTER: [Entry; 43] = entries![
    ("A", 2, Uint16, Some(6)),
    ("AphA", 3, Uint16, Some(6)),
    ("AphB", 4, Uint16, Some(6)),
    ("AphC", 5, Uint16, Some(6)),
    ("A_SF", 6, Sunssf, None),
    ("PPVphAB", 7, Uint16, Some(13)),
    ("PPVphBC", 8, Uint16, Some(13)),
    ("PPVphCA", 9, Uint16, Some(13)),
    ("PhVphA", 10, Uint16, Some(13)),
    ("PhVphB", 11, Uint16, Some(13)),
    ("PhVphC", 12, Uint16, Some(13)),
    ("V_SF", 13, Sunssf, None),
    ("W", 14, Int16, Some(15)),
    ("W_SF", 15, Sunssf, None),
    ("Hz", 16, Uint16, Some(17)),
    ("Hz_SF", 17, Sunssf, None),
    ("VA", 18, Int16, Some(19)),
    ("VA_SF", 19, Sunssf, None),
    ("VAr", 20, Int16, Some(21)),
    ("VAr_SF", 21, Sunssf, None),
    ("PF", 22, Int16, Some(23)),
    ("PF_SF", 23, Sunssf, None),
    ("WH", 24, Acc32, Some(26)),
    ("WH_SF", 26, Sunssf, None),
    ("DCA", 27, Uint16, Some(28)),
    ("DCA_SF", 28, Sunssf, None),
    ("DCV", 29, Uint16, Some(30)),
    ("DCV_SF", 30, Sunssf, None),
    ("DCW", 31, Int16, Some(32)),
    ("DCW_SF", 32, Sunssf, None),
    ("TmpCab", 33, Int16, Some(37)),
    ("TmpSnk", 34, Int16, Some(37)),
    ("TmpTrns", 35, Int16, Some(37)),
    ("TmpOt", 36, Int16, Some(37)),
    ("Tmp_SF", 37, Sunssf, None),
    ("St", 38, Enum16, None),
    ("StVnd", 39, Enum16, None),
    ("Evt1", 40, Bitfield32, None),
    ("Evt2", 42, Bitfield32, None),
    ("EvtVnd1", 44, Bitfield32, None),
    ("EvtVnd2", 46, Bitfield32, None),
    ("EvtVnd3", 48, Bitfield32, None),
    ("EvtVnd4", 50, Bitfield32, None),
];

// The points of models 201 to 204 (meters).
static METER: [Entry; 72] = entries![
    ("A", 2, Int16, Some(6)),
    ("AphA", 3, Int16, Some(6)),
    ("AphB", 4, Int16, Some(6)),
    ("AphC", 5, Int16, Some(6)),
    ("A_SF", 6, Sunssf, None),
    ("PhV", 7, Int16, Some(15)),
    ("PhVphA", 8, Int16, Some(15)),
    ("PhVphB", 9, Int16, Some(15)),
    ("PhVphC", 10, Int16, Some(15)),
    ("PPV", 11, Int16, Some(15)),
    ("PPVphAB", 12, Int16, Some(15)),
    ("PPVphBC", 13, Int16, Some(15)),
    ("PPVphCA", 14, Int16, Some(15)),
    ("V_SF", 15, Sunssf, None),
    ("Hz", 16, Int16, Some(17)),
    ("Hz_SF", 17, Sunssf, None),
    ("W", 18, Int16, Some(22)),
    ("WphA", 19, Int16, Some(22)),
    ("WphB", 20, Int16, Some(22)),
    ("WphC", 21, Int16, Some(22)),
    ("W_SF", 22, Sunssf, None),
    ("VA", 23, Int16, Some(27)),
    ("VAphA", 24, Int16, Some(27)),
    ("VAphB", 25, Int16, Some(27)),
    ("VAphC", 26, Int16, Some(27)),
    ("VA_SF", 27, Sunssf, None),
    ("VAR", 28, Int16, Some(32)),
    ("VARphA", 29, Int16, Some(32)),
    ("VARphB", 30, Int16, Some(32)),
    ("VARphC", 31, Int16, Some(32)),
    ("VAR_SF", 32, Sunssf, None),
    ("PF", 33, Int16, Some(37)),
    ("PFphA", 34, Int16, Some(37)),
    ("PFphB", 35, Int16, Some(37)),
    ("PFphC", 36, Int16, Some(37)),
    ("PF_SF", 37, Sunssf, None),
    ("TotWhExp", 38, Acc32, Some(54)),
    ("TotWhExpPhA", 40, Acc32, Some(54)),
    ("TotWhExpPhB", 42, Acc32, Some(54)),
    ("TotWhExpPhC", 44, Acc32, Some(54)),
    ("TotWhImp", 46, Acc32, Some(54)),
    ("TotWhImpPhA", 48, Acc32, Some(54)),
    ("TotWhImpPhB", 50, Acc32, Some(54)),
    ("TotWhImpPhC", 52, Acc32, Some(54)),
    ("TotWh_SF", 54, Sunssf, None),
    ("TotVAhExp", 55, Acc32, Some(71)),
    ("TotVAhExpPhA", 57, Acc32, Some(71)),
    ("TotVAhExpPhB", 59, Acc32, Some(71)),
    ("TotVAhExpPhC", 61, Acc32, Some(71)),
    ("TotVAhImp", 63, Acc32, Some(71)),
    ("TotVAhImpPhA", 65, Acc32, Some(71)),
    ("TotVAhImpPhB", 67, Acc32, Some(71)),
    ("TotVAhImpPhC", 69, Acc32, Some(71)),
    ("TotVAh_SF", 71, Sunssf, None),
    ("TotVArhImpQ1", 72, Acc32, Some(104)),
    ("TotVArhImpQ1PhA", 74, Acc32, Some(104)),
    ("TotVArhImpQ1PhB", 76, Acc32, Some(104)),
    ("TotVArhImpQ1PhC", 78, Acc32, Some(104)),
    ("TotVArhImpQ2", 80, Acc32, Some(104)),
    ("TotVArhImpQ2PhA", 82, Acc32, Some(104)),
    ("TotVArhImpQ2PhB", 84, Acc32, Some(104)),
    ("TotVArhImpQ2PhC", 86, Acc32, Some(104)),
    ("TotVArhExpQ3", 88, Acc32, Some(104)),
    ("TotVArhExpQ3PhA", 90, Acc32, Some(104)),
    ("TotVArhExpQ3PhB", 92, Acc32, Some(104)),
    ("TotVArhExpQ3PhC", 94, Acc32, Some(104)),
    ("TotVArhExpQ4", 96, Acc32, Some(104)),
    ("TotVArhExpQ4PhA", 98, Acc32, Some(104)),
    ("TotVArhExpQ4PhB", 100, Acc32, Some(104)),
    ("TotVArhExpQ4PhC", 102, Acc32, Some(104)),
    ("TotVArh_SF", 104, Sunssf, None),
    ("Evt", 105, Bitfield32, None),
];

/// Returns the table of the model with an ID, in order of offset, or an empty table for an unknown
/// model.
pub(crate) fn table(id: u16) -> &'static [Entry]
    ensures { map row_of result.now ≡ table_of id }
{
    match id {
        1 => &COMMON,
        101..=103 => &INVERTER,
        201..=204 => &METER,
        _ => &[],
    }
}

/// Returns the name of the scale point of a point, by the table of the model with the given ID.
/// `None` without a scale point.
pub fn scale_name(id: u16, name: &str) -> Option<&'static str>
    ensures { option_map (λ found. found.now) result ≡ scale_name_in (table_of id) name.now }
{
    let entries = table(id);
    match entry_named(entries, name) {
        Some(scaled) => match scaled.scale {
            Some(offset) => name_at(entries, offset),
            None => None,
        },
        None => None,
    }
}

fn name_at(entries: &'static [Entry], offset: u16) -> Option<&'static str>
    ensures { option_map (λ found. found.now) result ≡ name_at_in (map row_of entries.now) offset }
{
    match entry_at(entries, offset) {
        Some(entry) => Some(entry.name),
        None => None,
    }
}

fn entry_named<'a>(entries: &'a [Entry], name: &str) -> Option<&'a Entry>
    ensures { option_copied result ≡ find (λ entry. bytes_eq entry.name.now name.now) entries.now }
{
    entries
        .iter()
        .find(|entry| entry.name.as_bytes() == name.as_bytes())
}

fn entry_at(entries: &[Entry], offset: u16) -> Option<&Entry>
    ensures { option_copied result ≡ find (λ entry. entry.offset == offset) entries.now }
{
    entries.iter().find(|entry| entry.offset == offset)
}
