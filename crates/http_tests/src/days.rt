//! Tests of report lines with the greatest numbers, and of dates as text.
use energy_report::read_day;
use interval_core::{Day, DayRange, DayTotal, Share};
use jiff::civil::date;
use mb_wire::MemoryLink;
use office_http::messages::{ResponseWriter, append_day, append_end, write_share};

static QUARTERS: [Share; 2] = [
    Share {
        start: 900,
        mwh: 177_777,
    },
    Share {
        start: 1800,
        mwh: 0,
    },
];

static LINES: &[u8] =
    b"900 177777\n1800 0\nend 2\n2024-03-31  92                   920000\n1969-12-31   4 79228162514264337593543950336\nend 10\n";

// A report has a line for each quarter hour and each day, and a last line with the number of rows.
#[test]
fn reports_have_lines(rt: HostRuntime) {
    let mut output = [0; 200];
    let mut link = MemoryLink::new(b"", &mut output, 200, None);
    let mut writer = ResponseWriter::new(&mut link);
    for row in &QUARTERS {
        write_share(row, &mut writer);
    }
    append_end(2, &mut writer);
    let days = [
        (date(2024, 3, 31), 92, 920_000),
        (
            date(1969, 12, 31),
            4,
            79_228_162_514_264_337_593_543_950_336,
        ),
    ];
    for (day, count, mwh) in days {
        append_day(&DayTotal { day, count, mwh }, &mut writer);
    }
    append_end(10, &mut writer);
    assert!(rt; writer.finish().is_ok());
    assert!(rt; link.given() == LINES);
}

static SPELLED: [(&str, i16, i8, i8); 4] = [
    ("0000-01-01", 0, 1, 1),
    ("2024-02-29", 2024, 2, 29),
    ("2026-11-25", 2026, 11, 25),
    ("9999-12-31", 9999, 12, 31),
];

static MISSPELLED: [&str; 12] = [
    "",
    "2023-02-29",
    "2024-02-30",
    "2024-13-01",
    "2024-00-01",
    "2024-01-00",
    "24-02-01",
    "2024-2-01",
    "2024-02-1 ",
    "20240201",
    "2024/02/01",
    "-000001-01-01",
];

// A day from the year 0 to 9999 is parsed from an ISO 8601 date. A range without a first day and
// without an end contains every day.
#[test]
fn days_are_spelled(rt: HostRuntime) {
    for (text, year, month, number) in &SPELLED {
        let wanted = Day::new(*year, *month, *number).ok().expect(&rt, "no day");
        assert!(rt; read_day(text) == Some(wanted));
        assert!(rt; DayRange::all().has(wanted));
    }
    for text in &MISSPELLED {
        assert!(rt; read_day(text) == None);
    }
    assert!(rt; !DayRange::all().is_backward());
}
