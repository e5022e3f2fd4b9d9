//! Builds the script lines that add a device to `sunreg`. They have the device, its point list, and
//! an accounting register (a named counter) for each of its energy counters.

use std::alloc::Global;
use std::io::{self, Write};
use sun_chain::{Chain, Model, NamedPoint, PointScale, scale_name};
use sun_points::Point;

/// The parameters for polling a device, with its name, its unit identifier and the timeout in
/// seconds.
#[derive(Clone, Copy, PartialEq, Eq)]
pub struct Site<'a> {
    pub device: &'a str,
    pub unit: u8,
    pub timeout: u32,
}

/// An energy counter of a device in Wh: the name of its SunSpec point, and a code. In `sunreg` the
/// counter's name is the device's name followed by this code.
#[derive(Clone, Copy)]
struct Counter {
    point: &'static str,
    code: &'static str,
    // The text before the line `register`, which a scan suggests for this energy counter: a comment
    // mark for a counter of a single phase, otherwise empty.
    front: &'static str,
}

// Makes a table of energy counters. Each row has the name of a SunSpec point, the code that ends
// the counter's name in `sunreg`, and the text before the line `register`.
macro_rules! counters {
    ($(($point:expr, $code:expr, $front:expr),)*) => {
        [$(Counter { point: $point, code: $code, front: $front }),*]
    };
}

static COUNTERS: [Counter; 9] = counters![
    ("WH", "wh", ""),
    ("TotWhExp", "exp", ""),
    ("TotWhExpPhA", "expA", "# "),
    ("TotWhExpPhB", "expB", "# "),
    ("TotWhExpPhC", "expC", "# "),
    ("TotWhImp", "imp", ""),
    ("TotWhImpPhA", "impA", "# "),
    ("TotWhImpPhB", "impB", "# "),
    ("TotWhImpPhC", "impC", "# "),
];

const HINT: &str =
    "# Install lines: remove the # and replace CEILING by the maximum power in watts.\n";

/// Returns the lines `N device ..` and `N list ..`, and for each energy counter of the device the
/// lines `N register ..` and `N install ..`.
///
/// The line `install` is a comment that states the counter's present count. All lines for a counter
/// of one phase are comments. In each line, N is the line's number, from 1. The point list is in
/// hexadecimal.
pub(crate) fn setup_text(
    alloc: Global,
    chain: &Chain<'_>,
    list: &[u8],
    site: Site<'_>,
) -> io::Result<Vec<u8>> {
    let mut text = Vec::new(alloc);
    add_device(&mut text, list, site)?;
    text.write_all(HINT.as_bytes())?;
    let mut number = 3;
    for (index, model) in chain.models().iter().enumerate() {
        number = add_model(&mut text, chain, model, index + 1, site, number)?;
    }
    Ok(text)
}

// Writes the line `device` for the device and the line `list` for its point list.
fn add_device(text: &mut Vec<u8>, list: &[u8], site: Site<'_>) -> io::Result<()> {
    let Site {
        device,
        unit,
        timeout,
    } = site;
    write!(
        text,
        "1 device {device} {unit} {timeout} 1\n2 list {device} "
    )?;
    for byte in list {
        let value = *byte;
        write!(text, "{value:02x}")?;
    }
    text.write_all(b"\n")
}

// Writes the lines for the energy counters of a SunSpec model, numbered from `number` on. Returns
// the next free line number.
fn add_model(
    text: &mut Vec<u8>,
    chain: &Chain<'_>,
    model: &Model,
    place: usize,
    site: Site<'_>,
    number: u64,
) -> io::Result<u64> {
    let points = chain.points(model)?;
    let mut next = number;
    for point in &points {
        if let (Some(counter), Point::Unsigned(raw)) = (counter_of(point), point.value()) {
            add_register(
                text,
                counter,
                point,
                scale_address(&points, model, point),
                place,
                site,
                next,
            )?;
            add_install(
                text,
                counter,
                point,
                raw,
                place,
                site,
                next.saturating_add(1),
            )?;
            next = next.saturating_add(2);
        }
    }
    Ok(next)
}

// Returns the energy counter of a SunSpec point, or `None` if the point is not an energy counter.
fn counter_of(point: &NamedPoint<'_>) -> Option<Counter> {
    COUNTERS.iter().copied().find(|counter| counter.point.as_bytes() == point.name().as_bytes())
}

// Returns the address of a point's scale factor, or `None` if the device has no such scale factor.
fn scale_address(points: &[NamedPoint<'_>], model: &Model, point: &NamedPoint<'_>) -> Option<u16> {
    let name = scale_name(model.id, point.name())?;
    let found = points
        .iter()
        .find(|other| other.name().as_bytes() == name.as_bytes())?;
    Some(found.address())
}

fn add_register(
    text: &mut Vec<u8>,
    counter: Counter,
    point: &NamedPoint<'_>,
    scale: Option<u16>,
    place: usize,
    site: Site<'_>,
    number: u64,
) -> io::Result<()> {
    let Counter { code, front, .. } = counter;
    let device = site.device;
    let address = point.address();
    write!(
        text,
        "{front}{number} register {device}-{code}{place} {device} 3 {address} "
    )?;
    match scale {
        Some(scale) => write!(text, "@{scale}\n"),
        None => text.write_all(b"0\n"),
    }
}

fn add_install(
    text: &mut Vec<u8>,
    counter: Counter,
    point: &NamedPoint<'_>,
    raw: u64,
    place: usize,
    site: Site<'_>,
    number: u64,
) -> io::Result<()> {
    let code = counter.code;
    let device = site.device;
    let exponent = match point.scale() {
        PointScale::Scaled(scale) => scale.exponent(),
        PointScale::Unscaled | PointScale::Faulty => 0,
    };
    write!(
        text,
        "# {number} install {device}-{code}{place} {device}-{code}{place} {raw} {exponent} CEILING\n"
    )
}
