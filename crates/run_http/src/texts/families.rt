//! Formats the description of a metric (its `HELP` and `TYPE` lines), in Prometheus's text format.
ghost use Rattle.std.specs.Prelude.{◌≡◌, ◌++◌, OnOk, codes};
ghost use Rattle.run_http.specs.Texts.Families as families;

use crate::status::{append_bytes, write_word};
use std::alloc::AllocError;

/// The type of a Prometheus metric: counter or gauge.
#[derive(Clone, Copy)]
pub(crate) enum MetricKind {
    /// A metric whose values only increase while the program runs.
    Counter,
    /// A metric whose values may increase and decrease.
    Gauge,
}

fn kind_word(kind: MetricKind) -> &'static [u8]
    ensures { result.now ≡ families.kind_word kind }
{
    match kind {
        MetricKind::Counter => b"counter",
        MetricKind::Gauge => b"gauge",
    }
}

/// Appends the `HELP` and `TYPE` lines of a metric.
pub(crate) fn write_family(
    text: &mut Vec<u8>,
    name: &[u8],
    help: &[u8],
    kind: MetricKind,
) -> Result<(), AllocError>
    ensures { OnOk result (text.new.items
        ≡ text.old.items ++ families.family_text name.now help.now kind) }
{
    write_word(text, b"# HELP ", name)?;
    write_word(text, b" ", help)?;
    write_word(text, b"\n# TYPE ", name)?;
    write_word(text, b" ", kind_word(kind))
}

/// Appends a line feed, and the `HELP` and `TYPE` lines of the next metric.
pub(crate) fn write_next_family(
    text: &mut Vec<u8>,
    name: &[u8],
    help: &[u8],
    kind: MetricKind,
) -> Result<(), AllocError>
    ensures { OnOk result (text.new.items
        ≡ text.old.items ++ codes "\n" ++ families.family_text name.now help.now kind) }
{
    append_bytes(text, b"\n")?;
    write_family(text, name, help, kind)
}
