//! Reads a meter's counter, so that the meter is installed at the counter's present reading.
ghost use Rattle.office_program.specs.Passing.{Lasts};
ghost use Rattle.office_program.specs.Entering.Lines.{reporting_of};
ghost use Rattle.office_program.specs.Entering.Reading.{Fills, ReadsAt, ReadsThere};

use crate::entering::files::{NamedFiles, Shown};
use crate::entering::read_line::ReadRequest;
use office_books::Books;
use office_core::Office;
use office_events::{Name, Refusal, Register};

/// A dummy reading for a counter that is not read, because the store already has the request.
pub(crate) const NOT_READ: Shown = Shown { raw: 0, sf: 0 };

// Returns the reading of the accounting register's counter from the register's device. Returns
// `None` if the counter can't be read.
fn shown_at<B: Books, F: NamedFiles>(
    office: &mut Office<B>,
    register: Register,
    files: &F,
) -> Result<Option<Shown>, Refusal>
    ensures reads { ReadsAt B.ledger (reporting_of F.NamedFiles files.now) register
        office.old office.new result }
    ensures lasts { Lasts B.ledger office.old office.new }
{
    match office.device(&Some(register.device)) {
        Ok(device) => Ok(files.shown(&device, &register)),
        Err(why) => match why {
            Refusal::NotFound => Ok(None),
            _ => Err(why),
        },
    }
}

// Returns the reading of the counter of the accounting register with this name. Returns `None` if
// the counter can't be read from the register's device.
fn shown_there<B: Books, F: NamedFiles>(
    office: &mut Office<B>,
    name: &Option<Name>,
    files: &F,
) -> Result<Option<Shown>, Refusal>
    ensures reads { ReadsThere B.ledger (reporting_of F.NamedFiles files.now) name.now
        office.old office.new result }
    ensures lasts { Lasts B.ledger office.old office.new }
{
    match office.register(name) {
        Ok(register) => shown_at(office, register, files),
        Err(why) => match why {
            Refusal::NotFound => Ok(None),
            _ => Err(why),
        },
    }
}

/// Returns the counter's reading for the request of an input line with `@read`, a placeholder for
/// this reading. Returns `None` if the counter can't be read from the device.
///
/// If the store already has the request of the input line, the line is a retry and the counter is
/// not read.
pub(crate) fn shown_for<B: Books, F: NamedFiles>(
    office: &mut Office<B>,
    read: &ReadRequest,
    files: &F,
) -> Result<Option<Shown>, Refusal>
    ensures fills { Fills B.ledger (reporting_of F.NamedFiles files.now) read.now
        office.old office.new result }
    ensures lasts { Lasts B.ledger office.old office.new }
{
    let number = read.line.number();
    match office.repeat(&read.caller, number, read.request.as_slice()) {
        Ok(_) => Ok(Some(NOT_READ)),
        Err(why) => match why {
            Refusal::NotFound => shown_there(office, &read.line.register(), files),
            _ => Err(why),
        },
    }
}
