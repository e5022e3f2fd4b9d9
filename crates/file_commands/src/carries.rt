//! Rolls a database over into a new file, in which each open meter continues from its last entry.
ghost use Rattle.std.specs.Prelude.{◌≡◌, ◌⊎◌, None, IfOk};
ghost use Rattle.stored_files.specs.declared.ends.ending.Ending.TheVariants.{Refused, Failed};
ghost use Rattle.stored_files.specs.declared.ends.failure.Failure.TheVariants.{Streams};
ghost use Rattle.file_commands.specs.Rollovers.{Carries, CarriesFile, EndsCarry};

use crate::copies::{Pair, make_whole, remove};
use crate::escaped::Escaped;
use crate::files::{OfficeFiles, Opening};
use crate::opening::open_in;
use crate::parts::{begin_part, begin_part_again, finish_part, make_empty_log, unwritable};
use carried_books::CarryFault;
use office_events::{Name, Refusal};
use printed_numbers::{Kind, meaning_of};
use sqlite::Connection;
use std::io::{self, Write};
use std::str::from_utf8;
use stored_files::{CarryEnd, CopyFault, Databases, Ending, Failure, Named, carry_stored};

/// A reason why a database file could not be rolled over into a new file.
#[derive(Drop)]
pub enum NotCarried<'a> {
    Failed(Failure<'a>),
    /// The program refused a command that continues a meter in the new file, or the store failed.
    /// `path` is the file concerned.
    Refused { path: &'a str, why: Refusal },
    /// A meter of the file at `path` has no entry at or before the requested time.
    NotYet { path: &'a str, meter: Name },
}

// A file rollover from the file at `from` to a new file at `to`. Each meter continues from its last
// entry. With `until`, it continues from its last entry up to that time, in seconds since
// 1970-01-01 UTC.
#[derive(Clone, Copy)]
struct Rollover<'a> {
    from: &'a str,
    to: &'a str,
    until: Option<u64>,
}

impl<'a> Rollover<'a> {
    // Returns why a rollover into a new database file failed, with the path of the file in which
    // the error occurred: the old file or the new one.
    fn not_carried(self, fault: CarryFault) -> NotCarried<'a> {
        let Rollover { from, to, .. } = self;
        match fault {
            CarryFault::Old(why) => NotCarried::Refused { path: from, why },
            CarryFault::New(why) => NotCarried::Refused { path: to, why },
            CarryFault::NotYet(meter) => NotCarried::NotYet { path: from, meter },
        }
    }

    // Returns why a rollover into a new database file failed: the old file could not be opened, the
    // new file could not be created, or an error occurred in one of them.
    fn not_ended(self, end: CarryEnd) -> NotCarried<'a> {
        let Rollover { from, to, .. } = self;
        match end {
            CarryEnd::Unopened(fault) => {
                NotCarried::Failed(Failure::Unopened { path: from, fault })
            }
            CarryEnd::Unmade(fault) => NotCarried::Failed(Failure::Unmade { path: to, fault }),
            CarryEnd::Ended(fault) => self.not_carried(fault),
        }
    }
}

// Rolls a database over into a new file with a temporary name. Returns the number of meters that
// continue in the new file.
fn carry_into_part<'a, D: Databases>(
    rt: &HostRuntime,
    databases: &D,
    old: Connection<D::Store>,
    it: Rollover<'a>,
    part: &Pair,
) -> Result<u64, NotCarried<'a>>
    ensures { IfOk result (Carries D.Store.Store old it.entry.until) }
{
    match databases.make(part.file.as_str()) {
        Ok(new) => match carry_stored(rt.alloc(), old, new, it.until) {
            Ok(count) => Ok(count),
            Err(end) => Err(it.not_ended(end)),
        },
        Err(fault) => {
            let failure = Failure::File { path: it.to, fault };
            Err(NotCarried::Failed(failure))
        }
    }
}

// Completes a rollover into a new database file: merges the new file's log into the file, and
// renames the file to its final name.
fn finish<'a>(rt: &HostRuntime, to: &'a str, part: &Pair) -> Result<(), Failure<'a>> {
    match make_whole(rt, part.file.as_str()) {
        Ok(()) => {}
        Err(CopyFault::Memory) => return Err(Failure::Memory),
        Err(_) => return Err(unwritable(to)),
    }
    finish_part(rt, to, part)?;
    make_empty_log(rt, to);
    Ok(())
}

// Rolls a database over into a new file, and renames that file to its final name. Returns the
// number of meters that continue in the new file.
fn carry_whole<'a, D: Databases>(
    rt: &HostRuntime,
    databases: &D,
    old: Connection<D::Store>,
    it: Rollover<'a>,
    part: &Pair,
) -> Result<u64, NotCarried<'a>>
    ensures { IfOk result (Carries D.Store.Store old it.entry.until) }
{
    let count = match carry_into_part(rt, databases, old, it, part) {
        Ok(count) => count,
        Err(why) => return Err(why),
    };
    match finish(rt, it.to, part) {
        Ok(()) => Ok(count),
        Err(failure) => Err(NotCarried::Failed(failure)),
    }
}

/// Rolls an open database over into a new file, in which its meters continue from their last
/// entries. Returns the number of these meters.
///
/// If the rollover into a new database file fails, removes the incomplete new file. If only the
/// sync of the folder fails, the new file remains. First removes an incomplete file that an
/// interrupted rollover left. This is safe, because no other process has the old file open.
pub fn carry_open<'a, D: Databases>(
    rt: &HostRuntime,
    databases: &D,
    from: &'a str,
    old: Connection<D::Store>,
    to: &'a str,
) -> Result<u64, NotCarried<'a>>
    ensures { IfOk result (Carries D.Store.Store old None) }
{
    let part = match begin_part_again(rt, databases, to) {
        Ok(part) => part,
        Err(failure) => return Err(NotCarried::Failed(failure)),
    };
    let it = Rollover {
        from,
        to,
        until: None,
    };
    let carried = carry_whole(rt, databases, old, it, &part);
    if carried.is_err() {
        remove(rt, &part);
    }
    carried
}

// Prints the number of meters that continue in the new file.
fn say_carried<W: Write>(count: u64, output: &mut W) -> Ending<'static> {
    match write!(output, "carried {count} meters\n") {
        Ok(()) => Ending::Fine,
        Err(_) => Ending::Failed(Failure::Streams),
    }
}

/// Writes the meaning of a refusal and its remedy to `errors`, with the path of the database file.
pub(crate) fn write_refusal<W: Write>(errors: &mut W, path: &str, why: Refusal) -> io::Result<()> {
    match meaning_of(Kind::Refused, u32::from(why.number())) {
        Some(meaning) => write!(
            errors,
            "sunreg: {}: {}; {}\n",
            Named(path),
            meaning.means,
            meaning.remedy
        ),
        None => Ok(()),
    }
}

// Writes a message to `errors` that a meter has no entry at or before the requested time.
fn write_not_yet<W: Write>(errors: &mut W, path: &str, meter: &Name) -> io::Result<()> {
    let name = from_utf8(meter.as_bytes()).unwrap_or("a meter");
    let path = Named(path);
    write!(
        errors,
        "sunreg: {path}: meter {name} was installed after the time of --until: give a later time\n"
    )
}

/// Writes to `errors` the reason why a file could not be rolled over into a new file.
pub fn write_why<W: Write>(errors: &mut W, why: &NotCarried<'_>) -> io::Result<()> {
    match why {
        NotCarried::Failed(failure) => write!(errors, "sunreg: {failure}\n"),
        NotCarried::Refused { path, why } => write_refusal(errors, *path, *why),
        NotCarried::NotYet { path, meter } => write_not_yet(errors, *path, meter),
    }
}

fn print_refusal<W: Write>(why: Refusal, output: &mut W) -> io::Result<()> {
    let number = why.number();
    write!(output, "refused {number}\n")
}

/// Prints the numeric code of a refusal. Reports the meaning of the refusal on standard error, with
/// the path of the database file.
pub(crate) fn say_refused<W: Write>(
    rt: &HostRuntime,
    path: &str,
    why: Refusal,
    output: &mut W,
) -> Ending<'static>
    ensures { (result ≡ Refused) ⊎ (result ≡ Failed Streams) }
{
    if print_refusal(why, output).is_err() {
        return Ending::Failed(Failure::Streams);
    }
    let mut errors = Escaped::new(rt.stderr());
    let _said = write_refusal(&mut errors, path, why);
    Ending::Refused
}

// Reports on standard error that a meter has no entry at or before the requested time.
fn say_not_yet(rt: &HostRuntime, path: &str, meter: &Name) -> Ending<'static>
    ensures { result ≡ Refused }
{
    let mut errors = Escaped::new(rt.stderr());
    let _said = write_not_yet(&mut errors, path, meter);
    Ending::Refused
}

// Opens the file at a path, rolls it over into a new file, and renames that file to its final name.
fn carry_in<'a, D: Databases>(
    rt: &HostRuntime,
    databases: &D,
    it: Rollover<'a>,
    part: &Pair,
) -> Result<u64, NotCarried<'a>>
    ensures { IfOk result (CarriesFile D.Store.Store (D.opens databases.now)
        it.entry.from.now it.entry.until) }
{
    match open_in(rt, databases, it.from) {
        Ok(old) => carry_whole(rt, databases, old, it, part),
        Err(failure) => Err(NotCarried::Failed(failure)),
    }
}

// Rolls a file over into a new file, and renames that file to its final name. On failure, removes
// the incomplete file.
fn carry_into<'a, D: Databases, W: Write>(
    rt: &HostRuntime,
    databases: &D,
    it: Rollover<'a>,
    part: &Pair,
    output: &mut W,
) -> Ending<'a>
    ensures { EndsCarry D.Store.Store (D.opens databases.now) it.entry.from.now it.entry.until
        result }
{
    let ending = match carry_in(rt, databases, it, part) {
        Ok(count) => return say_carried(count, output),
        Err(why) => match why {
            NotCarried::Failed(failure) => Ending::Failed(failure),
            NotCarried::Refused { path, why } => say_refused(rt, path, why, output),
            NotCarried::NotYet { path, meter } => say_not_yet(rt, path, &meter),
        },
    };
    remove(rt, part);
    ending
}

fn widen(moment: Option<u32>) -> Option<u64>
    ensures { result ≡ moment }
{
    match moment {
        Some(moment) => Some(u64::from(moment)),
        None => None,
    }
}

/// Begins a new database file in which each open meter continues from its last entry. With `until`,
/// each meter continues from its last entry up to that time. Reads the old file through a temporary
/// copy, so another process may be using that file.
pub fn carry<'a, D: OfficeFiles, W: Write>(
    rt: &HostRuntime,
    files: &D,
    from: &'a str,
    to: &'a str,
    until: Option<u32>,
    output: &mut W,
) -> Ending<'a>
    ensures { EndsCarry D.Store.Store (D.opens files.now) from.now until result }
{
    let part = match begin_part(rt, to) {
        Ok(part) => part,
        Err(failure) => return Ending::Failed(failure),
    };
    let until = widen(until);
    let copies = files.opened(Opening::Copied);
    carry_into(rt, &copies, Rollover { from, to, until }, &part, output)
}
