//! Defines the reasons why a command failed, with their messages. The exit status is then 3.
use crate::audits::AuditFault;
use crate::backups::CopyFault;
use crate::ends::named::Named;
use crate::files::FileFault;
use office_store::OpenFault;
use std::error::Error;
use std::fmt;
use std::fmt::{Display, Formatter};
use sun_chain::scans::ScanFault;

/// A reason why a command failed. The exit status is then 3.
#[derive(Clone, Copy, Debug, Drop)]
pub enum Failure<'a> {
    Memory,
    /// Standard input or standard output failed, or memory ran out while a command ran.
    Streams,
    /// The program can't listen on a TCP port.
    Port {
        host: &'a str,
        port: u16,
    },
    /// The program can't listen on the loopback address 127.0.0.1.
    Loopback,
    /// The HTTP server could not accept another connection.
    Listening,
    /// The database in the file could not be opened, or its write-ahead log is damaged.
    File {
        path: &'a str,
        fault: FileFault,
    },
    /// The tables for metering records could not be created in the file.
    Unmade {
        path: &'a str,
        fault: OpenFault,
    },
    /// The file has no tables, but it is not empty. Tables are created only in an empty file.
    Occupied {
        path: &'a str,
    },
    /// The metering records in the file could not be opened.
    Unopened {
        path: &'a str,
        fault: OpenFault,
    },
    /// The file has no tables. The tables may be in the file's write-ahead log, and this log may be
    /// missing.
    Bare {
        path: &'a str,
    },
    /// The database file is missing or empty, although its write-ahead log has bytes.
    LogAlone {
        path: &'a str,
    },
    /// The write-ahead log of the file has lost no commits, so the recovery command has nothing to
    /// do.
    Undamaged {
        path: &'a str,
    },
    /// The database file could not be copied.
    Uncopied {
        path: &'a str,
        fault: CopyFault,
    },
    /// The database file could not be audited.
    Unaudited {
        path: &'a str,
        fault: AuditFault,
    },
    /// The program could not connect to a device.
    Unconnected {
        host: &'a str,
        port: u16,
    },
    /// The scan of a device's SunSpec models was not completed.
    Unscanned {
        host: &'a str,
        port: u16,
        fault: ScanFault,
    },
    /// The connection to a device failed during its round of polls.
    Broken {
        host: &'a str,
        port: u16,
    },
    /// A round of polls of a device ended at the limit of reads and writes on the connection,
    /// because the device sent data without end but no valid response.
    Endless {
        host: &'a str,
        port: u16,
    },
    /// The host name of a device can't be resolved to an IP address.
    Host {
        host: &'a str,
    },
    /// The operating system can't report which sockets are ready.
    Sockets,
    /// Recording stopped while the program polled devices, because the database failed or memory
    /// ran out, or because a database file was lost.
    Stopped,
}

impl<'a> Display for Failure<'a> {
    fn fmt<W: fmt::Write>(&self, f: &mut Formatter<W>) -> fmt::Result {
        match self {
            Failure::Memory => write!(f, "out of memory"),
            Failure::Streams => write!(
                f,
                "can't read standard input, can't write standard output, or out of memory"
            ),
            Failure::Port { host, port } => write!(
                f,
                "can't listen on port {port} of {host}: in use, or not an address of this machine"
            ),
            Failure::Loopback => write!(f, "can't listen on 127.0.0.1"),
            Failure::Listening => write!(f, "can't accept more connections"),
            Failure::File {
                path,
                fault: FileFault::Log(fault),
            } => {
                let path = Named(*path);
                write!(
                    f,
                    "{path}: its log {path}-wal {fault}. Opening it would lose commits, so nothing was changed: restore a backup, or run sunreg recover --db {path} --to NEW"
                )
            }
            Failure::File { path, fault } => {
                let path = Named(*path);
                write!(f, "{path}: {fault}")
            }
            Failure::Unmade { path, fault } => {
                let path = Named(*path);
                write!(f, "{path}: ")?;
                f.write_str(why_unmade(*fault))
            }
            Failure::Occupied { path } => {
                let path = Named(*path);
                write!(
                    f,
                    "{path}: not empty, but it has no tables; they may be in its log: choose a new file"
                )
            }
            Failure::Bare { path } => {
                let path = Named(*path);
                write!(
                    f,
                    "{path}: it has no tables; they may be in its log, {path}-wal: use both files, or a backup"
                )
            }
            Failure::LogAlone { path } => {
                let path = Named(*path);
                write!(
                    f,
                    "{path}: missing or empty, but its log {path}-wal is not: restore the file of this log, or remove the log"
                )
            }
            Failure::Undamaged { path } => {
                let path = Named(*path);
                write!(f, "{path}: its log isn't damaged: use sunreg backup")
            }
            Failure::Uncopied { path, fault } => {
                let path = Named(*path);
                write!(f, "{path}: {fault}")
            }
            Failure::Unopened { path, fault } => {
                let path = Named(*path);
                write!(f, "{path}: ")?;
                f.write_str(why_unopened(*fault))
            }
            Failure::Unaudited { path, fault } => {
                let path = Named(*path);
                match other_table(*fault) {
                    Some(table) => write!(
                        f,
                        "{path}: its table {table} is not that of sunreg: use an intact copy or a backup"
                    ),
                    None => {
                        write!(f, "{path}: ")?;
                        f.write_str(why_unaudited(*fault))
                    }
                }
            }
            Failure::Unconnected { host, port } => write!(
                f,
                "nothing answers at port {port} of {host}: is the device on, and is this its address?"
            ),
            Failure::Unscanned { host, port, fault } => write!(
                f,
                "can't scan port {port} of {host}: {fault}"
            ),
            Failure::Broken { host, port } => write!(
                f,
                "the connection to port {port} of {host} failed during the round; booked energy is kept"
            ),
            Failure::Endless { host, port } => write!(
                f,
                "port {port} of {host} sent endless data, but no valid response; booked energy is kept"
            ),
            Failure::Host { host } => write!(
                f,
                "can't resolve {host}: check the host name and this machine's DNS"
            ),
            Failure::Sockets => write!(f, "waiting for sockets failed"),
            Failure::Stopped => write!(
                f,
                "the office stopped because its file failed or memory ran out: check the disk, then restart"
            ),
        }
    }
}

impl<'a> Error for Failure<'a> {}

// Returns the part of a message that says why the tables for metering records could not be created,
// and what the user can do.
fn why_unmade(fault: OpenFault) -> &'static str {
    match fault {
        OpenFault::NotOurs => "already has tables: skip create, or choose another file",
        OpenFault::Zone =>
            "the zone is not a POSIX time zone; Berlin is CET-1CEST,M3.5.0,M10.5.0/3",
        OpenFault::Store => "can't write the tables: check its permissions and the free disk space",
        OpenFault::Memory => "out of memory",
    }
}

// Returns the part of a message that says why the metering records could not be opened, and what
// the user can do.
fn why_unopened(fault: OpenFault) -> &'static str {
    match fault {
        OpenFault::NotOurs =>
            "not an office file, or made by a later version of sunreg; sunreg create makes a new one",
        OpenFault::Zone =>
            "the zone in its table meta is not a POSIX time zone: use an intact copy",
        OpenFault::Store => "the database failed: check its permissions and the free disk space",
        OpenFault::Memory => "out of memory",
    }
}

// Returns the name of the table whose definition differs from the program's, if this difference is
// why a database file could not be audited.
fn other_table(fault: AuditFault) -> Option<&'static str> {
    match fault {
        AuditFault::Schema(fault) => fault.table(),
        _ => None,
    }
}

// Returns the part of a message that says why a database file could not be audited, and what the
// user can do.
fn why_unaudited(fault: AuditFault) -> &'static str {
    match fault {
        AuditFault::NotOurs =>
            "not an office file, or made by a later version of sunreg: use the office file or a backup",
        AuditFault::Earlier =>
            "made by an earlier version of sunreg: open it, or a backup of it, once with sunreg report",
        AuditFault::Schema(_) =>
            "its tables, indexes, views or triggers are not those of sunreg: use an intact copy or a backup",
        AuditFault::Mark =>
            "its table meta does not have exactly one row with id 1, version 3 and a time zone: use an intact copy or a backup",
        AuditFault::Unsealable =>
            "a row has a value or a name that a seal can't contain: sunreg audit without --seal shows which",
        AuditFault::NoText =>
            "a name in it, or its zone, is not text: use the office file or a backup",
        AuditFault::NoSeal => "not a seal: use the output of sunreg audit --seal",
        AuditFault::Unread => "can't read the seal file: check its name and permissions",
        AuditFault::Store => "the database failed: check its permissions and the free disk space",
        AuditFault::Memory => "out of memory",
        AuditFault::Output => "can't write standard output",
    }
}
