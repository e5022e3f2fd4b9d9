//! Tests the text that the program prints for each possible failure of one of its commands.
use office_store::OpenFault;
use stored_files::{AuditFault, CopyFault, Failure, FileFault};
use sun_chain::scans::ScanFault;
use table_audit::SchemaFault;

/// Test cases: every failure of a command, with the message that the program prints for it.
static FAILURES: [(Failure<'static>, &str); 43] = [
    (Failure::Memory, "out of memory"),
    (
        Failure::Streams,
        "can't read standard input, can't write standard output, or out of memory",
    ),
    (Failure::Loopback, "can't listen on 127.0.0.1"),
    (
        Failure::File {
            path: "a.db",
            fault: FileFault::Missing,
        },
        "a.db: file not found; make it with sunreg create",
    ),
    (
        Failure::Stopped,
        "the office stopped because its file failed or memory ran out: check the disk, then restart",
    ),
    (
        Failure::Port {
            host: "h",
            port: 80,
        },
        "can't listen on port 80 of h: in use, or not an address of this machine",
    ),
    (Failure::Listening, "can't accept more connections"),
    (
        Failure::Unconnected {
            host: "h",
            port: 80,
        },
        "nothing answers at port 80 of h: is the device on, and is this its address?",
    ),
    (
        Failure::Unscanned {
            host: "h",
            port: 80,
            fault: ScanFault::Gone,
        },
        "can't scan port 80 of h: the device closed the connection",
    ),
    (
        Failure::Broken {
            host: "h",
            port: 80,
        },
        "the connection to port 80 of h failed during the round; booked energy is kept",
    ),
    (
        Failure::Endless {
            host: "h",
            port: 80,
        },
        "port 80 of h sent endless data, but no valid response; booked energy is kept",
    ),
    (
        Failure::Host { host: "h" },
        "can't resolve h: check the host name and this machine's DNS",
    ),
    (Failure::Sockets, "waiting for sockets failed"),
    (
        Failure::Occupied { path: "a.db" },
        "a.db: not empty, but it has no tables; they may be in its log: choose a new file",
    ),
    (
        Failure::Bare { path: "a.db" },
        "a.db: it has no tables; they may be in its log, a.db-wal: use both files, or a backup",
    ),
    (
        Failure::LogAlone { path: "a.db" },
        "a.db: missing or empty, but its log a.db-wal is not: restore the file of this log, or remove the log",
    ),
    (
        Failure::Unmade {
            path: "a.db",
            fault: OpenFault::NotOurs,
        },
        "a.db: already has tables: skip create, or choose another file",
    ),
    (
        Failure::Unmade {
            path: "a.db",
            fault: OpenFault::Zone,
        },
        "a.db: the zone is not a POSIX time zone; Berlin is CET-1CEST,M3.5.0,M10.5.0/3",
    ),
    (
        Failure::Unmade {
            path: "a.db",
            fault: OpenFault::Store,
        },
        "a.db: can't write the tables: check its permissions and the free disk space",
    ),
    (
        Failure::Unmade {
            path: "a.db",
            fault: OpenFault::Memory,
        },
        "a.db: out of memory",
    ),
    (
        Failure::Unopened {
            path: "a.db",
            fault: OpenFault::NotOurs,
        },
        "a.db: not an office file, or made by a later version of sunreg; sunreg create makes a new one",
    ),
    (
        Failure::Unopened {
            path: "a.db",
            fault: OpenFault::Zone,
        },
        "a.db: the zone in its table meta is not a POSIX time zone: use an intact copy",
    ),
    (
        Failure::Unopened {
            path: "a.db",
            fault: OpenFault::Store,
        },
        "a.db: the database failed: check its permissions and the free disk space",
    ),
    (
        Failure::Unopened {
            path: "a.db",
            fault: OpenFault::Memory,
        },
        "a.db: out of memory",
    ),
    (
        Failure::Uncopied {
            path: "a.db",
            fault: CopyFault::Exists,
        },
        "a.db: this file, or its log (-wal), already exists: choose another name",
    ),
    (
        Failure::Uncopied {
            path: "a.db",
            fault: CopyFault::Unfinished,
        },
        "a.db: a backup to it is running, or was interrupted: then remove its .part file",
    ),
    (
        Failure::Uncopied {
            path: "a.db",
            fault: CopyFault::Unwritable,
        },
        "a.db: can't write it: check its folder's permissions and the free disk space",
    ),
    (
        Failure::Uncopied {
            path: "a.db",
            fault: CopyFault::Changing,
        },
        "a.db: its log was checkpointed during the copy, so no backup was made: try again",
    ),
    (
        Failure::Uncopied {
            path: "a.db",
            fault: CopyFault::Torn,
        },
        "a.db: not an SQLite database, or damaged; no backup was made",
    ),
    (
        Failure::Uncopied {
            path: "a.db",
            fault: CopyFault::NotOurs,
        },
        "a.db: not an office file, or made by a later version of sunreg",
    ),
    (
        Failure::Uncopied {
            path: "a.db",
            fault: CopyFault::Memory,
        },
        "a.db: out of memory",
    ),
    (
        Failure::Unaudited {
            path: "a.db",
            fault: AuditFault::NotOurs,
        },
        "a.db: not an office file, or made by a later version of sunreg: use the office file or a backup",
    ),
    (
        Failure::Unaudited {
            path: "a.db",
            fault: AuditFault::Earlier,
        },
        "a.db: made by an earlier version of sunreg: open it, or a backup of it, once with sunreg report",
    ),
    (
        Failure::Unaudited {
            path: "a.db",
            fault: AuditFault::Schema(SchemaFault::Objects),
        },
        "a.db: its tables, indexes, views or triggers are not those of sunreg: use an intact copy or a backup",
    ),
    (
        Failure::Unaudited {
            path: "a.db",
            fault: AuditFault::Schema(SchemaFault::Installations),
        },
        "a.db: its table installations is not that of sunreg: use an intact copy or a backup",
    ),
    (
        Failure::Unaudited {
            path: "a.db",
            fault: AuditFault::Mark,
        },
        "a.db: its table meta does not have exactly one row with id 1, version 3 and a time zone: use an intact copy or a backup",
    ),
    (
        Failure::Unaudited {
            path: "a.db",
            fault: AuditFault::Unsealable,
        },
        "a.db: a row has a value or a name that a seal can't contain: sunreg audit without --seal shows which",
    ),
    (
        Failure::Unaudited {
            path: "a.db",
            fault: AuditFault::NoText,
        },
        "a.db: a name in it, or its zone, is not text: use the office file or a backup",
    ),
    (
        Failure::Unaudited {
            path: "a.db",
            fault: AuditFault::NoSeal,
        },
        "a.db: not a seal: use the output of sunreg audit --seal",
    ),
    (
        Failure::Unaudited {
            path: "a.db",
            fault: AuditFault::Unread,
        },
        "a.db: can't read the seal file: check its name and permissions",
    ),
    (
        Failure::Unaudited {
            path: "a.db",
            fault: AuditFault::Store,
        },
        "a.db: the database failed: check its permissions and the free disk space",
    ),
    (
        Failure::Unaudited {
            path: "a.db",
            fault: AuditFault::Memory,
        },
        "a.db: out of memory",
    ),
    (
        Failure::Unaudited {
            path: "a.db",
            fault: AuditFault::Output,
        },
        "a.db: can't write standard output",
    ),
];

// Checks that the text of each failure names the file or the port, the cause, and what to do.
#[test]
fn failures_have_their_texts(rt: HostRuntime) {
    for (failure, text) in &FAILURES {
        let said = format!(in rt.alloc(); "{failure}").expect(&rt, "no memory");
        assert!(rt; said.as_str() == *text, "{text}");
    }
}
