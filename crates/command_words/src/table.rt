//! The table of all commands and options of `sunreg`, with their help texts.
ghost use Rattle.std.specs.Prelude.{◌≡◌};
ghost use Rattle.clap.specs.Words.{App};
ghost use Rattle.command_words.specs.ClapTable.Table.{program_app, with_apps, with_commands};
ghost use Rattle.command_words.specs.Program.{commands, later_commands, program};

use crate::clap_table::{CommandText, OptionText, ProgramText, Value};

/// An option whose value is a number from 1 to `most`. The help text shows `value` as the number's
/// placeholder.
#[derive(Clone, Copy, Drop)]
pub struct NumberOption<'a> {
    pub name: &'a str,
    pub value: &'a str,
    pub most: u32,
}

/// The default time zone of the commands, if the option `--zone` is not given.
pub const ZONE: &str = "UTC0";

/// The default host of the commands, if the option `--host` is not given.
pub const HOST: &str = "127.0.0.1";

/// The option for a further name that an HTTP request's Host header may have.
pub const HOST_NAME: &str = "host-name";

pub const PORT: NumberOption<'static> = NumberOption {
    name: "port",
    value: "N",
    most: 65_535,
};

pub const CONNECTIONS: NumberOption<'static> = NumberOption {
    name: "connections",
    value: "N",
    most: 1_000_000,
};

pub const LISTEN: NumberOption<'static> = NumberOption {
    name: "listen",
    value: "PORT",
    most: 65_535,
};

pub const EVERY: NumberOption<'static> = NumberOption {
    name: "every",
    value: "SECONDS",
    most: 86_400,
};

pub const LASTS: NumberOption<'static> = NumberOption {
    name: "for",
    value: "SECONDS",
    most: 4_000_000_000,
};

pub const MOST_KEPT: NumberOption<'static> = NumberOption {
    name: "most-kept",
    value: "MB",
    most: 1_000_000,
};

pub const EARLIER: NumberOption<'static> = NumberOption {
    name: "earlier",
    value: "COUNT",
    most: 1200,
};

pub const UNTIL: NumberOption<'static> = NumberOption {
    name: "until",
    value: "MOMENT",
    most: 4_294_967_295,
};

pub const UNIT: NumberOption<'static> = NumberOption {
    name: "unit",
    value: "U",
    most: 255,
};

pub const TIMEOUT: NumberOption<'static> = NumberOption {
    name: "timeout",
    value: "SECONDS",
    most: 60,
};

/// The words that the option for a report's period accepts.
pub const PERIODS: &[&str] = &["day", "month", "year"];

pub const UNITS: &[&str] = &["mwh", "kwh"];

/// The periods after which the command `run` may begin a new file.
pub const CARRIES: &[&str] = &["month", "year"];

pub const FORMATS: &[&str] = &["text", "csv", "json"];

pub const AUDIT_FORMATS: &[&str] = &["text", "json"];

/// The default Modbus unit identifier.
pub const FIRST_UNIT: u32 = 1;

/// The default timeout for a device's response, in seconds.
pub const PATIENCE: u32 = 5;

const DB: OptionText<'static> = OptionText {
    name: "db",
    value: Value::Required("FILE"),
    help: "Office file",
};

const DBS: OptionText<'static> = OptionText {
    name: "db",
    value: Value::Several("FILE"),
    help: "Office file; repeat for carried files, oldest first",
};

const RUN_DBS: OptionText<'static> = OptionText {
    name: "db",
    value: Value::Several("FILE"),
    help: "Office file; repeat for carried files, oldest first; run continues the last",
};

const NEW_DB: OptionText<'static> = OptionText {
    name: "db",
    value: Value::Required("FILE"),
    help: "File to create; it must have no tables yet",
};

const SCRIPT_DB: OptionText<'static> = OptionText {
    name: "db",
    value: Value::Optional("FILE"),
    help: "Office file to run the script on; it has its own time zone",
};

const SCRIPT_ZONE: OptionText<'static> = OptionText {
    name: "zone",
    value: Value::Optional("TEXT"),
    help: "POSIX time zone for days; default UTC0",
};

const NEW_ZONE: OptionText<'static> = OptionText {
    name: "zone",
    value: Value::Required("TEXT"),
    help: "Time zone of days: a name like Europe/Berlin, or a POSIX rule",
};

const HTTP_PORT: OptionText<'static> = OptionText {
    name: "port",
    value: Value::Required("N"),
    help: "Port on 127.0.0.1, 1 to 65535",
};

const DEVICE_PORT: OptionText<'static> = OptionText {
    name: "port",
    value: Value::Required("N"),
    help: "Device port, 1 to 65535",
};

const DEVICE_HOST: OptionText<'static> = OptionText {
    name: "host",
    value: Value::Optional("HOST"),
    help: "Device host name or IP address; default 127.0.0.1",
};

const OWN_HOST: OptionText<'static> = OptionText {
    name: "host",
    value: Value::Optional("HOST"),
    help: "Host name or IP address to listen on; default 127.0.0.1",
};

const OWN_PORT: OptionText<'static> = OptionText {
    name: "port",
    value: Value::Required("N"),
    help: "Port to listen on, 1 to 65535",
};

const SERVED: OptionText<'static> = OptionText {
    name: "connections",
    value: Value::Required("N"),
    help: "Exits after this many connections, 1 to 1000000",
};

const ASKED_NAME: OptionText<'static> = OptionText {
    name: HOST_NAME,
    value: Value::Repeated("NAME"),
    help: "Additional accepted Host name (repeatable)",
};

const COPY: OptionText<'static> = OptionText {
    name: "to",
    value: Value::Required("COPY"),
    help: "Copy to create; it must not exist yet",
};

const CALLER: OptionText<'static> = OptionText {
    name: "caller",
    value: Value::Required("NAME"),
    help: "Caller; each line number acts once per caller",
};

const DEVICE: OptionText<'static> = OptionText {
    name: "device",
    value: Value::Required("NAME"),
    help: "Device name in the office",
};

const REGISTER: OptionText<'static> = OptionText {
    name: "register",
    value: Value::Required("NAME"),
    help: "Register name in the office",
};

const REPLAY: CommandText<'static> = CommandText {
    name: "replay",
    about: "Runs a script on an office in memory or in a file (default)",
    after: "Example: sunreg replay --zone UTC0 < script.txt",
    options: &[SCRIPT_DB, SCRIPT_ZONE],
};

const PLAN: CommandText<'static> = CommandText {
    name: "plan",
    about: "Plans the Modbus reads for a point list from standard input",
    after: "Example: sunreg plan < points.csv",
    options: &[],
};

const CHAIN: CommandText<'static> = CommandText {
    name: "chain",
    about: "Lists the SunSpec models in an image from standard input",
    after: "Example: sunreg chain < image.txt",
    options: &[],
};

const CREATE: CommandText<'static> = CommandText {
    name: "create",
    about: "Creates a new office in a file",
    after: "Example: sunreg create --db office.db --zone UTC0",
    options: &[NEW_DB, NEW_ZONE],
};

const ENTER: CommandText<'static> = CommandText {
    name: "enter",
    about: "Sets up an office from lines on standard input; each acts once",
    after: "Example: sunreg enter --db office.db --caller site < site.txt",
    options: &[
        DB,
        CALLER,
        OptionText {
            name: "devices",
            value: Value::Optional("LIST"),
            help: "Devices for @read: 1 to 64 NAME=HOST:PORT, comma-separated",
        },
        OptionText {
            name: "only-read",
            value: Value::Letter('n'),
            help: "Prints the same answers, but records nothing",
        },
    ],
};

const SERVE: CommandText<'static> = CommandText {
    name: "serve",
    about: "Serves HTTP on 127.0.0.1, one connection at a time",
    after: "Example: sunreg serve --db office.db --port 8080 --connections 100",
    options: &[DB, HTTP_PORT, SERVED, ASKED_NAME],
};

const ROUND: CommandText<'static> = CommandText {
    name: "round",
    about: "Polls all planned reads of one device once",
    after: "Example: sunreg round --db office.db --device inv --host 192.0.2.7 --port 502",
    options: &[DB, DEVICE, DEVICE_HOST, DEVICE_PORT],
};

const REPORT: CommandText<'static> = CommandText {
    name: "report",
    about: "Prints a register's energy by day, month or year",
    after: "Example:\n  sunreg report --db office.db --register main --by month --unit kwh --format csv",
    options: &[
        DBS,
        REGISTER,
        OptionText {
            name: "from",
            value: Value::Optional("DAY"),
            help: "First day, like 2026-11-25; default: no lower limit",
        },
        OptionText {
            name: "till",
            value: Value::Optional("DAY"),
            help: "End day, not included; default: no upper limit",
        },
        OptionText {
            name: "by",
            value: Value::Chosen {
                shown: "PERIOD",
                choices: PERIODS,
            },
            help: "Period of each row: day, month or year; default day",
        },
        OptionText {
            name: "unit",
            value: Value::Chosen {
                shown: "UNIT",
                choices: UNITS,
            },
            help: "Energy unit: mwh or kwh; default mwh (milliwatt-hours)",
        },
        OptionText {
            name: "format",
            value: Value::Chosen {
                shown: "FORMAT",
                choices: FORMATS,
            },
            help: "Output format: text, csv or json; default text",
        },
        OptionText {
            name: "statement",
            value: Value::Absent,
            help: "Prints one row per meter instead, to check a bill",
        },
    ],
};

const BACKUP: CommandText<'static> = CommandText {
    name: "backup",
    about: "Copies an office into one complete file",
    after: "Example: sunreg backup --db office.db --to copy.db",
    options: &[DB, COPY],
};

const RECOVER: CommandText<'static> = CommandText {
    name: "recover",
    about: "Recovers what a damaged log still holds into a new file",
    after: "Example: sunreg recover --db office.db --to recovered.db",
    options: &[
        OptionText {
            name: "db",
            value: Value::Required("FILE"),
            help: "Office file with a damaged log; both stay unchanged",
        },
        OptionText {
            name: "to",
            value: Value::Required("FILE"),
            help: "File to create; it must not exist yet",
        },
    ],
};

const CARRY: CommandText<'static> = CommandText {
    name: "carry",
    about: "Starts a new file from the last entries of an office's meters",
    after: "Example: sunreg carry --from office.db --to 2027.db",
    options: &[
        OptionText {
            name: "from",
            value: Value::Required("FILE"),
            help: "Current office file; it is only read",
        },
        OptionText {
            name: "to",
            value: Value::Required("FILE"),
            help: "File to create; it must not exist yet",
        },
        OptionText {
            name: "until",
            value: Value::Optional("MOMENT"),
            help: "Ignores records after this time, in seconds since 1970-01-01 UTC",
        },
    ],
};

const AUDIT: CommandText<'static> = CommandText {
    name: "audit",
    about: "Checks the consistency of an office's rows; it only reads",
    after: "Example: sunreg audit --db office.db --seal > seal.txt",
    options: &[
        DBS,
        OptionText {
            name: "seal",
            value: Value::Absent,
            help: "Prints a seal of all records instead, if they are consistent",
        },
        OptionText {
            name: "against",
            value: Value::Optional("SEAL"),
            help: "Also checks that all records of this seal file are unchanged",
        },
        OptionText {
            name: "format",
            value: Value::Chosen {
                shown: "FORMAT",
                choices: AUDIT_FORMATS,
            },
            help: "Output format: text or json; default text",
        },
    ],
};

const SCAN: CommandText<'static> = CommandText {
    name: "scan",
    about: "Lists the SunSpec models of a live device; it only reads",
    after: "Example: sunreg scan --host 192.0.2.7 --port 502 --setup inv > inv.txt",
    options: &[
        DEVICE_HOST,
        DEVICE_PORT,
        OptionText {
            name: "unit",
            value: Value::Optional("U"),
            help: "Modbus unit identifier, 1 to 255; default 1",
        },
        OptionText {
            name: "timeout",
            value: Value::Optional("SECONDS"),
            help: "Response timeout, 1 to 60; default 5",
        },
        OptionText {
            name: "list",
            value: Value::Absent,
            help: "Prints the models' point list instead",
        },
        OptionText {
            name: "setup",
            value: Value::Optional("DEVICE"),
            help: "Prints the lines that set up the device instead",
        },
    ],
};

const STAND_IN: CommandText<'static> = CommandText {
    name: "stand-in",
    about: "Simulates a Modbus device, set up from standard input",
    after: "Example: sunreg stand-in --port 1502 --connections 10 < bank.txt",
    options: &[OWN_HOST, OWN_PORT, SERVED],
};

const LOOP: CommandText<'static> = CommandText {
    name: "loop",
    about: "Runs a script against a simulated device in this process",
    after: "Example: sunreg loop < script.txt",
    options: &[SCRIPT_ZONE],
};

const RUN: CommandText<'static> = CommandText {
    name: "run",
    about: "Polls devices on a schedule and serves HTTP until stopped",
    after: "Example:\n  sunreg run --db office.db --listen 8080 --every 60 --devices inv=192.0.2.7:502",
    options: &[
        RUN_DBS,
        OptionText {
            name: "listen",
            value: Value::Required("PORT"),
            help: "HTTP port on 127.0.0.1, 1 to 65535",
        },
        OptionText {
            name: "every",
            value: Value::Required("SECONDS"),
            help: "Polling interval of each device, 1 to 86400",
        },
        OptionText {
            name: "devices",
            value: Value::Required("LIST"),
            help: "1 to 64 NAME=HOST:PORT, comma-separated",
        },
        OptionText {
            name: "for",
            value: Value::Optional("SECONDS"),
            help: "Exits after this time, 1 to 4000000000",
        },
        OptionText {
            name: "carry",
            value: Value::Chosen {
                shown: "PERIOD",
                choices: CARRIES,
            },
            help: "Starts a new file every PERIOD: month or year",
        },
        OptionText {
            name: "earlier",
            value: Value::Optional("COUNT"),
            help: "Includes this many earlier files in energy figures, 1 to 1200",
        },
        ASKED_NAME,
        OptionText {
            name: "most-kept",
            value: Value::Optional("MB"),
            help: "Limit for stored commands, in MB, 1 to 1000000; then status 503",
        },
        OptionText {
            name: "verbose",
            value: Value::Absent,
            help: "Prints more details",
        },
    ],
};

const EXPLAIN: CommandText<'static> = CommandText {
    name: "explain",
    about: "Explains a printed number: its meaning, cause and remedy",
    after: "Example: sunreg explain refused 12",
    options: &[
        OptionText {
            name: "what",
            value: Value::Word {
                shown: "WHAT",
                choices: &[
                    "refused",
                    "held",
                    "lost",
                    "malformed",
                    "exception",
                    "fault",
                    "status",
                ],
            },
            help: "refused, held, lost, malformed, exception, fault or status",
        },
        OptionText {
            name: "number",
            value: Value::Word {
                shown: "NUMBER",
                choices: &[],
            },
            help: "The number after that word",
        },
    ],
};

const COMPLETIONS: CommandText<'static> = CommandText {
    name: "completions",
    about: "Prints shell completions for sunreg",
    after: "Example: sunreg completions bash > sunreg.bash",
    options: &[OptionText {
        name: "shell",
        value: Value::Word {
            shown: "SHELL",
            choices: &["bash"],
        },
        help: "bash",
    }],
};

// The commands that the help text lists first, in the order of the help text.
const COMMANDS: &[CommandText<'static>] = &[
    REPLAY, PLAN, CHAIN, SCAN, CREATE, ENTER, SERVE, ROUND, REPORT,
];

// The commands that the help text lists last, in the order of the help text.
const LATER_COMMANDS: &[CommandText<'static>] = &[
    BACKUP,
    RECOVER,
    CARRY,
    AUDIT,
    STAND_IN,
    LOOP,
    RUN,
    EXPLAIN,
    COMPLETIONS,
];

fn commands() -> &'static [CommandText<'static>]
    ensures { (app : App) → with_commands app result.now ≡ with_apps app commands }
{
    COMMANDS
}

fn later_commands() -> &'static [CommandText<'static>]
    ensures { (app : App) → with_commands app result.now ≡ with_apps app later_commands }
{
    LATER_COMMANDS
}

/// Returns the table of all commands and options, which the argument parser uses.
pub fn program() -> ProgramText<'static>
    ensures { program_app result ≡ program }
{
    ProgramText {
        name: "sunreg",
        version: "1.0",
        about: "Polls SunSpec meters over Modbus TCP; books energy by quarter hour and day",
        after: "Exit status: 0 success, 1 refused, 2 invalid arguments, 3 input or output failed",
        commands: commands(),
        later: later_commands(),
    }
}
