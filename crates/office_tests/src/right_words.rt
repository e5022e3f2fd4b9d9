//! Tests how valid command lines are parsed: options in any order, defaults, numbers at their
//! limits, and device lists of up to 64 devices.
use command_words::{WordsFault, command_of};
use std::alloc::Global;
use std::process::Abort;

// Each test case has a command line, with `|` between its arguments, and on the next line the text
// of the parsed command.
static RIGHT: [&str; 52] = [
    "replay\n\
     Replay { zone: \"UTC0\" }",
    "replay|--zone|CET-1\n\
     Replay { zone: \"CET-1\" }",
    "loop\n\
     Loop { zone: \"UTC0\" }",
    "loop|--zone=no zone at all\n\
     Loop { zone: \"no zone at all\" }",
    "plan\n\
     Plan",
    "chain\n\
     Chain",
    // The options of a command may come in any order.
    "create|--db|a b.db|--zone|UTC0\n\
     Create { db: \"a b.db\", zone: \"UTC0\" }",
    "create|--zone|UTC0|--db|a b.db\n\
     Create { db: \"a b.db\", zone: \"UTC0\" }",
    "round|--db=o.db|--device=inv|--host=meter.lan|--port=502\n\
     Round { db: \"o.db\", device: \"inv\", host: \"meter.lan\", port: 502 }",
    // Without `--host`, a command uses the local machine, 127.0.0.1.
    "round|--db|o.db|--device|\u{e4} b|--port|502\n\
     Round { db: \"o.db\", device: \"\u{e4} b\", host: \"127.0.0.1\", port: 502 }",
    // The name of an accounting register (a named counter) may contain any characters, and parsing
    // leaves the name unchanged.
    "report|--db|o.db|--register|Main,=1 \u{3bc}\n\
     Report { db: \"o.db\", register: \"Main,=1 \u{3bc}\", form: FormWords { from: None, \
     till: None, period: None, unit: None, format: None, statement: false } }",
    // Parsing the arguments does not check that the date after `--from` exists.
    "report|--db|o.db|--register|main|--from|2024-02-30|--till=|--by|year|--unit|kwh\
     |--format|json\n\
     Report { db: \"o.db\", register: \"main\", form: FormWords { from: Some(\"2024-02-30\"), \
     till: Some(\"\"), period: Some(Year), unit: Some(KilowattHours), format: Some(Json), \
     statement: false } }",
    // Test cases for the units, periods and formats of a report that the other test cases do not
    // use.
    "report|--db|o.db|--register|main|--by|day|--unit|mwh|--format|text\n\
     Report { db: \"o.db\", register: \"main\", form: FormWords { from: None, till: None, \
     period: Some(Day), unit: Some(MilliwattHours), format: Some(Text), statement: false } }",
    "report|--db|o.db|--register|main|--by|month|--format|csv\n\
     Report { db: \"o.db\", register: \"main\", form: FormWords { from: None, till: None, \
     period: Some(Month), unit: None, format: Some(Csv), statement: false } }",
    // A statement (a report with one row for each meter, to check a bill) has no periods, so the
    // option `--by` is not given.
    "report|--db|o.db|--register|main|--statement|--unit|kwh\n\
     Report { db: \"o.db\", register: \"main\", form: FormWords { from: None, till: None, \
     period: None, unit: Some(KilowattHours), format: None, statement: true } }",
    // In a report over several files, the files keep the order in which the arguments name them.
    "report|--db=2026.db|--register|main|--db|o.db|--statement|--\n\
     ReportFiles { files: [\"2026.db\", \"o.db\"], register: \"main\", form: FormWords { \
     from: None, till: None, period: None, unit: None, format: None, statement: true } }",
    // The defaults of `scan` are unit identifier 1 and a timeout of five seconds.
    "scan|--port|502\n\
     Scan { host: \"127.0.0.1\", port: 502, unit: 1, timeout: 5, list: false, setup: None }",
    "scan|--host|meter.lan|--port|502|--list|--unit|255|--timeout|60\n\
     Scan { host: \"meter.lan\", port: 502, unit: 255, timeout: 60, list: true, setup: None }",
    "scan|--port|502|--setup|inv|--unit|2|--timeout|1\n\
     Scan { host: \"127.0.0.1\", port: 502, unit: 2, timeout: 1, list: false, \
     setup: Some(\"inv\") }",
    "stand-in|--host|::1|--port|1502|--connections|10\n\
     StandIn { host: \"::1\", port: 1502, connections: 10 }",
    // Without `--host`, a command uses the local machine, 127.0.0.1.
    "stand-in|--port|1502|--connections|10\n\
     StandIn { host: \"127.0.0.1\", port: 1502, connections: 10 }",
    "backup|--to|copy of o.db|--db|o.db\n\
     Backup { db: \"o.db\", to: \"copy of o.db\" }",
    "carry|--from|o.db|--to|n.db\n\
     Carry { from: \"o.db\", to: \"n.db\", until: None }",
    "carry|--until|4294967295|--to|n.db|--from|o.db\n\
     Carry { from: \"o.db\", to: \"n.db\", until: Some(4294967295) }",
    // Parsing the arguments of `explain` does not check that the last argument is a number.
    "explain|refused|12\n\
     Explain { what: \"refused\", number: \"12\" }",
    "explain|--|-1|--help\n\
     Explain { what: \"-1\", number: \"--help\" }",
    "completions|bash\n\
     Completions",
    "audit|--db|o.db\n\
     Audit { dbs: [\"o.db\"], seal: Nothing }",
    "audit|--db|o.db|--seal\n\
     Audit { dbs: [\"o.db\"], seal: Print }",
    "audit|--against|seal.txt|--db|o.db\n\
     Audit { dbs: [\"o.db\"], seal: Against(\"seal.txt\") }",
    "audit|--db=old.db|--db|o.db\n\
     Audit { dbs: [\"old.db\", \"o.db\"], seal: Nothing }",
    // Without `--devices`, the command `enter`, which records entries by hand, can read no counter
    // of a device.
    "enter|--db|o.db|--caller|site\n\
     Enter { db: \"o.db\", caller: \"site\", devices: [], only_read: false }",
    "enter|-n|--caller|site|--db|o.db\n\
     Enter { db: \"o.db\", caller: \"site\", devices: [], only_read: true }",
    "enter|--devices|inv=meter.lan:502,b=[::1]:1|--caller|site|--db|o.db\n\
     Enter { db: \"o.db\", caller: \"site\", devices: [Device { name: \"inv\", \
     host: \"meter.lan\", port: 502 }, Device { name: \"b\", host: \"[::1]\", \
     port: 1 }], only_read: false }",
    // Without host names, `serve` accepts only requests to the names of the local machine.
    "serve|--db|o.db|--port|8080|--connections|7\n\
     Serve { db: \"o.db\", port: 8080, connections: 7, host_names: [] }",
    "serve|--host-name=a.example|--db|o.db|--port=8080|--host-name|b.example|--connections|7\n\
     Serve { db: \"o.db\", port: 8080, \
     connections: 7, host_names: [\"a.example\", \"b.example\"] }",
    // Without optional arguments, the command `run` runs until it is stopped, begins no new files,
    // and has no limit for stored requests (accepted commands kept with their responses).
    "run|--db|o.db|--listen|8080|--every|60|--devices|inv=192.0.2.7:502\n\
     Run { dbs: [\"o.db\"], listen: 8080, every: 60, devices: [Device { name: \"inv\", \
     host: \"192.0.2.7\", port: 502 }], lasts: None, carry: None, \
     earlier: None, host_names: [], most_kept: None, verbose: false }",
    "run|--verbose|--db=o.db|--listen=8080|--every=60|--devices|inv=meter.lan:502,b=[::1]:1\
     |--for|3600|--carry|month|--host-name=a.example|--most-kept|100|--\n\
     Run { dbs: [\"o.db\"], listen: 8080, every: 60, devices: [Device { name: \"inv\", \
     host: \"meter.lan\", port: 502 }, Device { name: \"b\", host: \"[::1]\", port: 1 }], \
     lasts: Some(3600), carry: Some(Month), \
     earlier: None, host_names: [\"a.example\"], most_kept: Some(100), verbose: true }",
    "run|--db|o.db|--listen|8080|--every|60|--devices|inv=192.0.2.7:502|--carry|year\
     |--earlier|1200\n\
     Run { dbs: [\"o.db\"], listen: 8080, every: 60, devices: [Device { name: \"inv\", \
     host: \"192.0.2.7\", port: 502 }], lasts: None, carry: Some(Year), \
     earlier: Some(1200), host_names: [], most_kept: None, verbose: false }",
    "run|--db|2025.db|--listen|8080|--every|60|--devices|inv=192.0.2.7:502|--carry|month\
     |--db|o.db\n\
     Run { dbs: [\"2025.db\", \"o.db\"], listen: 8080, every: 60, devices: [Device { \
     name: \"inv\", host: \"192.0.2.7\", port: 502 }], lasts: None, carry: Some(Month), \
     earlier: None, host_names: [], most_kept: None, verbose: false }",
    // Test cases: command lines with numbers at their limits.
    "serve|--db|x|--connections|1|--port|1\n\
     Serve { db: \"x\", port: 1, connections: 1, host_names: [] }",
    "serve|--db|x|--connections|1|--port|65535\n\
     Serve { db: \"x\", port: 65535, connections: 1, host_names: [] }",
    "serve|--db|x|--connections|1|--port|0000000080\n\
     Serve { db: \"x\", port: 80, connections: 1, host_names: [] }",
    "run|--db|x|--every|1|--devices|a=h:1|--listen|1\n\
     Run { dbs: [\"x\"], listen: 1, every: 1, devices: [Device { name: \"a\", host: \"h\", \
     port: 1 }], lasts: None, carry: None, earlier: None, host_names: [], most_kept: None, \
     verbose: false }",
    "run|--db|x|--every|1|--devices|a=h:1|--listen|65535\n\
     Run { dbs: [\"x\"], listen: 65535, every: 1, devices: [Device { name: \"a\", host: \"h\", \
     port: 1 }], lasts: None, carry: None, earlier: None, host_names: [], most_kept: None, \
     verbose: false }",
    "run|--db|x|--every|1|--devices|a=h:1|--listen|0000000080\n\
     Run { dbs: [\"x\"], listen: 80, every: 1, devices: [Device { name: \"a\", host: \"h\", \
     port: 1 }], lasts: None, carry: None, earlier: None, host_names: [], most_kept: None, \
     verbose: false }",
    "serve|--db|x|--port|1|--connections|1\n\
     Serve { db: \"x\", port: 1, connections: 1, host_names: [] }",
    "serve|--db|x|--port|1|--connections|1000000\n\
     Serve { db: \"x\", port: 1, connections: 1000000, host_names: [] }",
    "run|--db|x|--listen|1|--devices|a=h:1|--every|1|--for|1\n\
     Run { dbs: [\"x\"], listen: 1, every: 1, devices: [Device { name: \"a\", host: \"h\", \
     port: 1 }], lasts: Some(1), carry: None, earlier: None, host_names: [], most_kept: None, \
     verbose: false }",
    "run|--db|x|--listen|1|--devices|a=h:1|--every|86400|--for|4000000000\n\
     Run { dbs: [\"x\"], listen: 1, every: 86400, devices: [Device { name: \"a\", host: \"h\", \
     port: 1 }], lasts: Some(4000000000), carry: None, \
     earlier: None, host_names: [], most_kept: None, verbose: false }",
    "run|--db|x|--listen|1|--devices|a=h:1|--every|1|--most-kept|1\n\
     Run { dbs: [\"x\"], listen: 1, every: 1, devices: [Device { name: \"a\", host: \"h\", \
     port: 1 }], lasts: None, carry: None, earlier: None, host_names: [], most_kept: Some(1), \
     verbose: false }",
    "run|--db|x|--listen|1|--devices|a=h:1|--every|1|--most-kept|1000000\n\
     Run { dbs: [\"x\"], listen: 1, every: 1, devices: [Device { name: \"a\", host: \"h\", \
     port: 1 }], lasts: None, carry: None, \
     earlier: None, host_names: [], most_kept: Some(1000000), verbose: false }",
];

// Each test case has the device list of a command `run`, and on the next line the text of the
// parsed devices.
static LISTS: [&str; 7] = [
    "a=h:1\n\
     Device { name: \"a\", host: \"h\", port: 1 }",
    "a=h:65535,b=h:1\n\
     Device { name: \"a\", host: \"h\", port: 65535 }, Device { name: \"b\", host: \"h\", \
     port: 1 }",
    "a=[::1]:502\n\
     Device { name: \"a\", host: \"[::1]\", port: 502 }",
    "a=::1:502\n\
     Device { name: \"a\", host: \"::1\", port: 502 }",
    "a=b=c:1\n\
     Device { name: \"a\", host: \"b=c\", port: 1 }",
    "A b=h:0000000001,a b=h:1\n\
     Device { name: \"A b\", host: \"h\", port: 1 }, Device { name: \"a b\", host: \"h\", \
     port: 1 }",
    " a=h:1,a=h:1\n\
     Device { name: \" a\", host: \"h\", port: 1 }, Device { name: \"a\", host: \"h\", port: 1 }",
];

// A command `run` without its device list, and the text of the parsed command before and after its
// devices.
const LINE: &str = "run|--db|x|--listen|1|--every|1|--devices|";

const BEFORE: &str = "Run { dbs: [\"x\"], listen: 1, every: 1, devices: [";

const AFTER: &str = "], lasts: None, carry: None, earlier: None, host_names: [], most_kept: None, \
    verbose: false }";

// Returns, as text, the result of parsing the program's arguments. The result is a command, an
// error message, or a request for help or the version.
fn spelled(rt: &impl Abort, alloc: Global, words: &[&str]) -> String {
    let text = match command_of(alloc, words) {
        Ok(command) => format!(in alloc; "{command:?}"),
        Err(WordsFault::Wrong(text)) => format!(in alloc; "wrong: {text}"),
        Err(WordsFault::Help(text)) => format!(in alloc; "help: {text}"),
        Err(fault) => format!(in alloc; "{fault:?}"),
    };
    text.expect(rt, "no memory")
}

// Asserts that parsing the arguments in `line` (separated by a vertical bar) gives a command or an
// error with the text `text`.
fn assert_spelled(rt: &impl Abort, alloc: Global, line: &str, text: &str) {
    let words: Vec<&str> = line.split('|').collect(alloc).expect(rt, "no memory");
    let found = spelled(rt, alloc, &words);
    assert!(rt; found.as_str() == text, "{line}: {found}");
}

// Each command line in the table `RIGHT` is parsed. The parsed command, printed as text, must be
// the text beside the command line in the table.
#[test]
fn words_spell_commands(rt: HostRuntime) {
    for case in &RIGHT {
        let (line, text) = case.split_once('\n').expect(&rt, "no case");
        assert_spelled(&rt, rt.alloc(), line, text);
    }
    let found = spelled(&rt, rt.alloc(), &[]);
    assert!(rt; found.as_str() == r#"Replay { zone: "UTC0" }"#, "{found}");
}

// Asserts that a command `run` with this device list parses to these devices.
fn assert_devices(rt: &impl Abort, alloc: Global, list: &str, devices: &str) {
    let mut line = String::from_str(alloc, LINE).expect(rt, "no memory");
    line.push_str(list).expect(rt, "no memory");
    let mut text = String::from_str(alloc, BEFORE).expect(rt, "no memory");
    text.push_str(devices).expect(rt, "no memory");
    text.push_str(AFTER).expect(rt, "no memory");
    assert_spelled(rt, alloc, line.as_str(), text.as_str());
}

// The device list of each test case parses to the expected devices of the case.
#[test]
fn device_lists_spell_devices(rt: HostRuntime) {
    for case in &LISTS {
        let (list, devices) = case.split_once('\n').expect(&rt, "no case");
        assert_devices(&rt, rt.alloc(), list, devices);
    }
}

// A device list may have 64 devices. The list of this test has the device d1 at port 1, the device
// d2 at port 2, and so on.
#[test]
fn a_list_has_up_to_64_devices(rt: HostRuntime) {
    let mut list = String::new(rt.alloc());
    let mut devices = String::new(rt.alloc());
    let mut comma = "";
    let mut space = "";
    for n in 1..=64u16 {
        let device = format!(in rt.alloc(); "{comma}d{n}=h:{n}").expect(&rt, "no memory");
        list.push_str(device.as_str()).expect(&rt, "no memory");
        let device = format!(in rt.alloc();
            "{space}Device {{ name: \"d{n}\", host: \"h\", port: {n} }}"
        ).expect(&rt, "no memory");
        devices.push_str(device.as_str()).expect(&rt, "no memory");
        comma = ",";
        space = ", ";
    }
    assert_devices(&rt, rt.alloc(), list.as_str(), devices.as_str());
}
