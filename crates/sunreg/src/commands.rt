//! Executes commands with the standard streams, files and sockets of the process.
ghost use Rattle.std.specs.Process.{exit_status};
ghost use Rattle.sunreg.specs.Commands.{EndsAudited, EndsCommand};

use crate::completions::completions;
use crate::ended;
use crate::entering::enter;
use crate::explain::explain;
use crate::offices::{OWN_HOST, over_office, run};
use crate::period_runs::{PeriodWords, run_by_periods};
use crate::replays::{replay_file, replay_memory};
use crate::reports::report;
use crate::run_words::settings_of;
use crate::scans::{Target, scan};
use crate::surroundings::Surroundings;
use command_io::{Buffered, ExitStatus};
use command_words::{CommandLine, Sealing};
use file_commands::{
    OfficeFiles, audit, audit_several, backup, carry, create, recover, report_files,
};
use interval_core::Zone;
use mb_device::answer_all;
use office_program::NamedFiles;
use script_run::{Loopback, SetupParts, loop_text, set_up};
use std::io;
use std::io::Write;
use std::net::TcpListener;
use std::process::ExitCode;
use stored_files::{Ending, Failure, ending_of};
use stored_office::{Task, ending_of_done};
use sunspec_text::{chain_text, plan_text};

/// Executes a command on the files of the operating system. Reports how the command ended, and
/// returns its exit status.
pub(crate) fn carry_out(rt: &HostRuntime, line: &CommandLine<'_>) -> ExitCode {
    let files = Surroundings::new(rt, line);
    carry_out_over(rt, &files, line)
}

// Executes a command, which opens database files through the given object `files`.
fn carry_out_over<D: OfficeFiles + NamedFiles>(
    rt: &HostRuntime,
    files: &D,
    line: &CommandLine<'_>,
) -> ExitCode
    ensures { EndsCommand D.Store.Store (D.opens files.now) line.now (exit_status result) }
{
    let ending = match line {
        CommandLine::Replay { zone } => replay_memory(rt, *zone),
        CommandLine::ReplayFile { db } => replay_file(rt, files, *db),
        CommandLine::Loop { zone } => run_loop(rt, *zone),
        CommandLine::Plan => print_plan(rt),
        CommandLine::Chain => print_chain(rt),
        CommandLine::Scan {
            host,
            port,
            unit,
            timeout,
            list,
            setup,
        } => {
            let target = Target {
                host: *host,
                port: *port,
                unit: *unit,
                timeout: *timeout,
            };
            scan(rt, target, *list, *setup)
        }
        CommandLine::StandIn {
            host,
            port,
            connections,
        } => stand_in(rt, *host, *port, *connections),
        CommandLine::Create { db, zone } => create(rt, files, *db, *zone),
        CommandLine::Serve {
            db,
            port,
            connections,
            host_names,
        } => {
            let task = Task::Serve {
                host: OWN_HOST,
                port: *port,
                names: host_names.as_slice(),
                connections: *connections,
            };
            ending_of_done(over_office(rt, files, *db, task), OWN_HOST, *port)
        }
        CommandLine::Round {
            db,
            device,
            host,
            port,
        } => {
            let task = Task::Round {
                device: *device,
                host: *host,
                port: *port,
            };
            ending_of_done(over_office(rt, files, *db, task), *host, *port)
        }
        CommandLine::Report { db, register, form } => report(rt, files, *db, *register, form),
        CommandLine::ReportFiles {
            files: paths,
            register,
            form,
        } => {
            let mut output = Buffered::new(io::writer(rt));
            report_files(rt, files, paths.as_slice(), *register, form, &mut output)
        }
        CommandLine::Run {
            dbs,
            listen,
            every,
            devices,
            lasts,
            carry,
            earlier,
            host_names,
            most_kept,
            verbose,
        } => {
            let settings = settings_of(
                *listen,
                *every,
                *lasts,
                host_names.as_slice(),
                *most_kept,
                *verbose,
            );
            match carry {
                Some(period) => {
                    let words = PeriodWords {
                        files: dbs.as_slice(),
                        period: *period,
                        earlier: *earlier,
                    };
                    return run_by_periods(rt, files, words, devices, &settings);
                }
                None => run(rt, files, dbs.as_slice(), devices, &settings),
            }
        }
        CommandLine::Enter {
            db,
            caller,
            devices: _,
            only_read,
        } => enter(rt, files, *db, *caller, *only_read),
        CommandLine::Backup { db, to } => backup(rt, *db, *to),
        CommandLine::Recover { db, to } => recover(rt, files, *db, *to),
        CommandLine::Carry { from, to, until } => {
            carry(rt, files, *from, *to, *until, &mut io::writer(rt))
        }
        CommandLine::Audit { dbs, seal } => audit_files(rt, files, dbs.as_slice(), *seal),
        CommandLine::Explain { what, number } => explain(rt, *what, *number),
        CommandLine::Completions => completions(rt),
    };
    ended(rt, &ending)
}

// Audits one file, or several files one after another.
fn audit_files<'a, D: OfficeFiles>(
    rt: &HostRuntime,
    files: &D,
    paths: &[&'a str],
    seal: Sealing<'a>,
) -> Ending<'a>
    ensures { EndsAudited D.Store.Store (D.opens files.now) paths.now seal.entry result }
{
    match paths {
        [path] => audit(rt, files, *path, seal, &mut io::writer(rt)),
        [] => audit_several(rt, files, paths, &mut io::writer(rt)),
        [_, _, ..] => audit_several(rt, files, paths, &mut io::writer(rt)),
    }
}

fn run_loop<'a>(rt: &HostRuntime, zone: &'a str) -> Ending<'a> {
    let Ok(read) = Zone::read(zone) else {
        return Ending::NoZone(zone);
    };
    let Ok(mut loopback) = Loopback::new(rt) else {
        return Ending::Failed(Failure::Loopback);
    };
    let mut input = rt.stdin();
    let mut output = Buffered::new(io::writer(rt));
    let status = loop_text(rt.alloc(), read, &mut input, &mut loopback, &mut output);
    ending_of(flushed(status, &mut output))
}

fn print_plan(rt: &HostRuntime) -> Ending<'static> {
    let mut input = rt.stdin();
    let mut output = Buffered::new(io::writer(rt));
    let status = plan_text(rt.alloc(), &mut input, &mut output);
    ending_of(flushed(status, &mut output))
}

fn print_chain(rt: &HostRuntime) -> Ending<'static> {
    let mut input = rt.stdin();
    let mut output = Buffered::new(io::writer(rt));
    let status = chain_text(rt.alloc(), &mut input, &mut output);
    ending_of(flushed(status, &mut output))
}

fn stand_in<'a>(rt: &HostRuntime, host: &'a str, port: u16, connections: u32) -> Ending<'a> {
    let mut input = rt.stdin();
    let mut output = io::writer(rt);
    let setup = match set_up(rt.alloc(), &mut input, &mut output) {
        Ok(setup) => setup,
        Err(status) => return ending_of(status),
    };
    let SetupParts { mut bank, tricks } = setup.into_parts();
    let Ok(listener) = TcpListener::bind(rt, (host, port)) else {
        return Ending::Failed(Failure::Port { host, port });
    };
    match answer_all(&listener, connections, &mut bank, tricks.as_slice()) {
        Ok(()) => Ending::Fine,
        Err(_) => Ending::Failed(Failure::Listening),
    }
}

// Flushes the output of a command, and returns the status of the command. If flushing fails, the
// status is `Failed`.
fn flushed<W: Write>(status: ExitStatus, output: &mut Buffered<W>) -> ExitStatus {
    match output.flush() {
        Ok(()) => status,
        Err(_) => ExitStatus::Failed,
    }
}
