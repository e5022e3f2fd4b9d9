//! The event loop of a run of `sunreg run`. Each pass of the loop processes at most one event of
//! each device, serves the clients, prints output, and waits for sockets.
ghost use Rattle.std.specs.Prelude.{◌≡◌, ℕ, List};
ghost use Rattle.office_http.specs.Messages.Hosts.{texts};
ghost use Rattle.office_running.specs.Ending.{has_come, moment_of, time_after};
ghost use Rattle.office_running.specs.Runs.{Goes, ReadsClock, RunsOn, TakesTurns, TurnsFrom};

use crate::clocks::{read_clock, read_time, time_from, to_next_second};
use crate::descriptors::find_clients;
use crate::device_polls::Polling;
use crate::fault::RunFault;
use crate::file_watch::{FileWatch, Watching};
use crate::http::{EarlierFiles, HttpPort, KeptRoom, Now, PORT_TOKEN, RunContext};
use crate::leftovers::{Left, print_left};
use crate::outlet::Outlet;
use crate::settings::{Settings, Site};
use crate::voice::Voice;
use interval_core::Zone;
use mb_wire::sockets::Clock;
use mio::net::TcpListener;
use mio::{Events, Interest, Poll, Registry, Token};
use office_books::Books;
use office_core::Office;
use office_program::DeviceEvent;
use poll_core::Closing;
use run_http::status::DeviceLack;
use run_schedule::{MOST_CLIENTS, RunTime, SteadyClock, place_at};
use std::alloc::{AllocError, Global};
use std::io::{ErrorKind, Write};
use std::net::{Net, SocketAddr};
use std::os::fd::RawFd;
use std::rt::Files;
use std::time::Duration;

/// The number that identifies the first device's socket in the event queue. The sockets of the
/// other devices have the next numbers.
const FIRST_DEVICE: usize = PORT_TOKEN + 1;

/// The maximum number of milliseconds to wait for sockets while a client's connection may be
/// waiting to be accepted.
const RETRY: u64 = 100;

// The end of a run: at `time` of the run's own clock, or at `moment` of the system clock, whichever
// is first. Both are in seconds since 1970-01-01 UTC.
#[derive(Clone, Copy)]
struct End {
    time: u64,
    moment: u64,
}

impl End {
    fn has_come(self, now: Now) -> bool
        ensures { result ≡ has_come self now }
    {
        self.time <= now.time || self.moment <= now.moment
    }
}

/// The state of a run of `sunreg run`: its sockets, its devices, its HTTP port and its output.
#[derive(Drop)]
struct Running {
    poll: Poll,
    polling: Polling,
    port: HttpPort,
    voice: Voice,
    /// The queued output: `lines` for standard output, and `sayings` (messages) for standard error.
    lines: Outlet,
    sayings: Outlet,
    files: FileWatch,
    /// The time of the pass of the event loop in which a file of the store was found removed,
    /// replaced or cut short; `None` if no file is lost.
    lost_at: Option<u64>,
    /// The time of the run's own clock in the present pass of the event loop, in seconds since
    /// 1970-01-01 UTC.
    time: u64,
    /// Whether the present pass of the event loop has a timer event. It has one if the time of the
    /// run's own clock, or the timestamp, is greater than in the previous pass.
    ticks: bool,
}

// Creates the record of events for `/status` and logs, for the devices in `sites`. Reports what the
// devices lack, such as a point list.
fn voice_of(
    alloc: Global,
    sites: &[Site],
    lacks: Vec<DeviceLack>,
    verbose: bool,
) -> Result<Voice, AllocError> {
    let mut names = Vec::new(alloc);
    for site in sites {
        names.push(site.name)?;
    }
    let mut voice = Voice::new(alloc, names, lacks, verbose)?;
    voice.say_lacks();
    Ok(voice)
}

// Returns the file descriptors of standard output and standard error, if the settings have them.
fn descriptors_of(settings: &Settings<'_>) -> (Option<RawFd>, Option<RawFd>) {
    match settings.descriptors {
        Some(descriptors) => (Some(descriptors.output), Some(descriptors.errors)),
        None => (None, None),
    }
}

// Listens on a TCP port. A new connection to the port wakes the event loop.
fn listen<R: Net>(rt: &R, registry: &Registry, addr: SocketAddr) -> Result<TcpListener, RunFault> {
    let Ok(mut listener) = TcpListener::bind(rt, addr) else {
        return Err(RunFault::Port);
    };
    match registry.register(&mut listener, Token(PORT_TOKEN), Interest::READABLE) {
        Ok(()) => Ok(listener),
        Err(_) => Err(RunFault::Sockets),
    }
}

// Creates the HTTP server on a listening socket.
//
// The server accepts `clients` clients at once. `settings` limits the total size of the commands
// that the store keeps with their responses, to detect retries.
fn port_of(
    alloc: Global,
    listener: TcpListener,
    settings: &Settings<'_>,
    clients: usize,
) -> Result<HttpPort, AllocError> {
    let room = KeptRoom::new(settings.most_kept, settings.kept);
    HttpPort::new(alloc, listener, room, clients)
}

impl Running {
    // Opens the HTTP port of a run, and creates its devices, which are not connected until their
    // first polling round is due.
    fn open<R: Net + Files>(
        rt: &R,
        alloc: Global,
        settings: &Settings<'_>,
        sites: &[Site],
        lacks: Vec<DeviceLack>,
        time: u64,
    ) -> Result<Running, RunFault> {
        let Ok(poll) = Poll::new(rt) else {
            return Err(RunFault::Sockets);
        };
        let polling = Polling::new(alloc, sites, settings.every, time)?;
        let mut voice = voice_of(alloc, sites, lacks, settings.verbose)?;
        let (output, errors) = descriptors_of(settings);
        let listener = listen(rt, poll.registry(), settings.listen)?;
        let lines = Outlet::open(rt, alloc, output);
        let sayings = Outlet::open(rt, alloc, errors);
        let (clients, few) = find_clients(rt, alloc, sites.len())?;
        if let Some(few) = few {
            voice.say_few(few);
        }
        Ok(Running {
            poll,
            polling,
            port: port_of(alloc, listener, settings, clients)?,
            voice,
            lines,
            sayings,
            files: FileWatch::open(rt, alloc, settings.files)?,
            lost_at: None,
            time,
            ticks: false,
        })
    }

    // Prints queued lines to standard output and queued messages to standard error, without
    // blocking. Ignores a failure to write to standard error.
    fn print<W: Write, E: Write>(
        &mut self,
        now: Now,
        output: &mut W,
        errors: &mut E,
    ) -> Result<(), RunFault> {
        if self.port.take_full() {
            self.voice.say_full();
        }
        self.sayings.push_lines(now.moment, &self.voice.take_said());
        let _said = self.sayings.write(errors);
        self.lines.push_lines(now.moment, &self.voice.take_lines());
        match self.lines.write(output) {
            Ok(()) => Ok(()),
            Err(_) => Err(RunFault::Output),
        }
    }

    // Checks whether an open file of the store was removed, replaced or cut short, and reports such
    // a loss. After a loss, the run executes no command, because the command's records might be
    // lost.
    fn find_loss<R: Files>(&mut self, rt: &R) {
        if let Some(lost) = self.files.look(rt) {
            self.voice.say_lost(self.files.path(lost.index), lost.loss);
            self.port.lose_files();
        } else if self.port.has_lost() {
            self.voice.say_gone();
        }
        if self.port.has_lost() {
            self.lost_at = Some(self.time);
        }
    }

    // Checks that no open file of the store was removed, replaced or cut short.
    //
    // After a file of the store was removed, replaced or cut short, the run ends a second or two
    // later. So clients that have just connected still get a response.
    fn look_at_files<R: Files>(&mut self, rt: &R) {
        match self.lost_at {
            Some(time) => {
                if time.saturating_add(1) < self.time {
                    self.voice.stopped = true;
                }
            }
            None => self.find_loss(rt),
        }
    }

    // Drops client connections whose response is complete or whose deadline has passed, and begins
    // to connect to devices whose polling round is due.
    fn begin_second<R: Net>(&mut self, rt: &R, now: Now) {
        self.port.sweep(now.time);
        self.polling.begin_all(rt, self.poll.registry(), FIRST_DEVICE, &mut self.voice, now);
    }

    // If this pass of the event loop has a timer event (one in each second), processes the event
    // and drops the cached HTTP response. Then drops client connections that are complete or past
    // their deadline, and begins to connect to devices that are due.
    #[tactic(auto, using(crate::proofs::Going::goes_none, crate::proofs::Going::goes_both))]
    fn tick<R: Net, B: Books>(&mut self, rt: &R, office: &mut Office<B>, now: Now)
        ensures { (names : List (List ℕ))
            → Goes names now.moment B.ledger office.old office.new }
    {
        if self.ticks {
            self.polling
                .feed(DeviceEvent::Tick, office, &mut self.voice, now);
            self.port.forget_replies();
            self.begin_second(rt, now);
        }
    }

    // Accepts new HTTP connections, and serves each connection that is ready.
    fn attend_clients<'x, R: std::rt::Clock + Files, B: Books>(
        &mut self,
        rt: &R,
        names: &'x [&'x str],
        earlier: &'x EarlierFiles<'x>,
        office: &mut Office<B>,
        now: Now,
    )
        ensures { Goes (texts names.now) now.moment B.ledger office.old office.new }
    {
        self.port.accept(self.poll.registry(), now.time);
        let first = self.port.first();
        let system = Watching::new(rt, !self.files.is_lost(rt));
        for step in 0..MOST_CLIENTS {
            let place = place_at(first, step);
            let context = RunContext {
                names: &*names,
                monitor: &self.voice.monitor,
                lacks: &self.voice.lacks,
                earlier: &*earlier,
                at: now,
            };
            self.port.attend(&system, place, office, &context);
        }
    }

    // If a device event was processed, discards the cached HTTP response, because the event may
    // have changed the data in this response.
    fn note_fed(&mut self, has_fed: bool) {
        if has_fed {
            self.port.forget_replies();
        }
    }

    // Processes the next event of the device with the index `place`, if this device has an event.
    //
    // After the device's event, the function also serves the HTTP clients. A client therefore waits
    // for at most one event of a device.
    fn attend_device<R: std::rt::Clock + Files, B: Books>(
        &mut self,
        rt: &R,
        place: usize,
        names: &[&str],
        earlier: &EarlierFiles<'_>,
        events: &mut Events<Global>,
        office: &mut Office<B>,
        now: Now,
    )
        ensures { Goes (texts names.now) now.moment B.ledger office.old office.new }
    {
        let has_fed = self.polling.attend(place, office, &mut self.voice, now);
        self.note_fed(has_fed);
        if has_fed && self.look(events, 0).is_ok() {
            self.attend_clients(rt, names, earlier, office, now);
        }
    }

    // Processes the next event of each device that has an event. Serves the HTTP clients after each
    // event.
    fn attend_devices<R: std::rt::Clock + Files, B: Books>(
        &mut self,
        rt: &R,
        names: &[&str],
        earlier: &EarlierFiles<'_>,
        events: &mut Events<Global>,
        office: &mut Office<B>,
        now: Now,
    )
        ensures { Goes (texts names.now) now.moment B.ledger office.old office.new }
    {
        for place in 0..self.polling.count() {
            self.attend_device(rt, place, names, earlier, events, office, now);
        }
    }

    // Processes the next event of each device, if any, and serves the HTTP clients.
    fn attend_all<R: Net + std::rt::Clock + Files, B: Books>(
        &mut self,
        rt: &R,
        names: &[&str],
        earlier: &EarlierFiles<'_>,
        events: &mut Events<Global>,
        office: &mut Office<B>,
        now: Now,
    )
        ensures { Goes (texts names.now) now.moment B.ledger office.old office.new }
    {
        self.port.begin_turn();
        self.tick(rt, office, now);
        self.attend_devices(rt, names, earlier, events, office, now);
        self.attend_clients(rt, names, earlier, office, now);
    }

    // Ends the polling rounds that are in progress, as if the devices had closed their connections.
    // The program then records an outcome of each poll in progress.
    fn end_rounds<B: Books>(&mut self, office: &mut Office<B>, now: Now)
        ensures { (names : List (List ℕ))
            → Goes names now.moment B.ledger office.old office.new }
    {
        for place in 0..self.polling.count() {
            self.polling.feed(
                DeviceEvent::Closed(place, Closing::Gone),
                office,
                &mut self.voice,
                now,
            );
        }
    }

    // Processes the next event of each device, if any, and serves the HTTP clients. If the run's
    // time is up, also ends the polling rounds. Returns whether the time is up.
    fn act<R: Net + std::rt::Clock + Files, B: Books>(
        &mut self,
        rt: &R,
        names: &[&str],
        earlier: &EarlierFiles<'_>,
        events: &mut Events<Global>,
        office: &mut Office<B>,
        now: Now,
        end: End,
    ) -> bool
        ensures goes { Goes (texts names.now) now.moment B.ledger office.old office.new }
        ensures over { result ≡ has_come end now }
    {
        self.attend_all(rt, names, earlier, events, office, now);
        if !end.has_come(now) {
            return false;
        }
        self.end_rounds(office, now);
        true
    }

    // Returns the maximum number of milliseconds to wait for sockets: until the next second begins.
    // Returns 0 if a device or an HTTP client can be served now, or if a new second has begun.
    fn patience<R: std::rt::Clock>(&self, rt: &R, time: &mut RunTime) -> u64 {
        if self.polling.is_ready() || self.port.is_ready() {
            return 0;
        }
        let second = to_next_second(rt, time);
        if self.time < time.seconds() {
            return 0;
        }
        if self.port.is_waiting() {
            second.min(RETRY)
        } else {
            second
        }
    }

    // Waits at most `milliseconds` until a socket is ready, and marks the devices and clients with
    // ready sockets.
    fn look(&mut self, events: &mut Events<Global>, milliseconds: u64) -> Result<(), RunFault> {
        match self
            .poll
            .poll(events, Some(Duration::from_millis(milliseconds)))
        {
            Ok(()) => {}
            Err(error) if error.kind() == ErrorKind::Interrupted => return Ok(()),
            Err(_) => return Err(RunFault::Sockets),
        }
        for event in &*events {
            let Token(token) = event.token();
            if token < FIRST_DEVICE {
                self.port.mark(token);
            } else {
                self.polling.mark(token - FIRST_DEVICE);
            }
        }
        Ok(())
    }

    // Waits until a socket is ready, but at most until the next second begins.
    fn wait<R: std::rt::Clock>(
        &mut self,
        rt: &R,
        time: &mut RunTime,
        events: &mut Events<Global>,
    ) -> Result<(), RunFault> {
        let milliseconds = self.patience(rt, time);
        self.look(events, milliseconds)
    }

    // Prints the queued output. Then waits for the sockets, unless the run is over or must stop
    // because a file was lost or the store failed.
    fn rest<R: std::rt::Clock + Files, W: Write, E: Write>(
        &mut self,
        rt: &R,
        time: &mut RunTime,
        events: &mut Events<Global>,
        now: Now,
        output: &mut W,
        errors: &mut E,
        is_over: bool,
    ) -> Result<(), RunFault> {
        self.look_at_files(rt);
        self.print(now, output, errors)?;
        if self.voice.stopped || is_over && self.lost_at.is_some() {
            return Err(RunFault::Stopped);
        }
        if is_over {
            return Ok(());
        }
        self.wait(rt, time, events)
    }

    // Processes the bytes that devices have sent. Reads only from devices with unanswered requests.
    fn hear_devices<B: Books>(&mut self, office: &mut Office<B>, now: Now)
        ensures { (names : List (List ℕ))
            → Goes names now.moment B.ledger office.old office.new }
    {
        for place in 0..self.polling.count() {
            self.polling.mark_waiting(place);
            self.polling
                .hear_device(place, office, &mut self.voice, now);
        }
    }

    // Performs one pass of the event loop: processes device events, serves clients, prints, and
    // waits for sockets. Returns whether the run's time is up.
    fn turn<R: Net + std::rt::Clock + Files, B: Books, W: Write, E: Write>(
        &mut self,
        rt: &R,
        names: &[&str],
        earlier: &EarlierFiles<'_>,
        office: &mut Office<B>,
        time: &mut RunTime,
        events: &mut Events<Global>,
        now: Now,
        end: End,
        output: &mut W,
        errors: &mut E,
    ) -> Result<bool, RunFault>
        ensures { Goes (texts names.now) now.moment B.ledger office.old office.new }
    {
        self.look_at_files(rt);
        let is_over = self.act(rt, names, earlier, events, office, now, end);
        self.rest(rt, time, events, now, output, errors, is_over)?;
        Ok(is_over)
    }

    // Ends a pass of the event loop, and returns the timestamp of the next pass.
    //
    // The function first reads the clocks. If the next pass of the event loop has a timer event, it
    // then processes the bytes that devices have sent, with the timestamp of the present pass. A
    // response that arrived before its deadline therefore never counts as a timeout, even if the
    // process was delayed.
    #[tactic(auto, using(crate::proofs::Going::goes_none))]
    fn end_turn<R: std::rt::Clock, B: Books, C: Clock>(
        &mut self,
        rt: &R,
        office: &mut Office<B>,
        clock: &mut C,
        steady: &mut SteadyClock,
        time: &mut RunTime,
        now: Now,
    ) -> u64
        ensures reads { ReadsClock steady.old.latest steady.new.latest
            (C.moments clock.old) (C.moments clock.new) }
        ensures moment { result ≡ steady.new.latest }
        ensures goes { (names : List (List ℕ))
            → Goes names now.moment B.ledger office.old office.new }
    {
        self.time = read_time(rt, time);
        let moment = read_clock(steady, clock, &mut self.voice);
        self.ticks = now.moment < moment || now.time < self.time;
        if self.ticks {
            self.hear_devices(office, now);
        }
        moment
    }

    // Performs passes of the event loop until the end time of `sunreg run`.
    fn turns<R: Net + std::rt::Clock + Files, B: Books, C: Clock, W: Write, E: Write>(
        &mut self,
        rt: &R,
        names: &[&str],
        earlier: &EarlierFiles<'_>,
        office: &mut Office<B>,
        clock: &mut C,
        steady: &mut SteadyClock,
        time: &mut RunTime,
        events: &mut Events<Global>,
        end: End,
        output: &mut W,
        errors: &mut E,
    ) -> Result<(), RunFault>
        ensures { TakesTurns (texts names.now) B.ledger steady.old.latest steady.new.latest
            (C.moments clock.old) (C.moments clock.new) office.old office.new }
    {
        let mut moment = read_clock(steady, clock, &mut self.voice);
        for _turn in 0..u64::MAX {
            let now = Now {
                time: self.time,
                moment,
            };
            let is_over = self.turn(
                rt, names, earlier, office, time, events, now, end, output, errors,
            )?;
            if is_over {
                return Ok(());
            }
            moment = self.end_turn(rt, office, clock, steady, time, now);
        }
        Ok(())
    }
}

// Returns the time at which an execution of `sunreg run` ends, if it begins when its own clock
// shows `now`.
fn end_of(settings: &Settings<'_>, now: u64) -> End
    ensures time { result.time ≡ time_after settings.now.lasts now }
    ensures moment { result.moment ≡ moment_of settings.now.ends }
{
    End {
        time: match settings.lasts {
            Some(seconds) => now.saturating_add(seconds),
            None => u64::MAX,
        },
        moment: settings.ends.unwrap_or(u64::MAX),
    }
}

// Opens the HTTP port of a run. Prints the timestamp of the store's latest record, the number of
// polls of earlier runs without a recorded outcome, and the port's number.
fn open<R: Net + Files, W: Write>(
    rt: &R,
    alloc: Global,
    left: Option<Left>,
    lacks: Vec<DeviceLack>,
    settings: &Settings<'_>,
    sites: &[Site],
    time: u64,
    output: &mut W,
) -> Result<Running, RunFault> {
    match Running::open(rt, alloc, settings, sites, lacks, time) {
        Ok(mut running) => {
            running.voice.report_opened(left, settings.listen.port());
            Ok(running)
        }
        Err(fault) => {
            print_left(left, output)?;
            Err(fault)
        }
    }
}

// Opens the HTTP port, and performs passes of the event loop from timestamp `moment` on, until the
// run's time is up.
fn run_from<R: Net + std::rt::Clock + Files, B: Books, C: Clock, W: Write, E: Write>(
    rt: &R,
    alloc: Global,
    left: Option<Left>,
    lacks: Vec<DeviceLack>,
    settings: &Settings<'_>,
    sites: &[Site],
    zone: Zone,
    office: &mut Office<B>,
    moment: u64,
    clock: &mut C,
    output: &mut W,
    errors: &mut E,
) -> Result<(), RunFault>
    ensures { TurnsFrom (texts settings.now.host_names.now) B.ledger moment
        (C.moments clock.old) (C.moments clock.new) office.old office.new }
{
    let mut steady = SteadyClock::new(moment);
    let mut time = time_from(rt, moment);
    let sockets = FIRST_DEVICE.saturating_add(sites.len());
    let mut events = Events::with_capacity(alloc, sockets)?;
    let begun = time.seconds();
    let mut running = open(rt, alloc, left, lacks, settings, sites, begun, output)?;
    let end = end_of(settings, begun);
    let earlier = EarlierFiles {
        zone,
        registers: settings.earlier,
    };
    running.turns(
        rt,
        settings.host_names,
        &earlier,
        office,
        clock,
        &mut steady,
        &mut time,
        &mut events,
        end,
        output,
        errors,
    )
}

/// Polls the devices and serves HTTP, until the run's time is up. First prints the timestamp of the
/// store's latest record, and the number of polls of earlier runs without a recorded outcome.
///
/// `run_open` makes the first query of the web page once, before it begins to poll. A store that
/// caches results can later answer this query from its cache, so the query does not delay polling.
pub(crate) fn run_open<R: Net + std::rt::Clock + Files, B: Books, C: Clock, W: Write, E: Write>(
    rt: &R,
    alloc: Global,
    left: Option<Left>,
    lacks: Vec<DeviceLack>,
    settings: &Settings<'_>,
    sites: &[Site],
    zone: Zone,
    office: &mut Office<B>,
    clock: &mut C,
    output: &mut W,
    errors: &mut E,
) -> Result<(), RunFault>
    ensures { RunsOn (texts settings.now.host_names.now) B.ledger
        (C.moments clock.old) (C.moments clock.new) office.old office.new }
{
    drop(office.site());
    let moment = clock.now();
    run_from(
        rt, alloc, left, lacks, settings, sites, zone, office, moment, clock, output, errors,
    )
}
