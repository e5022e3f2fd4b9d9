//! Scans the SunSpec models of a live device over a socket.
use command_io::Buffered;
use mb_wire::Link;
use mb_wire::sockets::{Clock, DeadlineLink, SocketLink, SystemClock};
use office_events::Name;
use std::io::{self, IsTerminal, Write};
use std::net::{Net, TcpStream, ToSocketAddrs};
use std::time::Duration;
use stored_files::{Ending, Failure, ending_of};
use sun_chain::Model;
use sun_chain::scans::{ScanFault, ScanObserver};
use sunspec_text::{ScanForm, Site, scan_text};

/// The timeout for connecting to each address of a host, in seconds.
const PATIENCE: u64 = 5;

/// The maximum duration of the scan of a device, in seconds.
const LONGEST: u64 = 600;

/// The maximum length of a device's name for `--setup`, in bytes. The names of the device's
/// accounting registers (energy counters) are formed from it and are longer, but must be valid
/// names too.
const MOST_NAME: usize = 9;

/// The address of a device to scan, and how many seconds to wait for each of its responses.
#[derive(Clone, Copy)]
pub(crate) struct Target<'a> {
    pub(crate) host: &'a str,
    pub(crate) port: u16,
    pub(crate) unit: u8,
    pub(crate) timeout: u32,
}

// A progress display on standard error, if that is a terminal. It shows the SunSpec model that the
// scan is reading.
#[derive(Clone, Copy)]
struct Terminal<'a> {
    rt: &'a HostRuntime,
    is_shown: bool,
}

impl ScanObserver for Terminal<'_> {
    fn reads(&mut self, model: Model) {
        if self.is_shown {
            let Model { address, id, .. } = model;
            let mut errors = self.rt.stderr();
            let _shown = write!(errors, "reading model {id} at {address}\n");
        }
    }
}

/// Connects to a device at the first address of its host that accepts the connection. Reads from
/// the link time out after `seconds`.
pub(crate) fn connect<'a, R: Net>(
    net: &R,
    host: &'a str,
    port: u16,
    seconds: u64,
) -> Result<SocketLink<R::Stream>, Failure<'a>> {
    let Ok(addresses) = (host, port).to_socket_addrs(net) else {
        return Err(Failure::Host { host });
    };
    let wait = Duration::from_secs(seconds);
    for address in addresses {
        if let Ok(stream) = TcpStream::connect_timeout(
            net,
            &address,
            Duration::from_secs(PATIENCE),
        ) {
            return match SocketLink::waiting(stream, wait) {
                Ok(link) => Ok(link),
                Err(_) => Err(Failure::Unconnected { host, port }),
            };
        }
    }
    Err(Failure::Unconnected { host, port })
}

// Returns the output form of a scan that prints the lines to set up a device. Returns `None` if the
// device's name is invalid, or too long for the names of its accounting registers (energy
// counters).
fn setup_form<'d>(device: &'d str, target: Target<'_>) -> Option<ScanForm<'d>> {
    if device.len() > MOST_NAME || Name::new(device.as_bytes()).is_none() {
        return None;
    }
    Some(ScanForm::Setup(Site {
        device,
        unit: target.unit,
        timeout: target.timeout,
    }))
}

/// Scans a device, and prints its SunSpec models, their point list, or the lines that set up the
/// device under a name.
pub(crate) fn scan<'a>(
    rt: &HostRuntime,
    target: Target<'a>,
    list: bool,
    setup: Option<&str>,
) -> Ending<'a> {
    let form = match setup {
        Some(device) => match setup_form(device, target) {
            Some(form) => form,
            None => return wrong_name(rt, device),
        },
        None if list => ScanForm::List,
        None => ScanForm::Chain,
    };
    let Target {
        host,
        port,
        timeout,
        ..
    } = target;
    match connect(rt, host, port, u64::from(timeout)) {
        Ok(mut socket) => scan_within(rt, target, form, &mut socket),
        Err(failure) => Ending::Failed(failure),
    }
}

fn wrong_name<'a>(rt: &HostRuntime, device: &str) -> Ending<'a> {
    match format!(in rt.alloc();
        "error: invalid value '{device}' for '--setup <DEVICE>': not 1 to 9 letters, digits, _ or -, starting with a letter\n\nFor more information, try '--help'.\n"
    ) {
        Ok(text) => Ending::Wrong(text),
        Err(_) => Ending::Failed(Failure::Memory),
    }
}

// Scans a device over a new link (connection), until a deadline.
fn scan_within<'a, L: Link>(
    rt: &HostRuntime,
    target: Target<'a>,
    form: ScanForm<'_>,
    socket: &mut L,
) -> Ending<'a> {
    let mut clock = SystemClock::new(rt);
    let until = clock.now().saturating_add(LONGEST);
    let mut link = DeadlineLink::new(socket, &mut clock, until);
    let mut terminal = Terminal {
        rt,
        is_shown: rt.stderr().is_terminal(),
    };
    let mut output = Buffered::new(io::writer(rt));
    let scanned = scan_text(
        rt.alloc(),
        &mut link,
        target.unit,
        form,
        &mut terminal,
        &mut output,
    );
    let flushed = output.flush();
    let Target { host, port, .. } = target;
    match (scanned, flushed) {
        (Ok(_), Err(_)) => Ending::Failed(Failure::Streams),
        (Ok(status), Ok(())) => ending_of(status),
        (Err(ScanFault::Memory), _) => Ending::Failed(Failure::Memory),
        (Err(fault), _) => Ending::Failed(Failure::Unscanned { host, port, fault }),
    }
}
