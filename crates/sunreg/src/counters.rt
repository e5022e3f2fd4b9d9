//! Reads the current counter values of devices, each over its own connection.
use crate::run_words::bare_host;
use crate::scans::connect;
use command_words::Device;
use mb_wire::Link;
use mb_wire::sockets::{Clock, DeadlineLink, SystemClock};
use office_events::{Name, Register, ScaleSource};
use office_program::Shown;
use std::fmt;
use std::fmt::{Display, Formatter};
use std::str::from_utf8;
use stored_files::Failure;
use sun_chain::scans::{CounterScale, ScanFault, read_counter};

/// A reason why a device's counter could not be read.
#[derive(Clone, Copy, Drop)]
pub(crate) enum Unread<'a> {
    /// The command line arguments have no address for the device.
    Nowhere {
        device: Name,
    },
    /// The program could not connect to the device.
    Unconnected(Failure<'a>),
    /// The read failed: the device closed the connection or sent a frame of an impossible length,
    /// the connection failed, or memory ran out.
    Broken {
        host: &'a str,
        port: u16,
        fault: ScanFault,
    },
    /// The read of a device's counter returned no valid value. For example, the device did not
    /// respond, responded with a Modbus exception, or returned a scale outside -3 to 3.
    Untold {
        host: &'a str,
        port: u16,
    },
}

impl<'a> Display for Unread<'a> {
    fn fmt<W: fmt::Write>(&self, f: &mut Formatter<W>) -> fmt::Result {
        match self {
            Unread::Nowhere { device } => {
                let name = from_utf8(device.as_bytes()).unwrap_or("NAME");
                write!(
                    f,
                    "the address of {name} is not given: add --devices {name}=HOST:PORT"
                )
            }
            Unread::Unconnected(failure) => write!(f, "{failure}"),
            Unread::Broken { host, port, fault } => write!(
                f,
                "can't read port {port} of {host}: {fault}"
            ),
            Unread::Untold { host, port } => write!(
                f,
                "port {port} of {host} didn't return this counter (no response, an exception, or a scale outside -3 to 3): sunreg scan lists what it has"
            ),
        }
    }
}

// Returns the device with the name `name` from the devices in the arguments, or `None` if the
// arguments have no such device.
fn place_of<'a>(places: &[Device<'a>], name: &Name) -> Option<Device<'a>> {
    for place in places {
        if place.name.as_bytes() == name.as_bytes() {
            return Some(*place);
        }
    }
    None
}

fn scale_of(source: ScaleSource) -> CounterScale {
    match source {
        ScaleSource::Fixed(sf) => CounterScale::Fixed(sf),
        ScaleSource::Register(address) => CounterScale::Register(address),
    }
}

// Reads a counter of a device over a new link (connection). The deadline of the link is twice the
// device's timeout, because reading a counter can need two Modbus reads.
fn shown_within<'a, L: Link>(
    rt: &HostRuntime,
    place: Device<'a>,
    device: &office_events::Device,
    register: &Register,
    socket: &mut L,
) -> Result<Shown, Unread<'a>> {
    let mut clock = SystemClock::new(rt);
    let patience = device.timeout.seconds();
    let until = clock
        .now()
        .saturating_add(patience)
        .saturating_add(patience);
    let mut link = DeadlineLink::new(socket, &mut clock, until);
    let shown = read_counter(
        rt.alloc(),
        &mut link,
        device.unit,
        register.function,
        register.address,
        scale_of(register.scale),
    );
    let Device { host, port, .. } = place;
    match shown {
        Ok(Some(shown)) => Ok(Shown {
            raw: shown.raw,
            sf: shown.sf,
        }),
        Ok(None) => Err(Unread::Untold { host, port }),
        Err(fault) => Err(Unread::Broken { host, port, fault }),
    }
}

/// Reads the current value of an accounting register's counter from its device. Connects to the
/// first address of the device's host that accepts the connection.
pub(crate) fn shown_at<'a>(
    rt: &HostRuntime,
    places: &[Device<'a>],
    device: &office_events::Device,
    register: &Register,
) -> Result<Shown, Unread<'a>> {
    let Some(place) = place_of(places, &device.name) else {
        return Err(Unread::Nowhere {
            device: device.name,
        });
    };
    let Device { host, port, .. } = place;
    match connect(rt, bare_host(host), port, device.timeout.seconds()) {
        Ok(mut socket) => shown_within(rt, place, device, register, &mut socket),
        Err(failure) => Err(Unread::Unconnected(failure)),
    }
}
