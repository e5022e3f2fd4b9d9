//! Converts the options of the command `run` to its settings, and looks up the IP addresses of its
//! devices.
use command_words::Device;
use office_events::Name;
use office_running::{Descriptors, Settings, Site};
use std::net::{SocketAddr, ToSocketAddrs};
use stored_files::Failure;

/// The file descriptor of standard output (POSIX, unistd.h).
const STANDARD_OUTPUT: i32 = 1;

pub(crate) const STANDARD_ERROR: i32 = 2;

/// The number of bytes in a megabyte.
const MEGABYTE: u64 = 1_000_000;

/// Returns the settings of the command `run`. The command serves HTTP on the port `listen`, only to
/// clients on this machine.
pub(crate) fn settings_of<'n>(
    listen: u16,
    every: u32,
    lasts: Option<u32>,
    host_names: &'n [&'n str],
    most_kept: Option<u32>,
    verbose: bool,
) -> Settings<'n> {
    Settings {
        listen: SocketAddr::from(([127, 0, 0, 1], listen)),
        every: u64::from(every),
        lasts: match lasts {
            Some(seconds) => Some(u64::from(seconds)),
            None => None,
        },
        ends: None,
        host_names,
        kept: 0,
        most_kept: match most_kept {
            Some(megabytes) => Some(u64::from(megabytes).saturating_mul(MEGABYTE)),
            None => None,
        },
        earlier: &[],
        files: &[],
        verbose,
        descriptors: Some(Descriptors {
            output: STANDARD_OUTPUT,
            errors: STANDARD_ERROR,
        }),
    }
}

/// Returns a host without the brackets around an IPv6 address (RFC 3986, section 3.2.2).
pub(crate) fn bare_host(host: &str) -> &str {
    match host.strip_prefix('[') {
        Some(rest) => rest.strip_suffix(']').unwrap_or(host),
        None => host,
    }
}

// Looks up the host of a device in the arguments, and returns the device with the host's first IP
// address.
fn site_of<'a>(rt: &HostRuntime, device: Device<'a>) -> Result<Site, Failure<'a>> {
    let Device { name, host, port } = device;
    let Ok(mut addresses) = (bare_host(host), port).to_socket_addrs(rt) else {
        return Err(Failure::Host { host });
    };
    match addresses.next() {
        Some(addr) => Ok(Site {
            name: Name::new(name.as_bytes()),
            addr,
        }),
        None => Err(Failure::Host { host }),
    }
}

/// Returns the devices of the arguments with the IP addresses of their hosts. Host names are looked
/// up once, when the command begins.
pub(crate) fn sites_of<'a>(
    rt: &HostRuntime,
    devices: &[Device<'a>],
) -> Result<Vec<Site>, Failure<'a>> {
    let mut sites = Vec::new(rt.alloc());
    for device in devices {
        let site = site_of(rt, *device)?;
        if sites.push(site).is_err() {
            return Err(Failure::Memory);
        }
    }
    Ok(sites)
}
