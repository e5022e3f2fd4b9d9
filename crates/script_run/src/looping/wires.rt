//! Connections of a script's devices to the simulator, which answers for all of them.
ghost use Rattle.std.specs.Prelude.{◌<◌, ◌≤◌, IfSome, length};
ghost use Rattle.mb_device.specs.StandIn.Exchanges.{Exchanged};

use mb_device::{Bank, Server, Trick};
use mb_wire::{Link, give_all};
use office_events::Name;
use std::alloc::{AllocError, Global};
use std::io;

/// The maximum number of reads from a device's connection after a script line that starts Modbus
/// reads. It is also the maximum number of reads by the simulator for such a line.
pub(crate) const MOST_TAKES: u32 = 100_000;

/// The two ends of a connection: `near` is the program's end, and `far` the simulator's end. Each
/// end reads the bytes that are written to the other end.
#[derive(Drop)]
pub struct Ends<L: Link + Drop> {
    pub near: L,
    pub far: L,
}

/// A source of connections to the simulator. Each device that a script connects gets one
/// connection.
pub trait Connects {
    type End: Link + Drop;

    /// Opens a connection between the program and the simulator, and returns its two ends.
    fn connect(&mut self) -> io::Result<Ends<Self::End>>;
}

/// The connection of a device to the simulator, with the faults that the simulator injects. `far`
/// is the simulator's end. It is `None` after a failed write, or after the simulator closed the
/// connection.
#[derive(Drop)]
pub(crate) struct Wire<'t, L: Link + Drop> {
    device: Option<Name>,
    near: L,
    far: Option<L>,
    server: Server<'t>,
}

/// The connections of all devices to the simulator.
#[derive(Drop)]
pub(crate) struct Wires<'t, L: Link + Drop> {
    tricks: &'t [(u64, Trick)],
    all: Vec<Wire<'t, L>>,
}

// Lets the simulator read request bytes once, and answer each complete frame. Returns the number of
// answered frames, or `None` if the simulator closes the connection.
fn answer_turn<L: Link>(server: &mut Server<'_>, far: &mut L, bank: &mut Bank) -> Option<u64>
    ensures carried_out { Exchanged bank.old bank.new }
    ensures few { IfSome result (λ answered. answered ≤ 260) }
{
    match server.turn(far, bank) {
        Ok(turned) if !turned.ended => Some(turned.answered),
        _ => None,
    }
}

// Lets the simulator answer request frames. Stops after `count` answered frames, or when a read
// times out. Returns whether the connection stays open.
fn answer<L: Link>(server: &mut Server<'_>, far: &mut L, count: u64, bank: &mut Bank) -> bool
    ensures { Exchanged bank.old bank.new }
{
    let mut left = count;
    for _turn in 0..MOST_TAKES {
        let Some(answered) = answer_turn(server, far, bank) else {
            return false;
        };
        if answered == 0 || answered >= left {
            return true;
        }
        left -= answered;
    }
    true
}

impl<'t, L: Link + Drop> Wire<'t, L> {
    // Sends request frames to the simulator, and lets it answer `count` frames. If sending fails or
    // the simulator closes the connection, drops the simulator's end of the connection.
    fn send(&mut self, frames: &[u8], count: u64, bank: &mut Bank)
        ensures { Exchanged bank.old bank.new }
    {
        let stays = match &mut self.far {
            Some(far) => {
                give_all(&mut self.near, frames).is_ok()
                    && answer(&mut self.server, far, count, bank)
            }
            None => false,
        };
        if !stays {
            self.far = None;
        }
    }
}

impl<'t, L: Link + Drop> Wires<'t, L> {
    /// Creates an empty set of connections to the simulator.
    pub(crate) fn new(alloc: Global, tricks: &'t [(u64, Trick)]) -> Wires<'t, L> {
        Wires {
            tricks,
            all: Vec::new(alloc),
        }
    }

    /// Stores the new connection of a device, and drops the device's earlier connection.
    pub(crate) fn connect(
        &mut self,
        device: &Option<Name>,
        ends: Ends<L>,
    ) -> Result<(), AllocError> {
        self.drop_wire(device);
        let Ends { near, far } = ends;
        self.all.push(Wire {
            device: *device,
            near,
            far: Some(far),
            server: Server::tricked(self.tricks),
        })?;
        Ok(())
    }

    /// Closes and removes the connection of a device, if the device has one.
    pub(crate) fn drop_wire(&mut self, device: &Option<Name>) {
        if let Some(place) = self.place_of(device) {
            let _gone = self.all.swap_remove(place);
        }
    }

    /// Returns the index of a device's connection, or `None` if the device has no connection.
    pub(crate) fn place_of(&self, device: &Option<Name>) -> Option<usize>
        ensures { IfSome result (λ place. place < length self.now.all.items) }
    {
        self.all.iter().position(|wire| wire.device == *device)
    }

    /// Returns the program's end (not the simulator's) of the connection to the simulated device
    /// with the index `place`.
    pub(crate) fn near(&mut self, place: usize) -> &mut L
        requires { place < length self.old.all.items }
    {
        &mut self.all[place].near
    }

    /// Sends the request frames for a device to the simulator, and lets it answer `count` frames.
    pub(crate) fn send(&mut self, device: &Option<Name>, frames: &[u8], count: u64, bank: &mut Bank)
        ensures { Exchanged bank.old bank.new }
    {
        if let Some(place) = self.place_of(device) {
            self.all[place].send(frames, count, bank);
        }
    }
}
