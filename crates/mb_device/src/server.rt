//! The server of a simulated device: it reads frames from a connection and writes responses.
ghost use Rattle.std.specs.Prelude.{◌≡◌, ◌≤◌, ◌<◌, ◌+◌, ◌^◌, ◌++◌, ℕ, List, [], length, not, true};
ghost use Rattle.std.specs.Prelude.{false, is_err, IfOk, Ok, Err};
ghost use Rattle.std.specs.Io.KnownBytes.{Keeps};
ghost use Rattle.mb_wire.specs.Frames.{IsOpen};
ghost use Rattle.mb_wire.specs.Links.{Gives, risen};
ghost use Rattle.mb_device.specs.Device.{answer_to, maps_after};
ghost use Rattle.mb_device.specs.Tricks.{Course, answer_of, begun, course_next, is_cut, sent_next};
ghost use Rattle.mb_device.specs.Server.{Answered, Faulted, BufferedReports, Holds, HoldsFrame};
ghost use Rattle.mb_device.specs.Server.{Over, PieceReports, ServesFrom, TakesTurn, ReportsTake, Turns};
ghost use Rattle.mb_device.specs.Server.{around, came_to_end, course_after_all, has_faulted};
ghost use Rattle.mb_device.specs.Server.{buffered_frames, is_link_fault, is_over, is_read_fault};
ghost use Rattle.mb_device.specs.Server.{is_serving, own_frames, scene, serve_fault_number};
ghost use Rattle.mb_device.specs.Server.{served_to_end, standing_in, stretch};

use crate::bank::Bank;
use crate::sender::Sender;
use crate::trick::Trick;
use mb_wire::{Frame, FrameReader, Framing, Link, LinkFailed, MAX_ADU, MAX_PDU, Took};
use std::marker::Model;

/// The reason why the server of a simulated device stopped.
#[derive(Clone, Copy, Debug, PartialEq, Eq)]
pub enum ServeFault {
    /// A read from the connection failed.
    Read,
    /// A write to the connection failed, or accepted no bytes.
    Write,
    /// The stream has an invalid length field, or an earlier call returned a fault.
    Garbled,
    /// The input of the connection did not end within the allowed number of reads.
    TurnsUsed,
}

impl ServeFault {
    /// Returns the numeric code of the fault that stopped a simulated device's server. The codes
    /// begin at 1. The program does not print or store them.
    pub fn number(self) -> u8
        ensures { result ≡ serve_fault_number self }
    {
        match self {
            ServeFault::Read => 1,
            ServeFault::Write => 2,
            ServeFault::Garbled => 3,
            ServeFault::TurnsUsed => 4,
        }
    }
}

/// The result of a successful turn: one read, and the responses to the frames that the read
/// completed.
#[derive(Clone, Copy, PartialEq, Eq)]
pub struct Turned {
    /// The number of frames executed, including frames whose response an injected fault dropped,
    /// delayed or cut off.
    pub answered: u64,
    /// True if the input of the simulated device's connection ended, or an injected fault closed
    /// the connection.
    pub ended: bool,
}

// The result of each step (`turn`) of a server after an injected fault closed the connection: no
// answered frames, and the end of the input.
const OVER: Turned = Turned {
    answered: 0,
    ended: true,
};

/// A server that responds to the frames of one connection, with optional injected faults.
#[derive(Drop)]
pub struct Server<'t> {
    reader: FrameReader,
    sender: Sender<'t>,
    failed: bool,
}

impl<'t> Model for Server<'t> {
    ghost use Rattle.std.specs.Prelude.{◌≡◌, false, if◌then◌else◌};
    ghost use Rattle.mb_wire.specs.Frames.{IsOpen};
    ghost use Rattle.mb_device.specs.Server.{Standing, Faulted, standing_on};
    ghost use Rattle.mb_device.specs.Tricks.{is_cut};

    ghost Value = { Standing };

    ghost view = { λ server.
        if server.failed then Faulted else standing_on server.reader.rest server.sender };

    ghost invariant = { λ server. server.failed ≡ false → is_cut server.sender ≡ false →
        IsOpen server.reader.rest };
}

// Executes the request in a frame, and sends the response.
fn answer_frame<L: Link>(
    frame: &Frame<'_>,
    sender: &mut Sender<'_>,
    link: &mut L,
    bank: &mut Bank,
) -> Result<(), LinkFailed>
    requires some { 1 ≤ length frame.now.pdu.now }
    requires few { length frame.now.pdu.now ≤ MAX_PDU }
    requires going { is_cut sender.old ≡ false }
    ensures given { Gives result (L.given link.old) (L.given link.new) (sent_next sender.old
        (answer_of frame.now.tid frame.now.unit (answer_to bank.old frame.now.pdu.now))) }
    ensures after { sender.new ≡ course_next sender.old
        (answer_of frame.now.tid frame.now.unit (answer_to bank.old frame.now.pdu.now)) }
    ensures maps { bank.new ≡ maps_after bank.old frame.now.pdu.now }
    ensures remaining { Keeps (L.remaining link.old) (L.remaining link.new) }
    ensures failures { L.failed link.new ≡ risen (is_err result) (L.failed link.old) }
    ensures takes { L.taken link.new ≡ L.taken link.old }
    ensures last { L.last link.new ≡ L.last link.old }
    ensures ends { L.ended link.new ≡ L.ended link.old }
{
    let mut pdu = [0; MAX_PDU];
    let length = bank.answer(frame.pdu, &mut pdu);
    sender.send(link, frame.tid, frame.unit, &pdu[..length])
}

// Responds to the complete frame in the reader of frames, if there is one. Returns the number of
// frames executed: 0 or 1.
fn answer_buffered<L: Link>(
    reader: &FrameReader,
    sender: &mut Sender<'_>,
    link: &mut L,
    bank: &mut Bank,
) -> Result<u64, ServeFault>
    requires buffered { HoldsFrame reader.now.frame }
    requires going { is_cut sender.old ≡ false }
    ensures answered { Answered result sender.old (buffered_frames reader.now.frame)
        (around (L.remaining link.old) (L.given link.old) bank.old)
        (around (L.remaining link.new) (L.given link.new) bank.new) }
    ensures reports { BufferedReports result reader.now.frame }
    ensures after { sender.new ≡
        course_after_all sender.old bank.old (buffered_frames reader.now.frame) }
    ensures remaining { Keeps (L.remaining link.old) (L.remaining link.new) }
    ensures failures { L.failed link.new ≡ risen (is_link_fault result) (L.failed link.old) }
    ensures takes { L.taken link.new ≡ L.taken link.old }
    ensures last { L.last link.new ≡ L.last link.old }
    ensures ends { L.ended link.new ≡ L.ended link.old }
{
    match reader.frame() {
        Some(frame) => match answer_frame(&frame, sender, link, bank) {
            Ok(()) => Ok(1),
            Err(_) => Err(ServeFault::Write),
        },
        None => Ok(0),
    }
}

// Responds to the Modbus frames that `piece` completes, until an injected fault closes the
// connection. Returns the number of frames executed.
fn answer_piece<L: Link>(
    reader: &mut FrameReader,
    sender: &mut Sender<'_>,
    link: &mut L,
    bank: &mut Bank,
    piece: &[u8],
) -> Result<u64, ServeFault>
    requires { is_cut sender.old ≡ false }
    ensures answered { Answered result sender.old (own_frames (reader.old.rest ++ piece.now))
        (around (L.remaining link.old) (L.given link.old) bank.old)
        (around (L.remaining link.new) (L.given link.new) bank.new) }
    ensures reports { PieceReports result
        (stretch sender.old bank.old (reader.old.rest ++ piece.now)) reader.new.rest }
    ensures after { let frames = own_frames (reader.old.rest ++ piece.now) in
        IfOk result (λ count. sender.new ≡ course_after_all sender.old bank.old frames) }
    ensures few { IfOk result (λ count. count ≤ length piece.now) }
    ensures remaining { Keeps (L.remaining link.old) (L.remaining link.new) }
    ensures failures { L.failed link.new ≡ risen (is_link_fault result) (L.failed link.old) }
    ensures takes { L.taken link.new ≡ L.taken link.old }
    ensures last { L.last link.new ≡ L.last link.old }
    ensures ends { L.ended link.new ≡ L.ended link.old }
{
    let fed = reader.feed(piece);
    let answered = answer_buffered(reader, sender, link, bank)?;
    if sender.is_cut() {
        return Ok(answered);
    }
    match fed.what {
        Framing::Need => Ok(answered),
        Framing::Garbled => Err(ServeFault::Garbled),
        Framing::Whole | Framing::Foreign => {
            let more = answer_piece(reader, sender, link, bank, &piece[fed.taken..])?;
            Ok(answered + more)
        }
    }
}

// Reads from the connection once, and responds to the frames that the read completed.
fn take_turn<L: Link>(
    reader: &mut FrameReader,
    sender: &mut Sender<'_>,
    link: &mut L,
    bank: &mut Bank,
) -> Result<Turned, ServeFault>
    requires buffered { IsOpen reader.old.rest }
    requires going { is_cut sender.old ≡ false }
    ensures turns { TakesTurn result
        (scene reader.old sender.old (L.remaining link.old) (L.given link.old) bank.old)
        (scene reader.new sender.new (L.remaining link.new) (L.given link.new) bank.new) }
    ensures buffered { IfOk result (λ turned. is_cut sender.new ≡ false → IsOpen reader.new.rest) }
    ensures few { IfOk result (λ turned. turned.answered ≤ MAX_ADU) }
    ensures failures { L.failed link.new ≡ risen (is_link_fault result) (L.failed link.old) }
    ensures takes { L.taken link.new ≡ risen true (L.taken link.old) }
    ensures take { ReportsTake (came_to_end result (standing_in result reader.new sender.new))
        (is_read_fault result) (L.last link.new) }
    ensures ends { L.ended link.new ≡
        risen (came_to_end result (standing_in result reader.new sender.new)) (L.ended link.old) }
{
    let mut piece = [0; MAX_ADU];
    match link.take(&mut piece) {
        Ok(Took::Bytes(count)) => {
            let answered = answer_piece(reader, sender, link, bank, &piece[..count])?;
            Ok(Turned {
                answered,
                ended: sender.is_cut(),
            })
        }
        Ok(Took::End) => Ok(Turned {
            answered: 0,
            ended: true,
        }),
        Ok(Took::Idle) => Ok(Turned {
            answered: 0,
            ended: false,
        }),
        Err(LinkFailed) => Err(ServeFault::Read),
    }
}

impl<'t> Server<'t> {
    /// Creates a server for one connection to a simulated device, without injected faults.
    pub fn new() -> Self
        ensures { result ≡ Holds [] (begun []) }
    {
        Server::tricked(&[])
    }

    /// Creates a server with injected faults. The Modbus frames of its connection are numbered from
    /// 1, without the frames of other protocols.
    ///
    /// The first fault in the list with a frame's number changes the response to that frame. The
    /// responses to all other frames, and to the frames from number 2^64 - 1 on, are unchanged.
    pub fn tricked(tricks: &'t [(u64, Trick)]) -> Self
        ensures { result ≡ Holds [] (begun tricks.now) }
    {
        Server {
            reader: FrameReader::new(),
            sender: Sender::new(tricks),
            failed: false,
        }
    }

    // Returns whether an earlier call of this simulated device's server returned a fault.
    fn has_failed(&self) -> bool
        ensures failed { result ≡ has_faulted self.now }
        ensures buffered { (buffered : List ℕ) (course : Course) → self.now ≡ Holds buffered course
            → IsOpen buffered × (is_cut course ≡ false) }
    {
        self.failed
    }

    // Returns whether an injected fault closed the connection.
    fn is_over(&self) -> bool
        ensures { result ≡ is_over self.now }
    {
        !self.failed && self.sender.is_cut()
    }

    fn fail(&mut self)
        ensures { self.new ≡ Faulted }
    {
        self.failed = true;
    }

    /// Reads at most 260 bytes, and responds to each frame that these bytes complete. A response
    /// repeats the frame's transaction and unit identifiers, unless an injected fault changes them.
    ///
    /// Requests executed before a fault keep their effect. After a fault, each call returns
    /// `Garbled` without a read or a write. If an injected fault closes the connection, this call
    /// and all later calls report the end of the input, and later calls do nothing.
    pub fn turn<L: Link>(&mut self, link: &mut L, bank: &mut Bank) -> Result<Turned, ServeFault>
        ensures serving { (buffered : List ℕ) (course : Course) → self.old ≡ Holds buffered course →
            Turns buffered course result (around (L.remaining link.old) (L.given link.old) bank.old)
            (around (L.remaining link.new) (L.given link.new) bank.new) self.new }
        ensures over { self.old ≡ Over →
            (result ≡ Ok (record { answered = 0; ended = true })) × (self.new ≡ Over)
            × (link.new ≡ link.old) × (bank.new ≡ bank.old) }
        ensures faulted { self.old ≡ Faulted →
            (result ≡ Err ServeFault.Garbled) × (self.new ≡ Faulted)
            × (link.new ≡ link.old) × (bank.new ≡ bank.old) }
        ensures few { IfOk result (λ turned. turned.answered ≤ MAX_ADU) }
        ensures failures { L.failed link.new ≡ risen (is_link_fault result) (L.failed link.old) }
        ensures takes { L.taken link.new ≡ risen (is_serving self.old) (L.taken link.old) }
        ensures take { is_serving self.old ≡ true →
            ReportsTake (came_to_end result self.new) (is_read_fault result) (L.last link.new) }
        ensures ends { L.ended link.new ≡ risen (came_to_end result self.new) (L.ended link.old) }
    {
        if self.failed {
            return Err(ServeFault::Garbled);
        }
        if self.sender.is_cut() {
            return Ok(OVER);
        }
        let turned = take_turn(&mut self.reader, &mut self.sender, link, bank);
        self.failed = turned.is_err();
        turned
    }

    /// Reads and responds until the input ends, with at most `max_turns` reads. Returns the number
    /// of frames executed, including frames whose response an injected fault dropped, delayed or
    /// cut off.
    ///
    /// Requests executed before a fault keep their effect. After a fault, each later call of
    /// `serve` returns `Garbled` without a read or a write. After an injected fault closed the
    /// connection, each later call returns 0 without a read or a write.
    pub fn serve<L: Link>(
        &mut self,
        link: &mut L,
        bank: &mut Bank,
        max_turns: u32,
    ) -> Result<u64, ServeFault>
        ensures serving { ServesFrom self.old result
            (around (L.remaining link.old) (L.given link.old) bank.old)
            (around (L.remaining link.new) (L.given link.new) bank.new) self.new }
        ensures over { self.old ≡ Over → (result ≡ Ok 0) × (self.new ≡ Over)
            × (link.new ≡ link.old) × (bank.new ≡ bank.old) }
        ensures faulted { self.old ≡ Faulted →
            (result ≡ Err ServeFault.Garbled) × (self.new ≡ Faulted)
            × (link.new ≡ link.old) × (bank.new ≡ bank.old) }
        ensures failures { L.failed link.new ≡ risen (is_link_fault result) (L.failed link.old) }
        ensures turns { L.taken link.new ≤ L.taken link.old + max_turns }
        ensures last_turn { is_serving self.old ≡ true → 1 ≤ max_turns →
            ReportsTake (served_to_end result self.new) (is_read_fault result) (L.last link.new) }
        ensures ends { L.ended link.new ≡ risen (served_to_end result self.new) (L.ended link.old) }
        ensures turns_used { result ≡ Err ServeFault.TurnsUsed →
            L.taken link.old + max_turns < 2 ^ 64 →
            L.taken link.new ≡ L.taken link.old + max_turns }
    {
        if self.has_failed() {
            return Err(ServeFault::Garbled);
        }
        if self.is_over() {
            return Ok(0);
        }
        let mut answered = 0;
        for _turn in 0..max_turns {
            let turned = self.turn(link, bank)?;
            answered += turned.answered;
            if turned.ended {
                return Ok(answered);
            }
        }
        self.fail();
        Err(ServeFault::TurnsUsed)
    }
}
