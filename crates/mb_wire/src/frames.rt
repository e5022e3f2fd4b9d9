//! Reads and writes frames of Modbus TCP. A frame is an MBAP header and a PDU.
ghost use Rattle.std.specs.Prelude.{◌≡◌, ℕ, ◌+◌, ◌≤◌, ◌<◌, List, [], ◌∷◌, ◌++◌, length};
ghost use Rattle.std.specs.Prelude.{take, ◌⊎◌};
ghost use Rattle.std.specs.Option.{option_map};
ghost use Rattle.mb_wire.specs.Frames.{IsOpen, IsBad, IsGoodSpan, span_of, tid_of, unit_of, pdu_of};
ghost use Rattle.mb_wire.specs.Frames.{Reads, frames, rest};
ghost use Rattle.mb_wire.specs.Reader.{Buffered, IsEnd, IsOwnFrame, ReadsOn, SpellsFrame, ReportsFraming};
ghost use Rattle.mb_wire.specs.Reader.{buffered_after, fields_of, spelled, spelling};
ghost use Rattle.mb_wire.specs.Bytes.{word};

use crate::limits::{MAX_ADU, MAX_LENGTH, MAX_PDU, MBAP_HEADER, MIN_LENGTH};
use byteorder::{BigEndian, ByteOrder};
use std::marker::Model;

/// The result of a call of `FrameReader::feed`, which splits a byte stream into Modbus TCP frames.
#[derive(Clone, Copy, PartialEq, Eq)]
pub enum Framing {
    /// The frame reader consumed all bytes of its input, and no frame ended.
    Need,
    /// The last byte that the reader consumed ended a frame with protocol identifier 0 (Modbus).
    Whole,
    /// The last byte that the reader consumed ended a frame with another protocol identifier than
    /// 0.
    Foreign,
    /// The last byte that the frame reader consumed is the low byte of an invalid length field. The
    /// reader consumes no further bytes.
    Garbled,
}

/// The result of a call of `FrameReader::feed`: the number of input bytes consumed, and whether a
/// frame ended.
#[derive(Clone, Copy, PartialEq, Eq)]
pub struct Fed {
    pub taken: usize,
    pub what: Framing,
}

/// A Modbus frame in the reader's buffer: its transaction identifier, unit identifier and PDU.
#[derive(Clone, Copy)]
pub struct Frame<'a> {
    pub tid: u16,
    pub unit: u8,
    pub pdu: &'a [u8],
}

#[derive(Clone, Copy, PartialEq, Eq)]
enum State {
    Reading,
    Ended,
    Stuck,
}

/// Splits a stream of bytes into Modbus TCP frames. The stream may arrive in chunks of any size.
#[derive(Drop)]
pub struct FrameReader {
    buf: [u8; MAX_ADU],
    len: usize,
    state: State,
}

impl Model for FrameReader {
    ghost use Rattle.std.specs.Prelude.{take, ◌≤◌};
    ghost use Rattle.mb_wire.specs.Reader.{Buffered, buffered_in, FitsState};
    ghost use Rattle.mb_wire.specs.declared.limits.TheConstants.{MAX_ADU};

    ghost Value = { Buffered };

    ghost view = { λ r. buffered_in r.state (take r.len r.buf) };

    ghost invariant = { λ r. (r.len ≤ MAX_ADU) × FitsState r.state (take r.len r.buf) };
}

// The result of one step of `FrameReader::feed`, which splits a byte stream into frames: the number
// of bytes consumed, and the number of bytes now in the buffer.
#[derive(Drop)]
struct Step {
    len: usize,
    fed: Fed,
}

// Appends bytes of `piece` to the first `len` bytes of `buf`, until `buf` has `limit` bytes or
// `piece` ends. Returns the number of bytes copied.
fn top_up(buf: &mut [u8; MAX_ADU], len: usize, piece: &[u8], limit: usize) -> usize
    requires within { len ≤ limit }
    requires fits { limit ≤ MAX_ADU }
    ensures count { result ≤ length piece.now }
    ensures limited { len + result ≤ limit }
    ensures stops { (len + result ≡ limit) ⊎ (result ≡ length piece.now) }
    ensures buffered { take (len + result) buf.new ≡ take len buf.old ++ take result piece.now }
    ensures kept { take len buf.new ≡ take len buf.old }
{
    let count = (limit - len).min(piece.len());
    buf[len..len + count].copy_from_slice(&piece[..count]);
    count
}

// Returns the length field of the MBAP header in `buf`: the number of bytes after the sixth.
fn span_in(buf: &[u8; MAX_ADU]) -> usize
    ensures span { result ≡ span_of buf.now }
    ensures fits { result < 65536 }
{
    usize::from(BigEndian::read_u16(&buf[4..6]))
}

// Appends bytes of `piece` to the first `len` bytes of `buf`, until `buf` has 6 bytes. Returns the
// number of bytes copied.
fn top_up_header(buf: &mut [u8; MAX_ADU], len: usize, piece: &[u8]) -> usize
    requires fits { len ≤ MAX_ADU }
    ensures count { result ≤ length piece.now }
    ensures limited { len + result ≤ MAX_ADU }
    ensures stops { (6 ≤ len + result) ⊎ (result ≡ length piece.now) }
    ensures header { 6 < len + result → result ≡ 0 }
    ensures buffered { take (len + result) buf.new ≡ take len buf.old ++ take result piece.now }
    ensures kept { take len buf.new ≡ take len buf.old }
{
    if len < 6 {
        top_up(buf, len, piece, 6)
    } else {
        0
    }
}

// Classifies the first `len` bytes of `buf`: an incomplete frame, a Modbus frame, or a frame of
// another protocol.
fn what_is(buf: &[u8; MAX_ADU], len: usize, span: usize) -> Framing
    requires span { span ≡ span_of buf.now }
    requires good { IsGoodSpan span }
    requires header { 6 ≤ len }
    requires within { len ≤ 6 + span }
    ensures reports { ReportsFraming result (take len buf.now) }
    ensures need { result ≡ Framing.Need → len < 6 + span }
    ensures full { IsEnd result → len ≡ 6 + span }
{
    if len < 6 + span {
        Framing::Need
    } else if buf[2] == 0 && buf[3] == 0 {
        Framing::Whole
    } else {
        Framing::Foreign
    }
}

// Copies bytes of `piece` after the incomplete frame in the first `len` bytes of `buf`, up to the
// end of the frame.
fn take_in(buf: &mut [u8; MAX_ADU], len: usize, piece: &[u8]) -> Step
    requires fits { len ≤ MAX_ADU }
    requires before { IsOpen (take len buf.old) }
    ensures len { result.len ≤ MAX_ADU }
    ensures taken { result.fed.taken ≤ length piece.now }
    ensures need { result.fed.what ≡ Framing.Need → result.fed.taken ≡ length piece.now }
    ensures buffered { take result.len buf.new ≡
        take len buf.old ++ take result.fed.taken piece.now }
    ensures reports { ReportsFraming result.fed.what (take result.len buf.new) }
    ensures moves { IsEnd result.fed.what → 0 < result.fed.taken }
{
    let head = top_up_header(buf, len, piece);
    let reached = len + head;
    if reached < 6 {
        return Step {
            len: reached,
            fed: Fed {
                taken: head,
                what: Framing::Need,
            },
        };
    }
    let span = span_in(buf);
    if span < MIN_LENGTH || span > MAX_LENGTH {
        return Step {
            len: reached,
            fed: Fed {
                taken: head,
                what: Framing::Garbled,
            },
        };
    }
    let body = top_up(buf, reached, &piece[head..], 6 + span);
    let len = reached + body;
    Step {
        len,
        fed: Fed {
            taken: head + body,
            what: what_is(buf, len, span),
        },
    }
}

impl FrameReader {
    pub fn new() -> Self
        ensures nothing { result ≡ record { rest = []; frame = None } }
        ensures reads { Reads [] [] result.rest }
    {
        FrameReader {
            buf: [0; MAX_ADU],
            len: 0,
            state: State::Reading,
        }
    }

    /// Consumes bytes of `piece` (a chunk of the byte stream), up to the end of the next frame. The
    /// caller calls `feed` again with the remaining bytes of `piece`.
    pub fn feed(&mut self, piece: &[u8]) -> Fed
        ensures taken { result.taken ≤ length piece.now }
        ensures need { result.what ≡ Framing.Need → result.taken ≡ length piece.now }
        ensures moves { IsEnd result.what → 0 < result.taken }
        ensures reports { ReportsFraming result.what (self.old.rest ++ take result.taken piece.now) }
        ensures after { self.new ≡
            buffered_after result.what (self.old.rest ++ take result.taken piece.now) }
        ensures reads { ReadsOn self.old self.new (take result.taken piece.now) result.what }
        ensures stuck { IsBad self.old.rest → (result.what ≡ Framing.Garbled) × (result.taken ≡ 0) }
    {
        self.advance(piece)
    }

    fn advance(&mut self, piece: &[u8]) -> Fed
        ensures taken { result.taken ≤ length piece.now }
        ensures need { result.what ≡ Framing.Need → result.taken ≡ length piece.now }
        ensures moves { IsEnd result.what → 0 < result.taken }
        ensures reports { ReportsFraming result.what (self.old.rest ++ take result.taken piece.now) }
        ensures after { self.new ≡
            buffered_after result.what (self.old.rest ++ take result.taken piece.now) }
        ensures stuck { IsBad self.old.rest → (result.what ≡ Framing.Garbled) × (result.taken ≡ 0) }
    {
        match self.state {
            State::Stuck => {
                return Fed {
                    taken: 0,
                    what: Framing::Garbled,
                };
            }
            State::Ended => {
                self.len = 0;
            }
            State::Reading => {}
        }
        let step = take_in(&mut self.buf, self.len, piece);
        self.len = step.len;
        match step.fed.what {
            Framing::Need => {
                self.state = State::Reading;
            }
            Framing::Whole => {
                self.state = State::Ended;
            }
            Framing::Foreign => {
                self.len = 0;
                self.state = State::Reading;
            }
            Framing::Garbled => {
                self.state = State::Stuck;
            }
        }
        step.fed
    }

    /// Returns the Modbus frame that the last call of `feed` ended, or `None` if no frame ended.
    pub fn frame(&self) -> Option<Frame<'_>>
        ensures { option_map spelled result ≡ option_map fields_of self.now.frame }
    {
        match self.state {
            State::Ended => {
                let buf = &self.buf;
                Some(Frame {
                    tid: BigEndian::read_u16(&buf[0..2]),
                    unit: buf[6],
                    pdu: &buf[MBAP_HEADER..self.len],
                })
            }
            _ => None,
        }
    }
}

/// Writes a Modbus TCP frame to the front of `out`, and returns its length in bytes.
pub fn write_frame(tid: u16, unit: u8, pdu: &[u8], out: &mut [u8; MAX_ADU]) -> usize
    requires low { 1 ≤ length pdu.now }
    requires high { length pdu.now ≤ MAX_PDU }
    ensures count { result ≡ MBAP_HEADER + length pdu.now }
    ensures written { take result out.new ≡ spelling tid unit pdu.now }
{
    let end = MBAP_HEADER + pdu.len();
    let head = header(tid, unit, pdu.len() as u16 + 1);
    out[..MBAP_HEADER].copy_from_slice(&head);
    out[MBAP_HEADER..end].copy_from_slice(pdu);
    end
}

fn header(tid: u16, unit: u8, span: u16) -> [u8; MBAP_HEADER]
    ensures { result ≡ word tid ++ word 0 ++ word span ++ unit ∷ [] }
{
    let [tid_high, tid_low] = tid.to_be_bytes();
    let [span_high, span_low] = span.to_be_bytes();
    [tid_high, tid_low, 0, 0, span_high, span_low, unit]
}

/// Theorem: each byte list splits in exactly one way into complete frames and remaining bytes that
/// do not begin with a complete frame.
pub fn one_reading()
    ensures exists { (bytes : List ℕ) → Reads bytes (frames bytes) (rest bytes) }
    ensures only { (bytes : List ℕ) (others : List (List ℕ)) (left : List ℕ) →
        Reads bytes others left → (frames bytes ≡ others) × (rest bytes ≡ left) }
{}

/// Theorem: the bytes that `write_frame` writes decode to the given transaction identifier, unit
/// and PDU. No other bytes decode to these fields.
pub fn one_spelling()
    ensures frame { (tid unit : ℕ) (pdu : List ℕ) → tid < 65536 →
        1 ≤ length pdu → length pdu ≤ MAX_PDU → SpellsFrame tid unit pdu }
    ensures spelled { (bytes : List ℕ) → IsOwnFrame bytes →
        bytes ≡ spelling (tid_of bytes) (unit_of bytes) (pdu_of bytes) }
    ensures same { (one other : List ℕ) → IsOwnFrame one → IsOwnFrame other →
        fields_of one ≡ fields_of other → one ≡ other }
{}
