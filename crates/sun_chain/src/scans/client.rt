//! A Modbus client that reads a device's registers, with at most two requests for each read.
ghost use Rattle.std.specs.Prelude.{◌≡◌, ◌≤◌, ◌+◌, ◌*◌, [], Err, IfOk};
ghost use Rattle.mb_wire.specs.Frames.{IsOpen};
ghost use Rattle.mb_wire.specs.Links.{risen};
ghost use Rattle.mb_wire.specs.Spans.{span_view};
ghost use Rattle.sun_points.specs.Writing.{GotText};
ghost use Rattle.sun_chain.specs.declared.scans.hearing.TheConstants.{MOST_TAKES};

use crate::scans::asking::give_request;
use crate::scans::fault::ScanFault;
use crate::scans::hearing::{Answer, hear};
use crate::scans::tries::Try;
use mb_wire::{FrameReader, Link, LinkFailed, ReadSpan};
use std::alloc::Global;

/// A Modbus client on one link to a device: the bytes of an incomplete frame, the unit identifier,
/// and the next transaction identifier.
#[derive(Drop)]
pub(crate) struct Client {
    reader: FrameReader,
    unit: u8,
    next: u16,
}

impl Client {
    ghost use Rattle.sun_chain.specs.Scanning.Lines.{AnswersRead, AnswersTry, Garbles, OnlyRequests};
    ghost use Rattle.sun_chain.specs.Scanning.Lines.{has_failed, is_gone, line, request_under};

    pub(crate) fn new(unit: u8) -> Self
        ensures open { IsOpen result.reader.rest }
        ensures nothing { result.reader.rest ≡ [] }
        ensures unit { result.unit ≡ unit }
        ensures first { result.next ≡ 1 }
    {
        Client {
            reader: FrameReader::new(),
            unit,
            next: 1,
        }
    }

    // Sends one request and waits for the response. The transaction identifier wraps from 65535 to
    // 0.
    fn try_once<L: Link>(
        &mut self,
        alloc: Global,
        link: &mut L,
        span: ReadSpan,
    ) -> Result<Answer, ScanFault>
        requires open { IsOpen self.old.reader.rest }
        ensures tried { AnswersTry self.old.unit result
            (line (L.remaining link.old) (L.given link.old) self.old)
            (line (L.remaining link.new) (L.given link.new) self.new) (span_view span) }
        ensures garbled { result ≡ Err ScanFault.Garbled
            → Garbles (L.remaining link.old) (L.remaining link.new) self.old.reader.rest }
        ensures asks { GotText result (request_under self.old.unit (span_view span) self.old.next)
            (L.given link.old) (L.given link.new) }
        ensures failures { L.failed link.new ≡ risen (has_failed result) (L.failed link.old) }
        ensures ends { L.ended link.new ≡ risen (is_gone result) (L.ended link.old) }
        ensures takes { L.taken link.new ≤ L.taken link.old + MOST_TAKES }
        ensures unit { self.new.unit ≡ self.old.unit }
    {
        let attempt = Try {
            id: self.next,
            unit: self.unit,
            span,
        };
        self.next = self.next.wrapping_add(1);
        match give_request(link, attempt) {
            Ok(()) => hear(alloc, link, &mut self.reader, &attempt),
            Err(LinkFailed) => Err(ScanFault::Failed),
        }
    }

    /// Reads registers of the device. If the first request returns no words, the client sends a
    /// second request.
    pub(crate) fn read<L: Link>(
        &mut self,
        alloc: Global,
        link: &mut L,
        span: ReadSpan,
    ) -> Result<Answer, ScanFault>
        requires open { IsOpen self.old.reader.rest }
        ensures read { AnswersRead self.old.unit result
            (line (L.remaining link.old) (L.given link.old) self.old)
            (line (L.remaining link.new) (L.given link.new) self.new) (span_view span) }
        ensures open { IfOk result (λ answer. IsOpen self.new.reader.rest) }
        ensures garbled { result ≡ Err ScanFault.Garbled
            → Garbles (L.remaining link.old) (L.remaining link.new) self.old.reader.rest }
        ensures asks { OnlyRequests self.old.unit (span_view span) result
            (L.given link.old) (L.given link.new) }
        ensures failures { L.failed link.new ≡ risen (has_failed result) (L.failed link.old) }
        ensures ends { L.ended link.new ≡ risen (is_gone result) (L.ended link.old) }
        ensures takes { L.taken link.new ≤ L.taken link.old + 2 * MOST_TAKES }
        ensures unit { self.new.unit ≡ self.old.unit }
    {
        match self.try_once(alloc, link, span) {
            Ok(Some(words)) => Ok(Some(words)),
            Ok(None) => self.try_once(alloc, link, span),
            Err(fault) => Err(fault),
        }
    }
}
