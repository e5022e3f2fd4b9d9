//! Writes read requests to a device.
ghost use Rattle.std.specs.Prelude.{◌≡◌, is_err};
ghost use Rattle.std.specs.Io.KnownBytes.{Keeps};
ghost use Rattle.mb_wire.specs.Links.{risen};
ghost use Rattle.sun_points.specs.Writing.{GotText};
ghost use Rattle.sun_chain.specs.Scanning.Answers.{ask_of, request_frame};

use crate::scans::tries::Try;
use mb_wire::{Link, LinkFailed, MAX_ADU, MAX_PDU, encode_request, give_all, write_frame};

/// Writes the frame of a read request to the link to the device.
pub(crate) fn give_request<L: Link>(link: &mut L, attempt: Try) -> Result<(), LinkFailed>
    ensures given { GotText result (request_frame (ask_of attempt))
        (L.given link.old) (L.given link.new) }
    ensures remaining { Keeps (L.remaining link.old) (L.remaining link.new) }
    ensures failures { L.failed link.new ≡ risen (is_err result) (L.failed link.old) }
    ensures takes { L.taken link.new ≡ L.taken link.old }
    ensures ends { L.ended link.new ≡ L.ended link.old }
{
    let request = attempt.span.request();
    let mut pdu = [0; MAX_PDU];
    let size = encode_request(&request, &mut pdu);
    let mut frame = [0; MAX_ADU];
    let count = write_frame(attempt.id, attempt.unit, &pdu[..size], &mut frame);
    give_all(link, &frame[..count])
}
