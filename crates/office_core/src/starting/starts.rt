//! Starts Modbus reads on a device's Modbus session one by one, as many as the session allows.
ghost use Rattle.std.specs.Prelude.{◌≡◌, ◌+◌, ◌≤◌, None, length, IfOk};
ghost use Rattle.std.specs.List.{flat_map};
ghost use Rattle.office_books.specs.Sessions as sessions;
ghost use Rattle.office_books.specs.Notes.{frame_of};
ghost use Rattle.office_core.specs.Sessions.Keeping.{KeepsSlot};
ghost use Rattle.office_core.specs.Starting.Starts.{CountsSends, GivesPolls, IsBefore, KeepsStarts};
ghost use Rattle.office_core.specs.Starting.Starts.{WhereSent, polls_of, frames_of, slot_sent};

use crate::sessions::Slot;
use crate::starting::output::Outgoing;
use mb_wire::ReadSpan;
use office_events::{Device, Fact, MAX_POLLS, Poll};
use poll_core::{LAST_MOMENT, MAX_WINDOW, Session};
use std::alloc::{AllocError, Global};

/// Returns how many of the given reads the Modbus session allows to start now.
fn count_on(kept: &Session, device: &Device, spans: &[ReadSpan]) -> usize
    ensures few { result ≤ MAX_WINDOW }
    ensures inside { result ≤ length spans.now }
    ensures count { CountsSends device.now kept.now spans.now result }
{
    kept.ready()
        .count
        .min(device.window.polls())
        .min(spans.len())
}

/// Returns the poll records of as many of the given reads as the Modbus session allows, from the
/// first read on.
fn poll_facts(
    alloc: Global,
    kept: &Session,
    device: &Device,
    number: u64,
    moment: u64,
    spans: &[ReadSpan],
) -> Result<Vec<Fact>, AllocError>
    requires { number ≤ MAX_POLLS + 1 }
    ensures { GivesPolls device.now kept.now number moment spans.now result }
{
    let mut facts = Vec::new(alloc);
    let mut id = kept.ready().id;
    for i in 0..count_on(kept, device, spans) {
        facts.push(Fact::Poll(Poll {
            number: number + i as u64,
            device: device.name,
            unit: device.unit,
            at: moment,
            id,
            span: spans[i],
        }))?;
        id = id.wrapping_add(1);
    }
    Ok(facts)
}

/// Returns the poll records of as many of the given reads as the Modbus session allows, from the
/// first read on.
///
/// `number` is the poll number of the first poll record that the function returns.
pub fn polls_on(
    alloc: Global,
    slot: &Slot,
    number: u64,
    moment: u64,
    spans: &[ReadSpan],
) -> Result<Vec<Fact>, AllocError>
    requires { number ≤ MAX_POLLS + 1 }
    ensures { (kept : sessions.Slot) → KeepsSlot slot.now kept
        → IfOk result (λ facts. facts.items ≡ polls_of number moment spans.now kept) }
{
    match &slot.session {
        None => Ok(Vec::new(alloc)),
        Some(kept) => poll_facts(alloc, kept, &slot.device, number, moment, spans),
    }
}

/// Starts as many of the given reads as the Modbus session allows, from the first read on.
fn start_each(
    kept: &mut Session,
    device: &Device,
    number: u64,
    moment: u64,
    spans: &[ReadSpan],
) -> Outgoing
    requires number { number ≤ MAX_POLLS + 1 }
    requires limit { moment ≤ LAST_MOMENT }
    requires rests { kept.old.settling ≡ None }
    ensures keeps { WhereSent device.now kept.old number moment spans.now
        (KeepsStarts device.now moment kept.new) }
    ensures sent { WhereSent device.now kept.old number moment spans.now
        (λ events sends. result ≡ flat_map (frame_of device.now) sends) }
    ensures rests { kept.new.settling ≡ None }
{
    let mut outgoing = Outgoing::none();
    let mut bytes = [0; 260];
    for i in 0..count_on(kept, device, spans) {
        match kept.start(moment, number + i as u64, device.unit, spans[i], &mut bytes) {
            Ok(len) => outgoing.add(&bytes[..len]),
            Err(_) => return outgoing,
        }
    }
    outgoing
}

/// Starts as many of the given reads as the Modbus session allows, from the first read on, and
/// returns their request frames.
///
/// `number` is the poll number of the first read that is started.
pub fn start_on(slot: &mut Slot, number: u64, moment: u64, spans: &[ReadSpan]) -> Outgoing
    requires number { number ≤ MAX_POLLS + 1 }
    requires limit { moment ≤ LAST_MOMENT }
    ensures keeps { (kept : sessions.Slot) → KeepsSlot slot.old kept → IsBefore moment kept
        → KeepsSlot slot.new (slot_sent number moment spans.now kept) }
    ensures sent { (kept : sessions.Slot) → KeepsSlot slot.old kept → IsBefore moment kept
        → result ≡ frames_of number moment spans.now kept }
{
    let Some(mut kept) = slot.session.take() else {
        return Outgoing::none();
    };
    let outgoing = start_each(&mut kept, &slot.device, number, moment, spans);
    slot.session = Some(kept);
    outgoing
}
