//! Queues the Modbus frames that are to be sent to a device.
ghost use Rattle.std.specs.Prelude.{◌≡◌};
ghost use Rattle.run_http.specs.Status.Monitor.Output as sending;

use office_events::Event;

fn is_end(event: &Event) -> bool
    ensures { result ≡ sending.is_end event.now }
{
    match event {
        Event::Connected(_) => false,
        Event::Bytes(_, _) => false,
        Event::Tick => false,
        Event::Gone(_, _) => true,
        Event::Command(_) => false,
        Event::Asked(_) => false,
    }
}

/// Queues Modbus frames for a device if memory suffices. If the event ends the device's connection,
/// the frames that were not sent are first dropped.
#[tactic(auto, using(crate::proofs::StatusLemmas::MonitorLemmas::Queues::write_or_not))]
pub(crate) fn write_frames(queue: &mut Vec<u8>, event: &Event, frames: &[u8])
    ensures { sending.IsPut event.now frames.now queue.old.items queue.new.items }
{
    if is_end(event) {
        queue.clear();
    }
    let _done = queue.extend_from_slice(frames);
}
