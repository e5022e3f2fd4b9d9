//! Tests of the HTTP statuses and bodies of those responses that no other test produces.
use energy_core::Cause;
use office_events::{Answer, CommandKind, Refusal, StoreCause};
use office_http::messages::{
    Status, done_body, fault_body, kind_answered, refused_body, status_of,
};

static STATUSES: [(Refusal, u16); 19] = [
    (Refusal::NotFound, 404),
    (Refusal::Exists, 409),
    (Refusal::ClockBack, 409),
    (Refusal::BadScale, 422),
    (Refusal::NegativeStep, 422),
    (Refusal::NotLater, 422),
    (Refusal::SpanTooLong, 422),
    (Refusal::TotalFull, 422),
    (Refusal::Ended, 409),
    (Refusal::Busy, 409),
    (Refusal::Reused, 409),
    (Refusal::Limit, 422),
    (Refusal::Store(StoreCause::Refused), 503),
    (Refusal::Store(StoreCause::Damaged), 503),
    (Refusal::Store(StoreCause::NoDay), 503),
    (Refusal::Memory, 503),
    (Refusal::Stopped, 503),
    (Refusal::NotVoidable, 409),
    (Refusal::NotPlausible(Cause::TooFast), 422),
];

// Checks the HTTP status of the response to each kind of refused request.
#[test]
fn each_refusal_has_a_status(rt: HostRuntime) {
    for (refusal, status) in &STATUSES {
        assert!(rt; status_of(*refusal).number() == *status);
    }
    assert!(rt; refused_body(14).bytes() == b"{\"refused\":14}".as_slice());
    assert!(rt; fault_body(Status::Conflict).bytes() == b"{\"fault\":409}".as_slice());
}

static KINDS: [(CommandKind, &[u8]); 11] = [
    (CommandKind::Device, b"{\"done\":\"device\"}"),
    (CommandKind::List, b"{\"done\":\"list\"}"),
    (CommandKind::Register, b"{\"done\":\"register\"}"),
    (CommandKind::Install, b"{\"done\":\"install\"}"),
    (CommandKind::Exchange, b"{\"done\":\"exchange\"}"),
    (CommandKind::Reset, b"{\"done\":\"reset\"}"),
    (CommandKind::Rescale, b"{\"done\":\"rescale\"}"),
    (CommandKind::Manual, b"{\"done\":\"manual\"}"),
    (CommandKind::Close, b"{\"done\":\"close\"}"),
    (CommandKind::Void, b"{\"done\":\"void\"}"),
    (CommandKind::Start, b"{\"done\":\"start\"}"),
];

// Checks that the body of an HTTP response states the kind of the command. It does not matter
// whether the command was executed now or by an earlier request.
#[test]
fn each_kind_of_command_has_a_body(rt: HostRuntime) {
    for (kind, body) in &KINDS {
        assert!(rt; done_body(*kind) == *body);
        assert!(rt; kind_answered(Answer::Done(*kind)) == Some(*kind));
        assert!(rt; kind_answered(Answer::Again(*kind)) == Some(*kind));
    }
    assert!(rt; kind_answered(Answer::Noted) == None);
    let started = Answer::Started {
        first: 1,
        count: 1,
        of: 1,
    };
    assert!(rt; kind_answered(started) == Some(CommandKind::Start));
}
