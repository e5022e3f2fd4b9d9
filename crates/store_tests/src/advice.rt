//! Tests the messages that explain the numeric codes (causes of rejection and refusals) in the
//! lines that a polling round printed.
use office_program::PollEnd;
use stored_office::say_remarks;

// The lines that a polling round printed: a rejected reading, a refusal, other lines, lines with
// unknown numeric codes, and incomplete lines.
static PRINTED: &[u8] =
    b"ok\nheld m1 60000 cause 6\nreading m1 60000 rolls 0 step 1\nheld m1 60000 cause 9\nheld m1 60000\nrefused 1\nrefused 13\n";

static SAID: &[u8] =
    b"sunreg: m1: reading rejected: more energy than the ceiling allows; compare the reading with the meter: enter a reset or an exchange if the counter was changed, or a manual reading if it is right\nsunreg: inv: the database failed; check the free disk space and the file's permissions, then restart: everything acknowledged is kept\n";

// Checks that a rejected reading and a refusal are explained. Other lines are not explained, and
// nothing is explained after a polling round that could not connect.
#[test]
fn what_numbers_mean_is_said(rt: HostRuntime) {
    let mut said = Vec::new(rt.alloc());
    say_remarks(
        rt.alloc(),
        "inv",
        PollEnd::Polled(Ok(())),
        PRINTED,
        &mut said,
    );
    assert!(rt; said.as_slice() == SAID);
    say_remarks(rt.alloc(), "inv", PollEnd::Unconnected, PRINTED, &mut said);
    assert!(rt; said.as_slice() == SAID);
}
