//! The JSON bodies of the responses to queries for a meter or a poll.
ghost use Rattle.std.specs.Prelude.{◌≡◌, ◌≤◌, ◌+◌, ◌++◌, length, codes};
ghost use Rattle.std.specs.Fmt.{signed_decimal};
ghost use Rattle.office_http.specs.Messages.Rows.{bool_text, ending_of, meter_text, poll_text};

use crate::messages::sending::Text;
use office_events::{EndedPoll, Installation, PollRow};

fn bool_bytes(value: bool) -> &'static [u8]
    ensures word { result.now ≡ bool_text value }
    ensures few { length result.now ≤ 5 }
{
    if value { b"true" } else { b"false" }
}

fn push_scale(text: &mut Text, sf: i16)
    requires { length text.old ≤ 8000 }
    ensures bytes { text.new ≡ text.old ++ codes "\",\"sf\":" ++ signed_decimal sf }
    ensures size { length text.new ≤ length text.old + 30 }
{
    text.push_number(b"\",\"sf\":", i64::from(sf));
}

/// Formats the JSON of a meter: its last entry, its counter's range, and its total energy in mWh.
/// The energy is a string of digits, because JSON numbers lose precision above 2^53 in many
/// clients.
pub fn meter_body(row: &Installation) -> Text
    ensures { result ≡ meter_text row.now }
{
    let mut text = Text::new();
    text.push_number(b"{\"at\":", row.last.at);
    text.push(b",\"ended\":");
    text.push(bool_bytes(row.ended));
    text.push_number(b",\"last\":", row.last.raw);
    text.push(b",\"meter\":\"");
    text.push(row.opening.meter.as_bytes());
    text.push_number(b"\",\"range\":", row.opening.range);
    text.push(b",\"register\":\"");
    text.push(row.opening.register.as_bytes());
    push_scale(&mut text, row.last.sf);
    text.push_number(b",\"total\":\"", row.total);
    text.push(b"\"}");
    text
}

// The end of a poll: its time, the numeric code of its outcome, and a second code with details,
// such as the Modbus exception code. All fields are 0 while the poll waits for its response.
#[derive(Clone, Copy)]
struct Ending {
    moment: u64,
    outcome: u8,
    code: u8,
}

fn ending_of(ended: &Option<EndedPoll>) -> Ending
    ensures moment { result.moment ≡ (ending_of ended.now).moment }
    ensures outcome { result.outcome ≡ (ending_of ended.now).outcome }
    ensures code { result.code ≡ (ending_of ended.now).code }
{
    match ended {
        None => Ending {
            moment: 0,
            outcome: 0,
            code: 0,
        },
        Some(ended) => Ending {
            moment: ended.at,
            outcome: ended.outcome.number(),
            code: ended.outcome.code(),
        },
    }
}

/// Formats the JSON of a poll. The time and the two numeric codes of its outcome are 0 while the
/// poll waits for its response.
pub fn poll_body(row: &PollRow) -> Text
    ensures { result ≡ poll_text row.now }
{
    let ending = ending_of(&row.ended);
    let mut text = Text::new();
    text.push_number(b"{\"code\":", ending.code);
    text.push(b",\"device\":\"");
    text.push(row.poll.device.as_bytes());
    text.push_number(b"\",\"moment\":", ending.moment);
    text.push_number(b",\"outcome\":", ending.outcome);
    text.push_number(b",\"poll\":", row.poll.number);
    text.push_number(b",\"started\":", row.poll.at);
    text.push(b"}");
    text
}
