//! Formats the JSON bodies of responses that report a refusal or another error by a numeric code.
ghost use Rattle.std.specs.Prelude.{◌≡◌};
ghost use Rattle.office_http.specs.Messages.Sending.Bodies.{fault_text, refused_text};

use crate::messages::Status;

/// A text of at most 8,192 bytes, for the body of a response.
pub type Text = script_text::Text<8192>;

/// Formats the JSON body of a response that reports a refusal by the numeric code of its reason.
pub fn refused_body(number: u8) -> Text
    ensures { result ≡ refused_text number }
{
    let mut text = Text::new();
    text.push_number(b"{\"refused\":", number);
    text.push(b"}");
    text
}

/// Formats the JSON body of an error response that reports no refusal. The body has the response's
/// HTTP status code: `{"fault":CODE}`.
pub fn fault_body(status: Status) -> Text
    ensures { result ≡ fault_text status }
{
    let mut text = Text::new();
    text.push_number(b"{\"fault\":", status.number());
    text.push(b"}");
    text
}
