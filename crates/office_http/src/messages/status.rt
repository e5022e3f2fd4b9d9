//! The HTTP status codes of responses, and their reason phrases.

ghost use Rattle.std.specs.Prelude.{◌≡◌};
ghost use Rattle.office_http.specs.Messages.Status.Statuses.{number_of_status, reason_of_status};

/// The HTTP status of a response.
#[derive(Clone, Copy, PartialEq, Eq)]
pub enum Status {
    Fine,
    BadRequest,
    Forbidden,
    NotFound,
    MethodNotAllowed,
    Conflict,
    LengthRequired,
    ContentTooLarge,
    Misdirected,
    Unprocessable,
    FieldsTooLarge,
    Unavailable,
}

impl Status {
    /// Returns the status code (RFC 9110, section 15; RFC 6585, section 5).
    pub fn number(self) -> u16
        ensures { result ≡ number_of_status self }
    {
        match self {
            Status::Fine => 200,
            Status::BadRequest => 400,
            Status::Forbidden => 403,
            Status::NotFound => 404,
            Status::MethodNotAllowed => 405,
            Status::Conflict => 409,
            Status::LengthRequired => 411,
            Status::ContentTooLarge => 413,
            Status::Misdirected => 421,
            Status::Unprocessable => 422,
            Status::FieldsTooLarge => 431,
            Status::Unavailable => 503,
        }
    }

    /// Returns the reason phrase that follows the status code in a response.
    pub fn reason(self) -> &'static [u8]
        ensures { result.now ≡ reason_of_status self }
    {
        match self {
            Status::Fine => b"OK",
            Status::BadRequest => b"Bad Request",
            Status::Forbidden => b"Forbidden",
            Status::NotFound => b"Not Found",
            Status::MethodNotAllowed => b"Method Not Allowed",
            Status::Conflict => b"Conflict",
            Status::LengthRequired => b"Length Required",
            Status::ContentTooLarge => b"Content Too Large",
            Status::Misdirected => b"Misdirected Request",
            Status::Unprocessable => b"Unprocessable Content",
            Status::FieldsTooLarge => b"Request Header Fields Too Large",
            Status::Unavailable => b"Service Unavailable",
        }
    }
}
