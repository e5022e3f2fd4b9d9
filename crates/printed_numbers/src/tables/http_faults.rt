//! The meanings of the faults of HTTP requests, by the status of the response.
ghost use Rattle.printed_numbers.specs.Numbers.{Answers};
ghost use Rattle.printed_numbers.specs.declared.kind.Kind.TheVariants.{HttpFault};

use crate::kind::Kind;
use crate::meaning::Meaning;

static BAD_REQUEST: Meaning = Meaning {
    kind: Kind::HttpFault,
    number: 400,
    means: "the head, one of its headers or the body is malformed",
    cause: "a body that is not JSON, a missing member, or no Office-Caller or Office-Request",
    remedy: "compare the request with the table in docs/HTTP.md",
};

static OTHER_SITE: Meaning = Meaning {
    kind: Kind::HttpFault,
    number: 403,
    means: "the request comes from a page of another site",
    cause: "a link or a form of another site, or a page that tries to read this site's data",
    remedy: "open the office's own page, and use that",
};

static NO_ROUTE: Meaning = Meaning {
    kind: Kind::HttpFault,
    number: 404,
    means: "no route has that target",
    cause: "a misspelt target, or one with a question mark",
    remedy: "compare the target with the table in docs/HTTP.md",
};

static OTHER_METHOD: Meaning = Meaning {
    kind: Kind::HttpFault,
    number: 405,
    means: "wrong method for this route",
    cause: "a GET of a command, or a POST of a query",
    remedy: "use POST for commands and GET for queries",
};

static NO_LENGTH: Meaning = Meaning {
    kind: Kind::HttpFault,
    number: 411,
    means: "a command without Content-Length",
    cause: "a client that sends its body in chunks",
    remedy: "send the body with its length",
};

static BODY_TOO_LARGE: Meaning = Meaning {
    kind: Kind::HttpFault,
    number: 413,
    means: "the body is larger than 65,536 bytes",
    cause: "a point list with many points",
    remedy: "remove the points that aren't needed",
};

static OTHER_HOST: Meaning = Meaning {
    kind: Kind::HttpFault,
    number: 421,
    means: "its Host is not accepted",
    cause: "a name of this machine or of a proxy that is not configured, or a web page that tries to reach the office",
    remedy: "use 127.0.0.1 or localhost, or add the name with --host-name",
};

static HEAD_TOO_LARGE: Meaning = Meaning {
    kind: Kind::HttpFault,
    number: 431,
    means: "the head exceeds its limits",
    cause: "a head of more than 8,192 bytes or 64 headers, such as cookies of another page",
    remedy: "send fewer headers",
};

static TAKES_NO_COMMAND: Meaning = Meaning {
    kind: Kind::HttpFault,
    number: 503,
    means: "no command is accepted: the space for stored commands is used up, or an office file is gone",
    cause: "--most-kept is reached, or a file was moved or removed during a run",
    remedy: "read what the run printed on standard error, then restart it with a larger --most-kept, or with its files in place",
};

/// Returns the meaning of the HTTP fault whose numeric code is the given response status.
pub fn http_fault(number: u32) -> Option<&'static Meaning>
    ensures { Answers HttpFault number result }
{
    match number {
        400 => Some(&BAD_REQUEST),
        403 => Some(&OTHER_SITE),
        404 => Some(&NO_ROUTE),
        405 => Some(&OTHER_METHOD),
        411 => Some(&NO_LENGTH),
        413 => Some(&BODY_TOO_LARGE),
        421 => Some(&OTHER_HOST),
        431 => Some(&HEAD_TOO_LARGE),
        503 => Some(&TAKES_NO_COMMAND),
        _ => None,
    }
}
