//! The kinds of printed numeric codes, and the word that the program prints before a code of each
//! kind.
ghost use Rattle.std.specs.Prelude.{◌≡◌};
ghost use Rattle.printed_numbers.specs.Kinds.{kind_named, kinds};

/// The kind of a printed numeric code. A code has a different meaning for each kind.
#[derive(Clone, Copy, PartialEq, Eq)]
pub enum Kind {
    /// `refused 12`: the program refused a script line, a request or an event of a device.
    Refused,
    /// `held METER RAW cause 6`: a reading was rejected. It is stored, and adds no energy.
    Held,
    /// `poll 7 lost 1`: the polling session (of one connection to the device) ended before the poll
    /// had an outcome.
    Lost,
    /// `poll 7 malformed 5`: the response of a device was malformed.
    Malformed,
    /// `poll 7 exception 2`: the device responded with an exception instead of registers.
    Exception,
    /// `row 3 fault 7`: row 3 of a point list (the CSV text of the registers to poll) describes no
    /// valid point.
    RowFault,
    /// `fault 2 40070`: a device's chain of SunSpec models has no word at address 40070.
    ChainFault,
    /// `{"fault":404}`: the server rejected an HTTP request.
    HttpFault,
    /// The exit status of the program.
    Status,
}

static KINDS: [Kind; 9] = [
    Kind::Refused,
    Kind::Held,
    Kind::Lost,
    Kind::Malformed,
    Kind::Exception,
    Kind::RowFault,
    Kind::ChainFault,
    Kind::HttpFault,
    Kind::Status,
];

/// Returns the kinds of numeric codes that the program prints (refusals, losses, exit statuses,
/// ..). They are in the order in which the function `kind_named` compares them with a word.
pub fn kinds() -> &'static [Kind]
    ensures { result.now ≡ kinds }
{
    &KINDS
}

impl Kind {
    ghost use Rattle.printed_numbers.specs.Kinds.{word_of};

    /// Returns the word that the program prints before a numeric code of this kind, such as
    /// `refused` in `refused 12`.
    pub fn word(self) -> &'static str
        ensures { result.now ≡ word_of self }
    {
        match self {
            Kind::Refused => "refused",
            Kind::Held => "held",
            Kind::Lost => "lost",
            Kind::Malformed => "malformed",
            Kind::Exception => "exception",
            Kind::RowFault | Kind::ChainFault | Kind::HttpFault => "fault",
            Kind::Status => "status",
        }
    }
}

/// Returns the first kind of printed numeric codes in `kinds` that has the given word. Three kinds
/// have the word `fault`; the first of the three is `RowFault`.
pub fn kind_named(word: &str) -> Option<Kind>
    ensures { result ≡ kind_named word.now }
{
    match word {
        "refused" => Some(Kind::Refused),
        "held" => Some(Kind::Held),
        "lost" => Some(Kind::Lost),
        "malformed" => Some(Kind::Malformed),
        "exception" => Some(Kind::Exception),
        "fault" => Some(Kind::RowFault),
        "status" => Some(Kind::Status),
        _ => None,
    }
}
