//! Looks up the headers of a request by name.
ghost use Rattle.std.specs.Prelude.{◌≡◌, ℕ, List, [], ◌∷◌, ◌++◌, length, map, All};
ghost use Rattle.httparse.specs.Spans.{IsHeaderWithin, header_bytes};
ghost use Rattle.office_http.specs.Messages.Head.Headers.{same_name, values_of, Gives};

use httparse::spans::HeaderSpan;

/// How often a request has a header: never, once with its value, or more than once.
#[derive(Clone, Copy)]
pub enum Given<'b> {
    Never,
    Once(&'b [u8]),
    Often,
}

/// Returns whether two header names are equal. The comparison ignores upper and lower case.
pub(crate) fn same_name(one: &[u8], other: &[u8]) -> bool
    ensures { result ≡ same_name one.now other.now }
{
    one.eq_ignore_ascii_case(other)
}

// Returns the count of a header after one more value: `Once` after the first value, and `Often`
// after any later value.
fn one_more<'b>(found: Given<'b>, value: &'b [u8]) -> Given<'b>
    ensures { (values : List (List ℕ)) → Gives found.entry values
        → Gives result (values ++ value.now ∷ []) }
{
    match found {
        Given::Never => Given::Once(value),
        Given::Once(_) | Given::Often => Given::Often,
    }
}

/// Returns how often a request has the header `name`, and the header's value. The lookup ignores
/// upper and lower case in the name.
pub fn header_value<'b>(bytes: &'b [u8], headers: &[HeaderSpan], name: &[u8]) -> Given<'b>
    requires within { All (IsHeaderWithin (length bytes.now)) headers.now }
    ensures { Gives result (values_of name.now (map (header_bytes bytes.now) headers.now)) }
{
    let mut found = Given::Never;
    for header in headers {
        if same_name(header.name.of(bytes), name) {
            found = one_more(found, header.value.of(bytes));
        }
    }
    found
}
