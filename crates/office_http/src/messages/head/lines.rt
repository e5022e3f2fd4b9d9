//! Splits received bytes into lines, and finds the empty line that ends a request's head.
ghost use Rattle.std.specs.Prelude.{◌≡◌, length};
ghost use Rattle.office_http.specs.Messages.Head.Lines.{has_head_end, is_empty_line, lines_of_head};

// Returns whether a line is empty: it has no bytes, or only a carriage return. The line feed is not
// a part of `line`.
fn is_empty_line(line: &[u8]) -> bool
    ensures { result ≡ is_empty_line line.now }
{
    match line {
        [] => true,
        [byte] => *byte == b'\r',
        _ => false,
    }
}

#[derive(Clone, Copy)]
struct LineScan {
    // The number of lines of the request head before the empty line at its end.
    lines: usize,
    // Whether the empty line that ends the head has arrived.
    ended: bool,
}

fn scan(bytes: &[u8]) -> LineScan
    ensures lines { result.lines ≡ length (lines_of_head bytes.now) }
    ensures ended { result.ended ≡ has_head_end bytes.now }
{
    let mut text_seen = false;
    let mut lines = 0;
    let mut start = 0;
    for (i, byte) in bytes.iter().enumerate() {
        if *byte == b'\n' {
            if is_empty_line(&bytes[start..i]) {
                if text_seen {
                    return LineScan { lines, ended: true };
                }
            } else {
                text_seen = true;
                lines += 1;
            }
            start = i + 1;
        }
    }
    LineScan {
        lines,
        ended: false,
    }
}

/// Returns whether the bytes contain the end of a request head: an empty line after a nonempty
/// line.
pub fn has_head_end(bytes: &[u8]) -> bool
    ensures { result ≡ has_head_end bytes.now }
{
    scan(bytes).ended
}

/// Returns the number of lines of a request head before the empty line at its end.
pub fn head_line_count(bytes: &[u8]) -> usize
    ensures { result ≡ length (lines_of_head bytes.now) }
{
    scan(bytes).lines
}
