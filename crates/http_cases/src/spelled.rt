//! Decodes HTTP requests from the texts of golden tests (tests that compare responses with recorded
//! ones).
use std::alloc::{AllocError, Global};

/// Decodes a request from the text of a golden test. Each line is sent with CR LF at its end, or
/// without if its last character is `~`. In a line, `~N;` is the byte N, and `~N*COUNT;` is the
/// byte N, COUNT times.
pub(crate) fn decode(alloc: Global, text: &str) -> Result<Vec<u8>, AllocError> {
    let mut bytes = Vec::new(alloc);
    for line in text.split('\n') {
        match line.strip_suffix('~') {
            Some(line) => decode_line(line, &mut bytes)?,
            None => {
                decode_line(line, &mut bytes)?;
                bytes.extend_from_slice(b"\r\n")?;
            }
        }
    }
    Ok(bytes)
}

fn decode_line(line: &str, bytes: &mut Vec<u8>) -> Result<(), AllocError> {
    let mut parts = line.split('~');
    bytes.extend_from_slice(parts.next().unwrap_or("").as_bytes())?;
    for part in parts {
        let (escape, rest) = part.split_once(';').unwrap_or((part, ""));
        repeat_byte(escape, bytes)?;
        bytes.extend_from_slice(rest.as_bytes())?;
    }
    Ok(())
}

fn repeat_byte(escape: &str, bytes: &mut Vec<u8>) -> Result<(), AllocError> {
    let (byte, count) = escape.split_once('*').unwrap_or((escape, "1"));
    let byte = byte.parse::<u8>().unwrap_or(b'?');
    for _ in 0..count.parse::<u32>().unwrap_or(1) {
        bytes.push(byte)?;
    }
    Ok(())
}
