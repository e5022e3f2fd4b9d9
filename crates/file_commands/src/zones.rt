//! Finds the POSIX rule of a time zone by the zone's name, in the operating system's zone files
//! (RFC 9636).
use interval_core::Zone;
use std::{fs, io};

/// The folder of the zone files. The path of a zone's file below this folder is the zone's name.
const FOLDER: &str = "/usr/share/zoneinfo";

/// The first bytes of each zone file (RFC 9636, section 3.1).
const MAGIC: &[u8] = b"TZif";

/// The maximum length of a zone's name, in bytes.
const MAX_NAME: usize = 64;

fn is_name_byte(byte: u8) -> bool {
    byte.is_ascii_alphanumeric() || byte == b'_' || byte == b'+' || byte == b'-'
}

// Returns whether a text has the form of a zone's name: words with `/` between them.
fn is_zone_name(text: &str) -> bool {
    text.len() <= MAX_NAME
        && text
            .split('/')
            .all(|word| !word.is_empty() && word.bytes().all(is_name_byte))
}

// Returns the POSIX rule in the last line of a zone file (RFC 9636, section 3.3). The rule applies
// to all times after the last entry in the file's table.
fn last_rule(content: &[u8]) -> Option<&str> {
    let lines = content.strip_prefix(MAGIC)?.strip_suffix(b"\n".as_slice())?;
    let rule = lines.rsplit(|byte| *byte == b'\n').next()?;
    str::from_utf8(rule).ok()
}

/// Returns the current POSIX rule of the time zone `name`. Returns `None` if the system has no zone
/// file of this name, or if the file has no valid rule.
pub(crate) fn rule_of_name(rt: &HostRuntime, name: &str) -> io::Result<Option<String>> {
    if !is_zone_name(name) {
        return Ok(None);
    }
    let path = format!(in rt.alloc(); "{FOLDER}/{name}")?;
    let content = match fs::read(rt, path.as_str()) {
        Ok(content) => content,
        Err(fault) if fault.kind() == io::ErrorKind::OutOfMemory => return Err(fault),
        Err(_) => return Ok(None),
    };
    match last_rule(&content) {
        Some(rule) if Zone::read(rule).is_ok() => Ok(Some(String::from_str(rt.alloc(), rule)?)),
        _ => Ok(None),
    }
}

// Returns the full name of a time zone in an area, such as Europe, whose last word is `word`,
// ignoring case.
fn name_in_area(rt: &HostRuntime, area: &str, word: &str) -> io::Result<Option<String>> {
    let folder = format!(in rt.alloc(); "{FOLDER}/{area}")?;
    for entry in fs::read_dir(rt, folder.as_str())? {
        let entry = entry?;
        let found = entry.file_name();
        if found.eq_ignore_ascii_case(word) {
            return Ok(Some(format!(in rt.alloc(); "{area}/{found}")?));
        }
    }
    Ok(None)
}

/// Returns the name of a time zone that a user who wrote `name` may have meant. It is a zone in any
/// area whose last word equals the last word of `name`, ignoring case.
pub(crate) fn similar_name(rt: &HostRuntime, name: &str) -> io::Result<Option<String>> {
    let word = match name.rsplit_once('/') {
        Some((_, word)) => word,
        None => name,
    };
    for entry in fs::read_dir(rt, FOLDER)? {
        let entry = entry?;
        let area = entry.file_name();
        let is_area = area.starts_with(|first: char| first.is_ascii_uppercase());
        if is_area && entry.file_type()?.is_dir() {
            if let Some(found) = name_in_area(rt, area, word)? {
                return Ok(Some(found));
            }
        }
    }
    Ok(None)
}
