//! Reads the values of a command's options.
ghost use Rattle.std.specs.Prelude.{◌≡◌, ◌≤◌, ◌==◌, IfOk, Some, codes, is_none, option_map};
ghost use Rattle.std.specs.List.{list_all, list_any};
ghost use Rattle.clap.specs.Words.{all_of};
ghost use Rattle.command_words.specs.ClapTable.Table.{texts};
ghost use Rattle.command_words.specs.Values.Numbers.{number_up_to};
ghost use Rattle.command_words.specs.Options.{Reads, host_names_of, is_host_byte, is_host_name, is_set, number_at, number_if, number_or, rows_in};
ghost use Rattle.command_words.specs.Options.{several_at, text_at, text_or, texts_at};

use crate::faults::ValueFault;
use crate::table::{HOST_NAME, NumberOption};
use crate::values::number_up_to;
use clap::ArgMatches;
use std::alloc::Global;

// Returns the value of an option, or None if the option is not given.
fn value<'a>(found: &ArgMatches<'a>, option: &str) -> Option<&'a str>
    ensures { option_map (λ text. text.now) result ≡ text_at option.now (rows_in found.now) }
{
    found.get_str(option)
}

// Returns the value of a required option.
pub fn text<'a>(found: &ArgMatches<'a>, option: &'static str) -> Result<&'a str, ValueFault<'a>>
    ensures { Reads (λ text. text.now) (text_at option.now (rows_in found.now)) result }
{
    match value(found, option) {
        Some(text) => Ok(text),
        None => Err(ValueFault::Missing { option }),
    }
}

// Returns the number in the value of a required option.
pub fn number<'a>(
    found: &ArgMatches<'a>,
    option: NumberOption<'static>,
) -> Result<u32, ValueFault<'a>>
    ensures value { Reads (λ number. number)
        (number_at option.entry.most option.entry.name.now (rows_in found.now)) result }
    ensures within { IfOk result (λ number. number ≤ option.entry.most) }
{
    let word = text(found, option.name)?;
    number_in(option, word)
}

// Returns the number in the value of an option, or None if the option is not given.
pub fn number_if<'a>(
    found: &ArgMatches<'a>,
    option: NumberOption<'static>,
) -> Result<Option<u32>, ValueFault<'a>>
    ensures { Reads (λ number. number)
        (number_if option.entry.most option.entry.name.now (rows_in found.now)) result }
{
    match value(found, option.name) {
        Some(word) => Ok(Some(number_in(option, word)?)),
        None => Ok(None),
    }
}

// Returns the number in the value of an option, or `otherwise` if the option is not given.
pub fn number_or<'a>(
    found: &ArgMatches<'a>,
    option: NumberOption<'static>,
    otherwise: u32,
) -> Result<u32, ValueFault<'a>>
    requires { otherwise ≤ option.most }
    ensures value { Reads (λ number. number)
        (number_or otherwise option.entry.most option.entry.name.now (rows_in found.now)) result }
    ensures within { IfOk result (λ number. number ≤ option.entry.most) }
{
    match value(found, option.name) {
        Some(word) => number_in(option, word),
        None => Ok(otherwise),
    }
}

// Parses a number from 1 to the option's maximum.
fn number_in<'a>(option: NumberOption<'static>, word: &'a str) -> Result<u32, ValueFault<'a>>
    ensures value { Reads (λ number. number) (number_up_to option.entry.most word.now) result }
    ensures within { IfOk result (λ number. number ≤ option.entry.most) }
{
    match number_up_to(option.most, word) {
        Some(number) => Ok(number),
        None => Err(ValueFault::Number { option, word }),
    }
}

// Returns the value of an option that need not be given, or None if it is not given.
pub fn text_if<'a>(found: &ArgMatches<'a>, option: &str) -> Option<&'a str>
    ensures { option_map (λ text. text.now) result ≡ text_at option.now (rows_in found.now) }
{
    value(found, option)
}

// Returns the value of an option, or `otherwise` if the option is not given.
pub fn text_or<'a>(found: &ArgMatches<'a>, option: &'static str, otherwise: &'a str) -> &'a str
    ensures { result.now ≡ text_or otherwise.entry.now option.now (rows_in found.now) }
{
    match value(found, option) {
        Some(text) => text,
        None => otherwise,
    }
}

// Returns all values of an option, or None if the option is not given.
fn values<'a, 'f>(found: &'f ArgMatches<'a>, option: &str) -> Option<&'f [&'a str]>
    ensures { option_map (λ values. texts values.now) result
        ≡ all_of option.now (rows_in found.now) }
{
    found.get_strs(option)
}

// Returns all values of an option that may be given several times. Returns an empty list if the
// option is not given.
pub fn texts<'a>(
    alloc: Global,
    found: &ArgMatches<'a>,
    option: &'static str,
) -> Result<Vec<&'a str>, ValueFault<'a>>
    ensures { Reads (λ values. texts values.items)
        (Some (texts_at option.now (rows_in found.now))) result }
{
    let values = values(found, option).unwrap_or(&[]);
    match values.to_vec(alloc) {
        Ok(values) => Ok(values),
        Err(_) => Err(ValueFault::Memory),
    }
}

// Returns whether a list of bytes contains a byte.
fn is_among(bytes: &[u8], byte: u8) -> bool
    ensures { result ≡ list_any (λ other. other == byte) bytes.now }
{
    bytes.iter().any(|other| *other == byte)
}

// Returns whether a byte may be in a host name.
fn is_host_byte(byte: u8) -> bool
    ensures { result ≡ is_host_byte byte }
{
    byte.is_ascii_alphanumeric() || is_among(b".-_:[]", byte)
}

fn are_host_bytes(bytes: &[u8]) -> bool
    ensures { result ≡ list_all is_host_byte bytes.now }
{
    bytes.iter().all(|byte| is_host_byte(*byte))
}

// Returns whether a text has the form of a host name or an IP address.
fn is_host_name(name: &str) -> bool
    ensures { result ≡ is_host_name name.now }
{
    match name.as_bytes() {
        [] => false,
        bytes => are_host_bytes(bytes),
    }
}

// Returns the first text in a list that is not a host name, or None if all texts are host names.
fn other_than_hosts<'a>(names: &[&'a str]) -> Option<&'a str>
    ensures { is_none result ≡ list_all is_host_name (texts names.now) }
{
    for name in names {
        if !is_host_name(*name) {
            return Some(*name);
        }
    }
    None
}

// Returns the values of `--host-name`: further names that an HTTP request's Host header may have.
// Fails if one of the values is not a host name.
pub fn host_names<'a>(alloc: Global, found: &ArgMatches<'a>) -> Result<Vec<&'a str>, ValueFault<'a>>
    ensures { Reads (λ names. texts names.items)
        (host_names_of (texts_at (codes "host-name") (rows_in found.now))) result }
{
    let names = texts(alloc, found, HOST_NAME)?;
    match other_than_hosts(&names) {
        Some(word) => Err(ValueFault::HostName { word }),
        None => Ok(names),
    }
}

// Returns all values of a required option that may be given several times.
pub fn several<'a>(
    alloc: Global,
    found: &ArgMatches<'a>,
    option: &'static str,
) -> Result<Vec<&'a str>, ValueFault<'a>>
    ensures { Reads (λ values. texts values.items)
        (several_at option.now (rows_in found.now)) result }
{
    let values = texts(alloc, found, option)?;
    if values.is_empty() {
        return Err(ValueFault::Missing { option });
    }
    Ok(values)
}

// Returns whether a flag is given.
pub fn is_set(found: &ArgMatches, option: &'static str) -> bool
    ensures { result ≡ is_set option.now (rows_in found.now) }
{
    match value(found, option) {
        Some(text) => text == "true",
        None => false,
    }
}
