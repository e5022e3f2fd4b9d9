//! Reads members of a JSON object by name.
ghost use Rattle.std.specs.Prelude.{◌≡◌, true, false, pos, option_map, is_some, IfOk, IfErr, Some};
ghost use Rattle.std.specs.Prelude.{None};
ghost use Rattle.serde_json.specs.View.{view};
ghost use Rattle.serde_json.specs.Find.{get};
ghost use Rattle.office_http.specs.Messages.Commands.Json.Members.{is_below_zero, is_of_kind, text, whole, Optional};

use crate::messages::commands::json::body::BodyFault;
use serde_json::Value;

// Returns whether the JSON object has a member with the given name, of any type.
pub(crate) fn has_member(body: &Value, name: &str) -> bool
    ensures { result ≡ is_some (get name.now (view body.now)) }
{
    body.get(name).is_some()
}

pub(crate) fn text<'b>(body: &'b Value, name: &str) -> Result<&'b str, BodyFault>
    ensures found { IfOk result (λ s. text name.now (view body.now) ≡ Some s.now) }
    ensures none { IfErr result (λ e. text name.now (view body.now) ≡ None) }
    ensures fault { IfErr result (λ e. e ≡ BodyFault.Malformed) }
{
    match body.get(name).and_then(Value::as_str) {
        Some(text) => Ok(text),
        None => Err(BodyFault::Malformed),
    }
}

// Returns the integer in the JSON member `name` of a request's body, or `Malformed` if the member
// is missing or is no integer.
pub(crate) fn whole(body: &Value, name: &str) -> Result<i64, BodyFault>
    ensures found { IfOk result (λ n. whole name.now (view body.now) ≡ Some n) }
    ensures none { IfErr result (λ e. whole name.now (view body.now) ≡ None) }
    ensures fault { IfErr result (λ e. e ≡ BodyFault.Malformed) }
{
    match body.get(name).and_then(Value::as_i64) {
        Some(number) => Ok(number),
        None => Err(BodyFault::Malformed),
    }
}

// Returns the integer in an optional member, `None` if the member is missing, or `Malformed` if it
// is no integer.
pub(crate) fn optional(body: &Value, name: &str) -> Result<Option<i64>, BodyFault>
    ensures found { IfOk result (λ o. whole name.now (view body.now) ≡ o) }
    ensures kind { IfOk result (λ o. is_of_kind Optional name.now (view body.now) ≡ true) }
    ensures none { IfErr result (λ e. is_of_kind Optional name.now (view body.now) ≡ false) }
    ensures fault { IfErr result (λ e. e ≡ BodyFault.Malformed) }
{
    if has_member(body, name) {
        Ok(Some(whole(body, name)?))
    } else {
        Ok(None)
    }
}

// Converts an integer to an unsigned integer, or returns `Negative` if the integer is negative.
pub(crate) fn natural(number: i64) -> Result<u64, BodyFault>
    ensures found { IfOk result (λ n. number ≡ pos n) }
    ensures negative { IfErr result (λ e. is_below_zero (Some number) ≡ true) }
    ensures fault { IfErr result (λ e. e ≡ BodyFault.Negative) }
{
    if number < 0 {
        Err(BodyFault::Negative)
    } else {
        Ok(number as u64)
    }
}

// Converts an optional integer to an unsigned integer, or returns `Negative` if the integer is
// negative.
pub(crate) fn natural_or_none(number: Option<i64>) -> Result<Option<u64>, BodyFault>
    ensures found { IfOk result (λ o. number ≡ option_map (λ n. pos n) o) }
    ensures negative { IfErr result (λ e. is_below_zero number ≡ true) }
    ensures fault { IfErr result (λ e. e ≡ BodyFault.Negative) }
{
    match number {
        Some(number) => Ok(Some(natural(number)?)),
        None => Ok(None),
    }
}
