//! Functions that read the content of a record (such as an accounting register (a named energy
//! counter) or an opening) at an index of the in-memory list of records.
ghost use Rattle.std.specs.Prelude.{◌≡◌, IfOk};
ghost use Rattle.std.specs.List.{filter_map};
ghost use Rattle.std.specs.Option.{option_copied};
ghost use Rattle.office_books.specs.Facts as kinds;
ghost use Rattle.office_books.specs.Repeats as repeats;
ghost use Rattle.memory_books.specs.Tables.Lookups as spots;

use mb_wire::ReadSpan;
use office_books::{Repeat, is_read_by};
use office_events::{Fact, Opening, PlannedList, Register, Reply};
use std::alloc::{AllocError, Global};

fn as_register(fact: &Fact) -> Option<Register>
    ensures { result ≡ kinds.as_register fact.now }
{
    match fact {
        Fact::Register(register) => Some(*register),
        _ => None,
    }
}

fn as_opening(fact: &Fact) -> Option<Opening>
    ensures { result ≡ kinds.as_opening fact.now }
{
    match fact {
        Fact::Opening(opening) => Some(*opening),
        _ => None,
    }
}

/// Returns the accounting register (a named energy counter) in the record at index `place`, or
/// `None` if the record is of another kind.
pub(crate) fn register_at(facts: &[Fact], place: usize) -> Option<Register>
    ensures { result ≡ spots.register_at facts.now place }
{
    as_register(facts.get(place)?)
}

/// Returns the opening, which is the record that installs a meter, at index `place` of the records.
/// Returns `None` if the record at the index is of another kind.
pub(crate) fn opening_at(facts: &[Fact], place: usize) -> Option<Opening>
    ensures { result ≡ spots.opening_at facts.now place }
{
    as_opening(facts.get(place)?)
}

/// Returns the accounting registers (named energy counters) in the records at these indices, in the
/// order of the indices.
pub(crate) fn registers_at(
    alloc: Global,
    facts: &[Fact],
    places: &[usize],
) -> Result<Vec<Register>, AllocError>
    ensures { IfOk result (λ v. v.items ≡ filter_map (spots.register_at facts.now) places.now) }
{
    places
        .iter()
        .filter_map(|place| register_at(facts, *place))
        .collect(alloc)
}

fn if_read(register: &Register, span: ReadSpan) -> Option<Register>
    ensures { result ≡ spots.if_read span register.now }
{
    if is_read_by(span, register) {
        Some(*register)
    } else {
        None
    }
}

fn as_register_read(fact: &Fact, span: ReadSpan) -> Option<Register>
    ensures { result ≡ spots.register_read span fact.now }
{
    match fact {
        Fact::Register(register) => if_read(register, span),
        _ => None,
    }
}

fn register_read_at(facts: &[Fact], place: usize, span: ReadSpan) -> Option<Register>
    ensures { result ≡ spots.register_read_at span facts.now place }
{
    as_register_read(facts.get(place)?, span)
}

/// Returns the accounting registers (named energy counters) in the records at these indices.
/// Registers that the Modbus read does not cover are left out.
pub(crate) fn registers_read_at(
    alloc: Global,
    facts: &[Fact],
    places: &[usize],
    span: ReadSpan,
) -> Result<Vec<Register>, AllocError>
    ensures { IfOk result (λ v. v.items
        ≡ filter_map (spots.register_read_at span facts.now) places.now) }
{
    places
        .iter()
        .filter_map(|place| register_read_at(facts, *place, span))
        .collect(alloc)
}

/// Returns the point list (the Modbus registers to read) in a record, or `None` if the record has
/// no point list or the list has no points.
fn as_list(fact: &Fact) -> Option<&PlannedList>
    ensures { option_copied result ≡ spots.listed fact.now }
{
    match fact {
        Fact::List(put) => {
            if put.list.points().is_empty() {
                return None;
            }
            Some(&put.list)
        }
        _ => None,
    }
}

/// Returns the point list in the record at index `place`, or `None` if the record has no point list
/// or the list has no points.
pub(crate) fn list_at(facts: &[Fact], place: usize) -> Option<&PlannedList>
    ensures { option_copied result ≡ spots.list_at facts.now place }
{
    as_list(facts.get(place)?)
}

fn repeat_by(reply: &Reply, request: &[u8]) -> Repeat
    ensures { result ≡ repeats.as_repeat request.now reply.now }
{
    if reply.request.as_slice() == request {
        Repeat::Same(reply.kind)
    } else {
        Repeat::Other
    }
}

fn as_repeat(fact: &Fact, request: &[u8]) -> Option<Repeat>
    ensures { result ≡ spots.repeated request.now fact.now }
{
    match fact {
        Fact::Reply(reply) => Some(repeat_by(reply, request)),
        _ => None,
    }
}

/// Compares the given request with the request that is stored in the record at index `place`, or
/// returns `None` if the record has no request.
pub(crate) fn repeat_at(facts: &[Fact], place: usize, request: &[u8]) -> Option<Repeat>
    ensures { result ≡ spots.repeat_at request.now facts.now place }
{
    as_repeat(facts.get(place)?, request)
}
