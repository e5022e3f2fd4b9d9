//! A set of the terms of all installed meters: index, name, accounting register (an energy counter)
//! and ceiling (maximum power). The check of a seal (digests of earlier records) looks up the
//! seal's meters in it.
ghost use Rattle.std.specs.Prelude.{IfOk, OnOk};
ghost use Rattle.table_seals.specs.Installed.{AddsTerms, AddsTermsOf, AreTermsOf, ReportsInstalled};
ghost use Rattle.table_seals.specs.Sealed.{sealed_of};

use crate::seals::MeterSeal;
use crate::tables::{Terms, terms_of};
use sqlite::Row;
use std::alloc::{AllocError, Global};
use std::collections::BTreeSet;

/// Adds a meter's terms (name, register, maximum power) to the set `known`.
fn add(known: &mut BTreeSet<Terms>, terms: Terms) -> Result<(), AllocError>
    ensures { OnOk result (AddsTerms terms known.old known.new) }
{
    known.insert(terms)?;
    Ok(())
}

/// Adds the terms (name, register, maximum power) of an `installations` row to the set `known`.
/// Adds nothing if a name is not a text, or the maximum power is out of its range.
fn add_row(known: &mut BTreeSet<Terms>, row: &Row) -> Result<(), AllocError>
    ensures { OnOk result (AddsTermsOf row.now known.old known.new) }
{
    match terms_of(row)? {
        Some(terms) => {
            add(known, terms)?;
            Ok(())
        }
        None => Ok(()),
    }
}

/// Collects the terms (name, register, maximum power) of all rows of `installations`. The ordered
/// set makes looking up a sealed meter fast.
pub(crate) fn terms_in(alloc: Global, installed: &[Row]) -> Result<BTreeSet<Terms>, AllocError>
    ensures { IfOk result (AreTermsOf installed.now) }
{
    let mut known = BTreeSet::new(alloc);
    for row in installed {
        add_row(&mut known, row)?;
    }
    Ok(known)
}

/// Returns whether the set `known` contains the terms (name, register, maximum power) in a meter's
/// seal (digests of earlier records). `known` has the terms of all installed meters.
pub(crate) fn is_installed(known: &BTreeSet<Terms>, seal: &MeterSeal) -> Result<bool, AllocError>
    ensures { IfOk result (ReportsInstalled known.now (sealed_of seal.now)) }
{
    let terms = Terms {
        place: seal.place,
        meter: seal.meter.clone()?,
        register: seal.register.clone()?,
        ceiling: seal.ceiling,
    };
    Ok(known.contains(&terms))
}
