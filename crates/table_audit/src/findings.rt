//! The findings of an audit of all tables: each discrepancy that was found, with the name of its
//! meter.
ghost use Rattle.std.specs.Prelude.{◌≡◌, ◌≤◌, ◌+◌, ◌-◌, ◌++◌, ◌∷◌, [], length, take, IsTrue, ◌↔◌};
ghost use Rattle.std.specs.Prelude.{IfOk, OnOk, Some, None};
ghost use Rattle.table_audit.specs.Named.{IsUnder};

use crate::differences::{Difference, MOST};
use crate::rows::MeterRows;
use std::alloc::{AllocError, Global};

/// A discrepancy that an audit found, with the name of its meter.
#[derive(Drop)]
pub struct Finding {
    /// The name of the meter that the audit's finding is about. It is None if the finding is about
    /// a poll, or about a row of `installations` without a name.
    pub meter: Option<String>,
    pub difference: Difference,
}

/// How many rows of each kind an audit read.
#[derive(Clone, Copy, PartialEq, Eq)]
pub struct Counts {
    pub meters: u64,
    pub entries: u64,
    pub intervals: u64,
    pub polls: u64,
}

/// The first findings of an audit, the number of further findings, and how many rows were read.
#[derive(Drop)]
pub struct Findings {
    pub first: Vec<Finding>,
    pub more: u64,
    pub counts: Counts,
}

impl Findings {
    ghost use Rattle.table_audit.specs.Meters.{none_counted, counted, up_to_most};
    ghost use Rattle.table_audit.specs.Named.{KeepsFirst, IsReported};
    ghost use Rattle.table_audit.specs.Polls.{counting_polls};

    /// Creates an empty list of an audit's findings (discrepancies), with all counts 0.
    pub(crate) fn new(alloc: Global) -> Findings
        ensures none { result.first.items ≡ [] }
        ensures more { result.more ≡ 0 }
        ensures counts { result.counts ≡ none_counted }
    {
        Findings {
            first: Vec::new(alloc),
            more: 0,
            counts: Counts {
                meters: 0,
                entries: 0,
                intervals: 0,
                polls: 0,
            },
        }
    }

    /// Returns whether the audit found no discrepancy.
    pub fn is_fine(&self) -> bool
        ensures { IsTrue result ↔ (self.now.first.items ≡ []) }
    {
        self.first.is_empty()
    }

    /// Appends a finding (a discrepancy) to the audit's list, or only counts it if the list already
    /// has `MOST` findings.
    pub(crate) fn push(&mut self, finding: Finding) -> Result<(), AllocError>
        requires few { length self.old.first.items ≤ MOST }
        ensures kept { OnOk result (self.new.first.items
            ≡ take MOST (self.old.first.items ++ finding ∷ [])) }
        ensures more { OnOk result (self.new.more
            ≡ up_to_most (self.old.more + (length self.old.first.items + 1 - MOST))) }
        ensures counts { OnOk result (self.new.counts ≡ self.old.counts) }
        ensures few { OnOk result (length self.new.first.items ≤ MOST) }
    {
        let more = self.more;
        if self.first.len() < MOST {
            self.first.push(finding)?;
        } else {
            self.more = more.saturating_add(1);
        }
        Ok(())
    }

    /// Appends the discrepancies of a meter as findings with the meter's name. Adds `more`, the
    /// number of the meter's further discrepancies, to the number of further findings.
    pub(crate) fn append_differences(
        &mut self,
        alloc: Global,
        meter: &str,
        found: &[Difference],
        more: u64,
    ) -> Result<(), AllocError>
        requires few { length self.old.first.items ≤ MOST }
        ensures first { OnOk result
            (KeepsFirst meter.now found.now self.old self.new) }
        ensures more { OnOk result (self.new.more ≡ up_to_most (self.old.more
            + (length self.old.first.items + length found.now - MOST) + more)) }
        ensures counts { OnOk result (self.new.counts ≡ self.old.counts) }
        ensures few { OnOk result (length self.new.first.items ≤ MOST) }
    {
        let _so_far = self.more;
        for difference in found {
            let finding = under(alloc, meter, difference)?;
            self.push(finding)?;
        }
        self.more = self.more.saturating_add(more);
        Ok(())
    }

    /// Appends discrepancies that belong to no meter as findings without a name.
    pub(crate) fn append_all(&mut self, found: &[Difference]) -> Result<(), AllocError>
        requires few { length self.old.first.items ≤ MOST }
        ensures reported { OnOk result (IsReported found.now self.old self.new) }
        ensures few { OnOk result (length self.new.first.items ≤ MOST) }
    {
        for difference in found {
            let finding = alone(difference);
            self.push(finding)?;
        }
        Ok(())
    }

    /// Adds a meter, its entries and its interval rows (energies of quarter hours) to the audit's
    /// counts of rows.
    pub(crate) fn count(&mut self, rows: &MeterRows)
        ensures counts { self.new.counts ≡ counted (Some rows.now) self.old.counts }
        ensures first { self.new.first ≡ self.old.first }
    {
        let entries = rows.entries.len() as u64;
        let intervals = rows.intervals.len() as u64;
        self.counts = Counts {
            meters: self.counts.meters.saturating_add(1),
            entries: self.counts.entries.saturating_add(entries),
            intervals: self.counts.intervals.saturating_add(intervals),
            polls: self.counts.polls,
        };
    }

    /// Counts a row of `installations` that has no meter's name as a meter without entries.
    pub(crate) fn count_unnamed(&mut self)
        ensures counts { self.new.counts ≡ counted None self.old.counts }
        ensures first { self.new.first ≡ self.old.first }
    {
        self.counts.meters = self.counts.meters.saturating_add(1);
    }

    /// Sets the count of the polls that the audit read.
    pub(crate) fn count_polls(&mut self, polls: u64)
        ensures { self.new ≡ counting_polls polls self.old }
    {
        self.counts.polls = polls;
    }
}

/// Builds a finding from a discrepancy and the name of the meter in which the audit found it.
fn under(alloc: Global, meter: &str, difference: &Difference) -> Result<Finding, AllocError>
    ensures meter { IfOk result (IsUnder meter.now) }
    ensures difference { IfOk result (λ finding. finding.difference ≡ difference.now) }
{
    let name = String::from_str(alloc, meter)?;
    Ok(Finding {
        meter: Some(name),
        difference: *difference,
    })
}

/// Builds a finding of an audit, without a meter's name, from a discrepancy.
fn alone(difference: &Difference) -> Finding
    ensures meter { result.meter ≡ None }
    ensures difference { result.difference ≡ difference.now }
{
    Finding {
        meter: None,
        difference: *difference,
    }
}
