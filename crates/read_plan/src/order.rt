//! Sorts register ranges by function, area number and register, as plans of Modbus reads require.
//! Points with different area numbers are never in one read.
ghost use Rattle.std.specs.Prelude.{IfOk};
ghost use Rattle.std.specs.List.{AllPairs};
ghost use Rattle.std.specs.List.Sorted.{IsPermutation};
ghost use Rattle.read_plan.specs.Plans.{ComesBefore, EndsBefore};

use crate::run::Run;
use std::alloc::{AllocError, Global};

/// Returns the register ranges in order of function, area number and first register. Points with
/// different area numbers are never in one Modbus read.
pub fn by_first(alloc: Global, runs: &[Run]) -> Result<Vec<Run>, AllocError>
    ensures same { IfOk result (λ v. IsPermutation runs.now v.items) }
    ensures ordered { IfOk result (λ v. AllPairs (λ a b. ¬ ComesBefore b a) v.items) }
{
    let mut sorted = runs.to_vec(alloc)?;
    sorted.sort_by_key(|run| (run.function.code(), run.area, run.first))?;
    Ok(sorted)
}

/// Returns the register ranges in order of function, area number (no read has registers of two
/// areas) and last register.
pub fn by_end(alloc: Global, runs: &[Run]) -> Result<Vec<Run>, AllocError>
    ensures same { IfOk result (λ v. IsPermutation runs.now v.items) }
    ensures ordered { IfOk result (λ v. AllPairs (λ a b. ¬ EndsBefore b a) v.items) }
{
    let mut sorted = runs.to_vec(alloc)?;
    sorted.sort_by_key(|run| (run.function.code(), run.area, run.end))?;
    Ok(sorted)
}
