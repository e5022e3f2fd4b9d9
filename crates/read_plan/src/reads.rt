//! Creates the plan of reads for a list of items. An item is a range of registers (a point and its
//! scale factor) that one read must contain.
ghost use Rattle.std.specs.Prelude.{◌<◌, IfOk};
ghost use Rattle.std.specs.List.{All, AllPairs, AllZip, Contains};
ghost use Rattle.read_plan.specs.Beginnings.{ReadsFrom};
ghost use Rattle.read_plan.specs.Plans.{EndsBefore, FollowsRule, IsReadable};

use crate::beginnings::{beginnings, end_within_reach};
use crate::order::{by_end, by_first};
use crate::run::Run;
use mb_wire::ADDRESSES;
use std::alloc::{AllocError, Global};

// Returns one read for each item (register range) of `begins`, at which the read starts. `items`
// must be in order of function, area number (no read has registers of two areas) and last register.
fn reads_from(alloc: Global, items: &[Run], begins: &[Run]) -> Result<Vec<Run>, AllocError>
    requires ordered { AllPairs (λ a b. ¬ EndsBefore b a) items.now }
    requires among { All (Contains items.now) begins.now }
    requires readable { All IsReadable begins.now }
    requires inside { All (λ item. item.first < ADDRESSES) begins.now }
    ensures { IfOk result (λ v. AllZip (ReadsFrom items.now) begins.now v.items) }
{
    let mut reads = Vec::new(alloc);
    for begin in begins {
        let end = end_within_reach(items, begin);
        reads.push(Run { end, ..*begin })?;
    }
    Ok(reads)
}

/// Returns the reads, each of 1 to 125 registers, that the planning rule gives for the items
/// (ranges that one read must contain). By the rule, each read begins at the first uncovered
/// register and covers as much as possible.
pub fn rule_reads(alloc: Global, items: &[Run]) -> Result<Vec<Run>, AllocError>
    requires readable { All IsReadable items.now }
    requires inside { All (λ item. item.first < ADDRESSES) items.now }
    ensures { IfOk result (λ v. FollowsRule items.now v.items) }
{
    let in_order = by_first(alloc, items)?;
    let begins = beginnings(alloc, &in_order)?;
    let by_ends = by_end(alloc, items)?;
    reads_from(alloc, &by_ends, &begins)
}
