//! Finds what the devices lack when a run of `sunreg run` begins. For example, a device without a
//! point list in the store can't be polled.
ghost use Rattle.office_core.specs.Leaving.{BooksStand};
ghost use Rattle.office_books.specs.History.{History};
ghost use Rattle.office_program.specs.Texts.Passing.{Lasts};
ghost use Rattle.run_http.specs.Status.Advice.Lacks.{LooksUp};

use crate::settings::Site;
use office_books::Books;
use run_http::status::{DeviceLack, add_lacks};
use std::alloc::Global;

// Appends to `lacks` each thing that a device lacks for polling or recording, such as a point list.
// If the store or memory fails, the items that `lacks` already has stay.
fn add_of_site<B: Books>(lacks: &mut Vec<DeviceLack>, books: &mut B, site: &Site)
    ensures { LooksUp (B.ledger books.old) (B.ledger books.new) }
{
    let _found = add_lacks(lacks, books, &site.name);
}

/// Returns what each device lacks, such as a point list, according to the records of the store.
pub(crate) fn lacks_in<B: Books>(alloc: Global, books: &mut B, sites: &[Site]) -> Vec<DeviceLack>
    ensures stands { (past : History) → BooksStand (B.ledger books.old) past
        → BooksStand (B.ledger books.new) past }
    ensures lasts { Lasts (B.ledger books.old) (B.ledger books.new) }
{
    let mut lacks = Vec::new(alloc);
    for site in sites {
        add_of_site(&mut lacks, books, site);
    }
    lacks
}
