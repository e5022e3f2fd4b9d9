//! Checks successive database files, the oldest first. Each file must have the time zone of the
//! earlier files, and must continue their meters.
ghost use Rattle.std.specs.Prelude.{◌≡◌, ◌++◌, [], Some, None, IfOk, OnOk, option_map};
ghost use Rattle.table_seals.specs.Joins.{known_of, known_with};

use crate::filed::FiledOffice;
use crate::joins::append_join_lines;
use std::alloc::{AllocError, Global};

/// Merges the data of the earlier files and of the next file. The meters of the next file come
/// first in the merged list.
fn with_next<'a>(
    known: FiledOffice<'a>,
    next: FiledOffice<'a>,
) -> Result<FiledOffice<'a>, AllocError>
    ensures { IfOk result (λ all. known_of all
        ≡ known_with (known_of known.entry) (known_of next.entry)) }
{
    let mut before = known.meters;
    let mut meters = next.meters;
    let latest = meters.len();
    meters.append(&mut before)?;
    Ok(FiledOffice {
        file: next.file,
        zone: next.zone,
        meters,
        latest,
    })
}

/// The result of checking successive database files, the oldest first. It has the meters of these
/// files, and a line for each difference by which a file does not continue the earlier files.
#[derive(Drop)]
pub struct Joining<'a> {
    pub known: Option<FiledOffice<'a>>,
    pub lines: Vec<Vec<u8>>,
}

impl<'a> Joining<'a> {
    ghost use Rattle.table_seals.specs.Joins.{after_next, joins_after};
    ghost use Rattle.table_seals.specs.JoinTexts.{lines_of, texts_of};

    /// Creates the state of a check of successive database files that has not read a file yet. The
    /// function stores the allocator, and allocates no memory.
    pub fn new(alloc: Global) -> Joining<'a>
        ensures none { result.known ≡ None }
        ensures lines { result.lines.items ≡ [] }
    {
        Joining {
            known: None,
            lines: Vec::new(alloc),
        }
    }

    /// Adds the next file to the checked files, and appends a line for each difference by which it
    /// does not continue the earlier files. If memory runs out, some lines may be missing, and the
    /// data in `known` are lost.
    pub fn join(&mut self, alloc: Global, next: FiledOffice<'a>) -> Result<(), AllocError>
        ensures lines { OnOk result (texts_of self.new.lines.items ≡ texts_of self.old.lines.items
            ++ lines_of (joins_after (option_map known_of self.old.known) (known_of next.entry))) }
        ensures known { OnOk result (option_map known_of self.new.known
            ≡ Some (after_next (option_map known_of self.old.known) (known_of next.entry))) }
    {
        let all = match self.known.take() {
            None => next,
            Some(known) => {
                append_join_lines(alloc, &mut self.lines, &known, &next)?;
                with_next(known, next)?
            }
        };
        self.known = Some(all);
        Ok(())
    }
}
