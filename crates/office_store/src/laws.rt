//! Theorems that the tables of a store of metering records determine the records that they encode,
//! also after a crash.

mod laws;

pub use laws::{
    databases_give_their_records, found_files_keep_theirs, left_facts_are_found,
    new_files_have_none, newest_files_have_theirs, opened_files_keep_theirs,
    tables_give_their_records,
};
