//! Calls the theorems that no other code calls. Each theorem is a function without effect, whose
//! contract states the theorem.
use crate::failing_commands::NoFiles;
use office_program::{MOST_FILE, inputs_act_once, requests_are_repeated};
use run_http::{chunks_form_response, entries_come_after, rows_before_stay, text_stays};

// Calls the theorems about copies of a meter's rows, chunks of responses, retried requests and
// entered inputs.
#[test]
fn theorems_are_called(rt: HostRuntime) {
    rows_before_stay();
    entries_come_after();
    text_stays();
    chunks_form_response();
    requests_are_repeated();
    inputs_act_once(&NoFiles);
    assert!(rt; MOST_FILE == 65_536);
}
