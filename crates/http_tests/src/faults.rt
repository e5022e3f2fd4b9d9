//! Tests of the error texts of HTTP requests.
use office_http::messages::{BodyFault, CommandFault, TakeFault};
use point_list::{FaultyRow, FaultyRows, RowFault};
use std::alloc::Global;
use std::fmt::Display;
use std::process::Abort;

// Asserts that the text of each fault equals the text paired with it, and has no full stop.
fn assert_texts<F: Display>(rt: &impl Abort, alloc: Global, texts: &[(F, &str)]) {
    for (fault, text) in texts {
        let printed = format!(in alloc; "{fault}").expect(rt, "no memory");
        assert!(rt; printed.as_str() == *text, "{text}");
        assert!(rt; !text.ends_with('.'));
    }
}

const BODIES: [(BodyFault, &str); 3] = [
    (
        BodyFault::Malformed,
        "the body is no JSON, or a member that is wanted is missing or of another kind",
    ),
    (BodyFault::Negative, "a number of the body is negative"),
    (BodyFault::Memory, "memory ran out"),
];

const TAKES: [(TakeFault, &str); 3] = [
    (TakeFault::Read, "a read of the connection failed"),
    (TakeFault::Short, "the input ended inside the request"),
    (
        TakeFault::TurnsUsed,
        "the request was not whole after 100000 reads",
    ),
];

// Returns the fault of a command whose point list has one faulty row.
fn faulty(rt: &impl Abort, alloc: Global) -> CommandFault {
    let row = FaultyRow {
        row: 2,
        fault: RowFault::Function,
    };
    CommandFault::Faulty(FaultyRows::new(vec![in alloc; row].expect(rt, "no memory")))
}

// Each fault of a request body, of a read and of a command has its error text.
#[test]
fn faults_have_sentences(rt: HostRuntime) {
    assert_texts(&rt, rt.alloc(), &BODIES);
    assert_texts(&rt, rt.alloc(), &TAKES);
    let commands = [
        (
            CommandFault::Malformed,
            "the body is no JSON object, or a member that is wanted is missing or of another kind",
        ),
        (CommandFault::Negative, "a number of the body is negative"),
        (faulty(&rt, rt.alloc()), "row 2: the function is not 3 or 4"),
        (CommandFault::Memory, "memory ran out"),
    ];
    assert_texts(&rt, rt.alloc(), &commands)
}
