//! Checks the texts of causes of rejected readings, and of faults.
use std::alloc::Global;
use std::fmt::Display;
use std::process::Abort;

/// Asserts that each of the given faults is printed as its expected text, and that no text ends
/// with a full stop.
pub(crate) fn assert_texts<F: Display>(rt: &impl Abort, alloc: Global, texts: &[(F, &str)]) {
    for (fault, text) in texts {
        let said = format!(in alloc; "{fault}").expect(rt, "no memory");
        assert!(rt; said.as_str() == *text, "{text}");
        assert!(rt; !text.ends_with('.'));
    }
}
