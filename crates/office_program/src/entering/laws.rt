//! Theorems on retries of single requests and of complete inputs (texts of request lines): a retry
//! is not executed again.
ghost use Rattle.office_program.specs.Entering.Repeats.{AreSteady, InputsActOnce, RequestsAreRepeated};
ghost use Rattle.office_program.specs.Entering.Lines.{reporting_of};

use crate::entering::files::NamedFiles;

/// Proves that if a request was accepted and is retried, then the answer reports that the request
/// was executed earlier. The request is not executed again.
pub fn requests_are_repeated()
    ensures { RequestsAreRepeated }
{}

/// Proves that if an input (a text of request lines) was entered completely, then entering the
/// input again has no effect. The theorem assumes that the files that the input names have the same
/// contents each time.
pub fn inputs_act_once<F: NamedFiles>(files: &F)
    ensures { AreSteady (reporting_of F.NamedFiles files.now)
        → InputsActOnce (reporting_of F.NamedFiles files.now) }
{}
