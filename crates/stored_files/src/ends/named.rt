//! Prints file names in messages.
use std::fmt;
use std::fmt::{Display, Formatter};

/// The name of a file in a message. A line feed in the name is printed as `\x0a`, so that the
/// message stays on one line.
#[derive(Clone, Copy)]
pub struct Named<'a>(pub &'a str);

impl<'a> Display for Named<'a> {
    fn fmt<W: fmt::Write>(&self, f: &mut Formatter<W>) -> fmt::Result {
        let mut is_first = true;
        for part in self.0.split('\n') {
            if !is_first {
                f.write_str("\\x0a")?;
            }
            f.write_str(part)?;
            is_first = false;
        }
        Ok(())
    }
}
