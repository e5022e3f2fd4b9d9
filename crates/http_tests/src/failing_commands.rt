//! Tests of the program's commands over a failing database, and of the exit statuses of polling
//! rounds.
use crate::office::metered;
use command_io::ExitStatus;
use mb_wire::sockets::FixedClock;
use memory_books::FailingBooks;
use office_books::Books;
use office_events::{Device, Register};
use office_program::{NamedFiles, RoundFault, Shown, enter_books, round_status};
use std::alloc::{AllocError, Global};

/// A replacement for the files and devices that commands in input lines can name. It has no files
/// and no counter values.
#[derive(Clone, Copy)]
pub(crate) struct NoFiles;

impl NamedFiles for NoFiles {
    fn read(&self, _alloc: Global, _name: &[u8]) -> Result<Option<Vec<u8>>, AllocError> {
        Ok(None)
    }

    fn shown(&self, _device: &Device, _register: &Register) -> Option<Shown> {
        None
    }
}

// Checks that a command in an input line is refused if the database fails. This includes a failing
// call that compares the energy with the meter's ceiling (greatest power): the user is then not
// asked to confirm.
#[test]
fn a_line_over_a_failing_store_is_refused(rt: HostRuntime) {
    for failing in 1..12 {
        let books = FailingBooks::new(metered(&rt, rt.alloc()).into_books(), failing);
        let mut clock = FixedClock::new(&[4600]);
        let mut printed = Vec::new(rt.alloc());
        let line = b"5 manual main 105002 0\n";
        let done = enter_books(
            rt.alloc(),
            books,
            "desk",
            line,
            &NoFiles,
            &mut clock,
            &mut printed,
        );
        let wanted = if done.books.faults() == 0 {
            b"doubted 100002000\n".as_slice()
        } else {
            b"refused 13\n".as_slice()
        };
        assert!(rt; done.end == ExitStatus::Refused);
        assert!(rt; printed.as_slice() == wanted, "{failing}");
    }
}

// A polling round that is not refused ends with exit status 0 or 3.
#[test]
fn each_end_of_a_round_has_its_status(rt: HostRuntime) {
    assert!(rt; round_status(Ok(())).number() == 0);
    for fault in [RoundFault::Link, RoundFault::Output, RoundFault::TurnsUsed] {
        assert!(rt; round_status(Err(fault)).number() == 3);
    }
}
