//! Tests for cases that no script (a text of commands, events and queries) can test. They cover
//! failing connections, streams and stores, stores with caches, polling rounds, schedules, and the
//! reports of `sunreg run`. Other tests cover inputs of megabytes, values that no script prints,
//! and the values of arguments.
//!
//! Cases that can be tested by a script are golden tests of `tests/scripts`, and
//! `tests/arguments.py` tests help and wrong arguments.
#![tactic(auto)]

#[cfg(test)]
mod answers;
#[cfg(test)]
mod benches;
#[cfg(test)]
mod client_slots;
#[cfg(test)]
mod facts;
#[cfg(test)]
mod failing_links;
#[cfg(test)]
mod failures;
#[cfg(test)]
mod faults;
#[cfg(test)]
mod headline;
#[cfg(test)]
mod inputs;
#[cfg(test)]
mod kept_answers;
#[cfg(test)]
mod led_files;
#[cfg(test)]
mod lines;
#[cfg(test)]
mod links;
#[cfg(test)]
mod look_ups;
#[cfg(test)]
mod loops;
#[cfg(test)]
mod names;
#[cfg(test)]
mod observer;
#[cfg(test)]
mod offices;
#[cfg(test)]
mod parts;
#[cfg(test)]
mod periods;
#[cfg(test)]
mod printing;
#[cfg(test)]
mod refusing_books;
#[cfg(test)]
mod requests;
#[cfg(test)]
mod right_words;
#[cfg(test)]
mod round_cases;
#[cfg(test)]
mod rounds;
#[cfg(test)]
mod rows;
#[cfg(test)]
mod run_monitors;
#[cfg(test)]
mod runs;
#[cfg(test)]
mod sayings;
#[cfg(test)]
mod scans;
#[cfg(test)]
mod schedule;
#[cfg(test)]
mod scripts;
#[cfg(test)]
mod site;
#[cfg(test)]
mod status;
#[cfg(test)]
mod steps;
#[cfg(test)]
mod streams;
#[cfg(test)]
mod tried;
#[cfg(test)]
mod turns;
#[cfg(test)]
mod writers;
