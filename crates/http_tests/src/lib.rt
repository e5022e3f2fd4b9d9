//! Tests of HTTP and of the program's commands, for cases that golden tests cannot show. These
//! cases are connections and databases that fail, sockets, damaged rows, and numbers that no
//! database reaches.
#![tactic(auto)]

#[cfg(test)]
mod answers;
#[cfg(test)]
mod book_failures;
#[cfg(test)]
mod cases;
#[cfg(test)]
mod clients;
#[cfg(test)]
mod commands;
#[cfg(test)]
mod connections;
#[cfg(test)]
mod days;
#[cfg(test)]
mod energy_over;
#[cfg(test)]
mod failing_commands;
#[cfg(test)]
mod faults;
#[cfg(test)]
mod laws;
#[cfg(test)]
mod links;
#[cfg(test)]
mod office;
#[cfg(test)]
mod office_requests;
#[cfg(test)]
mod pieces;
#[cfg(test)]
mod row_lines;
#[cfg(test)]
mod run_questions;
#[cfg(test)]
mod site_over;
#[cfg(test)]
mod sockets;
#[cfg(test)]
mod stops;
#[cfg(test)]
mod tables;
#[cfg(test)]
mod times;
