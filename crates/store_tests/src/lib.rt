//! Tests of a store in a SQLite database: crashes at each call to its files, failures, and records
//! that the tables refuse. Also tests the exit statuses and messages of commands on database files.
//! Golden tests (stored input and output texts) and tests of the program cover everything else.
#![tactic(auto)]

#[cfg(test)]
mod acts;
#[cfg(test)]
mod advice;
#[cfg(test)]
mod damage;
#[cfg(test)]
mod databases;
#[cfg(test)]
mod endings;
#[cfg(test)]
mod failures;
#[cfg(test)]
mod fault_texts;
#[cfg(test)]
mod held_readings;
#[cfg(test)]
mod joins;
#[cfg(test)]
mod laws;
#[cfg(test)]
mod made;
#[cfg(test)]
mod new_books;
#[cfg(test)]
mod refused_facts;
#[cfg(test)]
mod stops;
#[cfg(test)]
mod tables;
#[cfg(test)]
mod task_ends;
#[cfg(test)]
mod unwaited_lines;
