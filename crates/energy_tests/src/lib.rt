//! Tests which readings are accepted, the energy by quarter hour and civil day, and the history of
//! one meter.
#![tactic(auto)]

#[cfg(test)]
mod admission;
#[cfg(test)]
mod audits;
#[cfg(test)]
mod books;
#[cfg(test)]
mod corrections;
#[cfg(test)]
mod counters;
#[cfg(test)]
mod days;
#[cfg(test)]
mod fault_texts;
#[cfg(test)]
mod joined_shares;
#[cfg(test)]
mod journal_rows;
#[cfg(test)]
mod numbers;
#[cfg(test)]
mod samples;
#[cfg(test)]
mod shares;
#[cfg(test)]
mod terms;
#[cfg(test)]
mod texts;
#[cfg(test)]
mod verdicts;
#[cfg(test)]
mod zones;
