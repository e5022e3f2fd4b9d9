//! Tests everything that talks with devices: Modbus frames, requests, responses and connections,
//! the simulated device, and polling sessions. Other tests cover SunSpec points, chains of models,
//! scans, point lists, and the plans of their reads.
#![tactic(auto)]

#[cfg(test)]
mod answers;
#[cfg(test)]
mod bank;
#[cfg(test)]
mod bounds;
#[cfg(test)]
mod clock;
#[cfg(test)]
mod common_models;
#[cfg(test)]
mod devices;
#[cfg(test)]
mod examples;
#[cfg(test)]
mod failing_writers;
#[cfg(test)]
mod fault_texts;
#[cfg(test)]
mod first_poll;
#[cfg(test)]
mod frames;
#[cfg(test)]
mod given;
#[cfg(test)]
mod ids;
#[cfg(test)]
mod images;
#[cfg(test)]
mod lengths;
#[cfg(test)]
mod listed_chains;
#[cfg(test)]
mod lists_of_points;
#[cfg(test)]
mod memory_link;
#[cfg(test)]
mod outcomes;
#[cfg(test)]
mod point_values;
#[cfg(test)]
mod quantities;
#[cfg(test)]
mod read_counters;
#[cfg(test)]
mod replies;
#[cfg(test)]
mod requests;
#[cfg(test)]
mod scaled_values;
#[cfg(test)]
mod scales;
#[cfg(test)]
mod scans;
#[cfg(test)]
mod server;
#[cfg(test)]
mod session_end;
#[cfg(test)]
mod session_script;
#[cfg(test)]
mod several_polls;
#[cfg(test)]
mod spans;
#[cfg(test)]
mod stand_in_link;
#[cfg(test)]
mod tricks;
#[cfg(test)]
mod whole_banks;
#[cfg(test)]
mod written_lists;
