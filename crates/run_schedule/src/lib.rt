//! Decides when to poll each device, which HTTP clients to serve, in which file to record energy,
//! and whether that file still exists. All decisions depend on times, numbers and names only.
#![tactic(auto)]

mod file_marks;
mod http_clients;
mod periods;
mod timing;

pub use file_marks::{FileLoss, FileMark, file_loss};
pub use http_clients::{
    Admission, ClientSlots, MOST_CLIENTS, TurnShare, choose_slot, clients_for, little_is_held,
    may_reply, needed_limit, place_at, replies_are_few, turns_go_round, wanted_descriptors,
};
pub use periods::{
    ActivePeriod, Course, Plan, Rollover, active_period, course_at, file_of_period, last_round,
    next_try, nothing_goes_back, period_end, period_of_file, period_until, periods_before, plan_of,
};
pub use timing::{
    CLIENT_SECONDS, MOST_EVERY, OnwardTime, Phase, RunTime, SteadyClock, Timing, next_due,
    next_pause, retry_at, round_until,
};
