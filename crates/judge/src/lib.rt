// The monitor: what is held of a lift, opened by a sheet, taken on by an instant, and what it answers.
#![tactic(auto)]

pub mod answer;
pub mod limits;
pub mod monitor;
pub mod progress;
pub mod start;
pub mod stored;
