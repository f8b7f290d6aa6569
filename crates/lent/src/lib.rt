// The monitor in words that a caller lends: opened, observed and read there.
#![tactic(auto)]

pub mod live;
pub mod rows_limits;
pub mod state;
pub mod unused;
