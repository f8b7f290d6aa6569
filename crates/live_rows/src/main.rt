// The calls on a state of words, for C and Rust: a row per call, with the whole result.
#![tactic(auto)]

mod altered;
mod altered_countdowns;
mod countdowns;
mod full;
mod listing;
mod long_delay;
mod numbered;
mod place;
mod reopened;
mod row;
mod same;
mod scale;
mod state;

use std::io;

fn main(rt: HostRuntime) -> io::Result<()> {
    listing::plain(&rt)?;
    listing::with_refusals(&rt)?;
    numbered::all(&rt)?;
    long_delay::ticks(&rt)?;
    long_delay::unseen_ticks(&rt)?;
    long_delay::restarted(&rt)?;
    countdowns::fourth_pulse(&rt)?;
    countdowns::many(&rt)?;
    scale::all(&rt)?;
    altered::outside(&rt)?;
    altered::at_limits(&rt)?;
    altered::unused(&rt)?;
    altered_countdowns::outside(&rt)?;
    altered_countdowns::at_limits(&rt)?;
    altered::no_monitor(&rt)?;
    reopened::all(&rt)?;
    full::run(&rt)
}
