// Whole logs, and the calls for C and Rust, held against a judge that tries every filling of the whole run.
#![tactic(auto)]

mod compare;
mod due;
mod faulty;
mod made;
mod report;
mod tally;

use cases::tally::TALLY_PLACES;
use std::io;

fn main(rt: HostRuntime) -> io::Result<()> {
    report::table(&rt, made::all([0u64; TALLY_PLACES]))
}
