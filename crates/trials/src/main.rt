// The monitor held against a judge that tries every filling of the whole run, and against itself on the same sheet in another order: document 01's lift examples, then made cases, of at most four clocks and of five to eight, and drivers that send numbered records out of turn.
#![tactic(auto)]

mod driver;
mod lift;
mod made;
mod others;
mod reply;
mod report;
mod scale;
mod tally;
mod text;
mod trial;

use cases::tally::{Ended, TALLY_PLACES, Tally};
use std::io;

const NARROW_CASES: u64 = 24000;

const WIDE_CASES: u64 = 4800;

const DRIVER_CASES: u64 = 4000;

// So many cases of a sort, from the first number of the sequence. An array in a field is read into a variable before it is handed on: the proof of the function asks for it.
fn all<F: Fn(u64, u64, Tally) -> Ended>(cases: u64, tally: Tally, case: F) -> Tally
    requires { F.IsAlwaysCallable case }
{
    let mut e = Ended { last: 1, tally };
    for number in 0..cases {
        let told = e.tally;
        e = case(number, e.last, told);
    }
    let told = e.tally;
    told
}

fn main(rt: HostRuntime) -> io::Result<()> {
    let none = [0; TALLY_PLACES];
    let lifted = lift::all(&rt, none)?;
    report::table(&rt, all(NARROW_CASES, lifted, made::narrow_case))?;
    report::wide_table(&rt, all(WIDE_CASES, none, made::wide_case))?;
    report::driver_table(&rt, all(DRIVER_CASES, none, driver::case))
}
