// watch SHEET LOG: a line per instant, with its number, the answer, live, and clear or owed.
#![tactic(auto)]

use std::io;

fn main(rt: HostRuntime) -> io::Result<()> {
    programs::watch::run(&rt, 1, 2)
}
