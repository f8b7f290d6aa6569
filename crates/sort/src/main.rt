// sort SHEET: the bytes of the sheet whose lines are sorted, repeats dropped.
#![tactic(auto)]

use std::io;

fn main(rt: HostRuntime) -> io::Result<()> {
    programs::sort::run(&rt, 1)
}
