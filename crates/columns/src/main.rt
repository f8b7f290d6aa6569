// columns SHEET LOG: a line per tag, with its raw word and the count in hundredths of a degree.
#![tactic(auto)]

use std::io;

fn main(rt: HostRuntime) -> io::Result<()> {
    programs::columns::run(&rt, 1, 2)
}
