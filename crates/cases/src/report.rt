// What a report is made of: words, numbers, and rows of what is counted.
ghost use Rattle.std.specs.Prelude.{◌≤◌};

use crate::tally::{Tally, counted};
use std::io;

// Ends a label.
const LABEL_END: u8 = b'\n';

pub fn say(rt: &impl Print, words: &[u8]) -> io::Result<()> {
    rt.write_all(words)
}

pub fn number(rt: &impl Print, n: u64) -> io::Result<()> {
    print!(rt; "{n}")
}

// A row: what is counted, and how often.
fn row(rt: &impl Print, label: &[u8], n: u64) -> io::Result<()> {
    say(rt, b"  ")?;
    say(rt, label)?;
    say(rt, b": ")?;
    number(rt, n)?;
    say(rt, b"\n")
}

// A row for each label, of the places from the first on.
pub fn rows(rt: &impl Print, t: Tally, first: usize, labels: &[u8]) -> io::Result<()>
    requires { first ≤ 64 }
{
    let mut at = first;
    let mut from = 0;
    for (i, b) in labels.iter().enumerate() {
        if *b == LABEL_END {
            row(rt, &labels[from..i], counted(t, at))?;
            at += 1;
            from = i + 1;
        }
    }
    Ok(())
}

// The rows of the four answers, from the place of the first on.
pub fn answers(rt: &impl Print, t: Tally, first: usize) -> io::Result<()>
    requires { first ≤ 60 }
{
    rows(
        rt,
        t,
        first,
        b"holding, clear\nholding, owed\nbroken\nexhausted\n",
    )
}
