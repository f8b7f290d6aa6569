// The lines of a sheet, in the paper's words.
use records::line::Line;
use records::sheet::Sheet;
use std::io;

fn row(rt: &impl Print, l: Line) -> io::Result<()> {
    print!(rt; "    ")?;
    match l {
        Line::Sporadic { a, b, t } => println!(rt; "{a} sporadic {t} on {b}"),
        Line::Relation { a, b, p, q } => println!(rt; "{a} = {p} x {b} + {q}"),
        Line::Implies { a, b } => println!(rt; "{a} implies {b}"),
        Line::Excludes { a, b } => println!(rt; "{a} excludes {b}"),
        Line::Delayed { a, b, d, by } => println!(rt; "{a} delayed by {by} on {b} implies {d}"),
        Line::Weakly { a, b } => println!(rt; "{a} weakly precedes {b}"),
        Line::Strictly { a, b } => println!(rt; "{a} strictly precedes {b}"),
        Line::Kills { a, b } => println!(rt; "{a} kills {b}"),
        Line::Counted { a, b, d, n } => println!(rt; "{a} counted by {n} on {b} implies {d}"),
    }
}

// The lines of a sheet, a row each.
pub fn rows(rt: &impl Print, s: &Sheet) -> io::Result<()> {
    for line in s.lines.iter().take(s.count) {
        row(rt, *line)?;
    }
    Ok(())
}
