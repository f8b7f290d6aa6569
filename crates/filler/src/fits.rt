// When a filled run fits.
ghost use Rattle.std.specs.Prelude.{◌≤◌};

use crate::history::Filled;
use crate::obligation::{Obligation, is_kept};
use crate::sentence::{
    counted, delayed, excludes, implies, kills, never_falls, relation, strictly, weakly,
};
use records::line::Line;
use records::sheet::{Sheet, line_at};

// How many lines a sheet has, at most 16.
pub(crate) fn line_count(s: Sheet) -> usize
    ensures { result ≤ 16 }
{
    s.count.min(16)
}

// What a sporadic line begins.
pub(crate) fn sporadic(a: u8, b: u8, t: i16) -> Obligation {
    Obligation {
        clock: a,
        on: b,
        due: i64::from(t),
    }
}

// What a line says.
fn line_fits(f: &[Filled], l: Line) -> bool {
    match l {
        Line::Sporadic { a, b, t } => is_kept(f, sporadic(a, b, t)),
        Line::Relation { a, b, p, q } => relation(f, a, b, p, q),
        Line::Implies { a, b } => implies(f, a, b),
        Line::Excludes { a, b } => excludes(f, a, b),
        Line::Delayed { a, b, d, by } => delayed(f, a, b, d, by),
        Line::Weakly { a, b } => weakly(f, a, b),
        Line::Strictly { a, b } => strictly(f, a, b),
        Line::Kills { a, b } => kills(f, a, b),
        Line::Counted { a, b, d, n } => counted(f, a, b, d, n),
    }
}

// What each line of a sheet says.
fn lines_fit(s: Sheet, f: &[Filled]) -> bool {
    (0..line_count(s)).all(|i| line_fits(f, line_at(s, i)))
}

// What every run keeps to, and what the sheet says.
pub(crate) fn fits(s: Sheet, f: &[Filled]) -> bool {
    never_falls(f) && lines_fit(s, f)
}
