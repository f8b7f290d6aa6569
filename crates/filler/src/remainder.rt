// The remainder of a filled run that fits, from the whole run.
ghost use Rattle.std.specs.Prelude.{◌<◌};

use crate::few::Few;
use crate::fits::{line_count, sporadic};
use crate::history::Filled;
use crate::obligation::{Obligation, begun_at, is_met};
use crate::sentence::{has_ticked, tick_count};
use records::line::Line;
use records::sheet::{Sheet, line_at};

// A set of obligations.
pub(crate) type Owed = Few<Obligation, 8>;

#[derive(Clone, Copy)]
pub(crate) struct Remainder {
    // The unmet obligations of sporadic and delay lines.
    pub(crate) owed: Owed,
    // Those of lines that count.
    pub(crate) counted: Owed,
    // Of a precedes line how far A's ticks lead B's, of any other 0.
    pub(crate) leads: [usize; 16],
    // The clocks that a kills line has stopped.
    pub(crate) stopped: [bool; 8],
}

// One of them wants a tick of this clock.
pub(crate) fn owes_tick(owed: &Owed, clock: u8) -> bool {
    owed.all().iter().any(|o| o.clock == clock)
}

// With one obligation more, which counts once; none where it would be the ninth, here and below.
fn with_obligation(owed: Owed, o: Obligation) -> Option<Owed> {
    if owed.all().contains(&o) {
        Some(owed)
    } else {
        owed.with(o)
    }
}

// With one obligation more, unless one of the instants meets it.
fn with_unmet(f: &[Filled], o: Obligation, owed: Owed) -> Option<Owed> {
    if is_met(f, o) {
        Some(owed)
    } else {
        with_obligation(owed, o)
    }
}

// The greatest tag.
const MOST_TAG: i64 = 32767;

// With what a tick of a delay line begins, unless its due would exceed the greatest tag, or a later instant meets it.
fn with_begun(later: &[Filled], o: Obligation, owed: Owed) -> Option<Owed> {
    if MOST_TAG < o.due {
        Some(owed)
    } else {
        with_unmet(later, o, owed)
    }
}

// With what the ticks of A of a delay line begin and no later instant meets.
fn with_delayed(f: &[Filled], a: u8, b: u8, d: u8, by: u16, owed: Owed) -> Option<Owed> {
    let mut all = owed;
    for (i, v) in f.iter().enumerate() {
        if v.ticks(a) {
            all = with_begun(&f[i + 1..], begun_at(v, b, d, by), all)?;
        }
    }
    Some(all)
}

// With what a tick of A still wants after the later instants: the ticks of B that are left of its number, then one of D.
fn with_wanted(later: &[Filled], b: u8, d: u8, number: u8, all: Owed) -> Option<Owed> {
    let wanted = usize::from(number);
    let ticks = tick_count(later, b);
    if ticks < wanted {
        let due = (wanted - ticks) as i64;
        return with_obligation(
            all,
            Obligation {
                clock: d,
                on: b,
                due,
            },
        );
    }
    Some(all)
}

// With what the ticks of A of a line that counts still want.
fn with_counted(f: &[Filled], a: u8, b: u8, d: u8, number: u8, counted: Owed) -> Option<Owed> {
    let mut all = counted;
    for (i, v) in f.iter().enumerate() {
        if v.ticks(a) {
            all = with_wanted(&f[i + 1..], b, d, number, all)?;
        }
    }
    Some(all)
}

// A's ticks minus B's, which may wrap: two are equal where the differences are.
fn lead(f: &[Filled], a: u8, b: u8) -> usize {
    tick_count(f, a).wrapping_sub(tick_count(f, b))
}

// A kills line stops its B, once its A has ticked.
fn with_killed(f: &[Filled], a: u8, b: u8, mut stopped: [bool; 8]) -> [bool; 8] {
    let k = usize::from(b);
    if k < 8 && has_ticked(f, a) {
        stopped[k] = true;
    }
    stopped
}

// No obligation.
fn none_owed() -> Owed {
    let none = Obligation {
        clock: 0,
        on: 0,
        due: 0,
    };
    Few::none(none)
}

// Nothing is owed, no clock leads, none is stopped.
pub(crate) fn no_remainder() -> Remainder {
    Remainder {
        owed: none_owed(),
        counted: none_owed(),
        leads: [0; 16],
        stopped: [false; 8],
    }
}

// With what the line at a place leaves.
fn with_line(f: &[Filled], i: usize, l: Line, mut r: Remainder) -> Option<Remainder>
    requires { i < 16 }
{
    match l {
        Line::Sporadic { a, b, t } => r.owed = with_unmet(f, sporadic(a, b, t), r.owed)?,
        Line::Delayed { a, b, d, by } => r.owed = with_delayed(f, a, b, d, by, r.owed)?,
        Line::Counted { a, b, d, n } => r.counted = with_counted(f, a, b, d, n, r.counted)?,
        Line::Weakly { a, b } | Line::Strictly { a, b } => r.leads[i] = lead(f, a, b),
        Line::Kills { a, b } => r.stopped = with_killed(f, a, b, r.stopped),
        Line::Relation { .. } | Line::Implies { .. } | Line::Excludes { .. } => {}
    }
    Some(r)
}

// What each line of the sheet leaves; none where more than 8 obligations of sporadic and delay lines are left, or more than 8 of lines that count.
pub(crate) fn remainder_of(s: Sheet, f: &[Filled]) -> Option<Remainder> {
    let mut r = no_remainder();
    for i in 0..line_count(s) {
        r = with_line(f, i, line_at(s, i), r)?;
    }
    Some(r)
}
