// A sheet's bytes with its lines out of order, and the refusals that are due.
use crate::plan::has_counted;
use crate::tape::{Tape, cut, sheet_tape, with_part};
use records::line::Line;
use records::number;
use records::refusal::Refusal;
use records::sheet::{Sheet, line_at};

#[derive(Clone, Copy)]
pub struct Disordered {
    // The bytes.
    pub tape: Tape,
    // Why they are refused where lines must rise.
    pub refusal: Refusal,
    // Why by document 01's rules, if they are.
    pub base: Option<Refusal>,
}

// The refusal by document 01's rules, from the one where lines must rise. A counted line is no line there, and no fault but of order stands before it.
fn base_refusal(s: Sheet, refusal: Refusal) -> Option<Refusal> {
    match refusal {
        _ if has_counted(s) => Some(Refusal::LineKind),
        Refusal::NotAbove => None,
        other => Some(other),
    }
}

// The bytes with both refusals.
fn with_refusals(s: Sheet, tape: Tape, refusal: Refusal) -> Disordered {
    Disordered {
        tape,
        refusal,
        base: base_refusal(s, refusal),
    }
}

// The bytes of a sheet up to the line at a place.
fn bytes_before(mut s: Sheet, i: usize) -> usize {
    s.count = i;
    sheet_tape(s).len
}

fn is_sporadic(l: Line) -> bool {
    matches!(l, Line::Sporadic { .. })
}

// Whether a sheet whose lines rise has eight sporadic ones: they stand before all others.
fn has_eight_sporadic(s: Sheet) -> bool {
    number::MAX_SPORADIC <= s.count && is_sporadic(line_at(s, number::MAX_SPORADIC - 1))
}

// Why a line of a sheet is refused where it stands once more, behind the last.
fn repeat_refusal(s: Sheet, l: Line) -> Refusal {
    if number::MAX_LINES <= s.count {
        Refusal::SeventeenthLine
    } else if is_sporadic(l) && has_eight_sporadic(s) {
        Refusal::NinthSporadic
    } else {
        Refusal::NotAbove
    }
}

// Of a sheet whose lines rise, the line at a place below 16 once more, behind the last.
pub fn repeated(s: Sheet, i: usize) -> Disordered {
    let at = i % number::MAX_LINES;
    let t = sheet_tape(s);
    let tape = with_part(t, t, bytes_before(s, at), bytes_before(s, at + 1));
    with_refusals(s, tape, repeat_refusal(s, line_at(s, at)))
}

// The bytes of a sheet with its lines from the last to the first.
fn from_last(s: Sheet) -> Tape {
    let t = sheet_tape(s);
    let mut lines = cut(t, bytes_before(s, 0));
    let mut end = t.len;
    for i in (0..s.count).rev() {
        let start = bytes_before(s, i);
        lines = with_part(lines, t, start, end);
        end = start;
    }
    lines
}

// Of a sheet of two lines or more that rise, the lines from the last to the first.
pub fn reversed(s: Sheet) -> Disordered {
    with_refusals(s, from_last(s), Refusal::NotAbove)
}

// The first line behind the last.
fn moved(s: Sheet) -> Disordered {
    let t = sheet_tape(s);
    let from = bytes_before(s, 0);
    let to = bytes_before(s, 1);
    let others = with_part(cut(t, from), t, to, t.len);
    with_refusals(s, with_part(others, t, from, to), Refusal::NotAbove)
}

// One of two ways, of a sheet with a line, its lines in rising order: the first line behind the last, where there are two; or the line at a place repeated.
pub fn out_of_order(s: Sheet, moves: bool, i: usize) -> Disordered {
    if moves && 1 < s.count {
        moved(s)
    } else {
        repeated(s, i)
    }
}
