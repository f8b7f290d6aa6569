// The made cases.
use crate::reply::live_of;
use crate::scale::with_dues;
use crate::tally;
use crate::trial::{Trial, is_on_unseen, not_opened, opened, refused, taken};
use cases::course;
use cases::course::unseen_from;
use cases::damage::{DAMAGES, damaged};
use cases::disorder::out_of_order;
use cases::made::{instants_of, plan_of};
use cases::numbered::{WRONG, is_numbered, next_of, out_of_turn, with_number, wrong_number};
use cases::random::{below, draw, one_in};
use cases::tally::{Ended, Tally, count, count_if};
use records::instant::Instant;
use records::line::Line;
use records::sheet::{Sheet, line_at};

// The place of a line's kind in the tally.
fn kind_place(l: Line) -> usize {
    match l {
        Line::Sporadic { .. } => tally::SPORADIC,
        Line::Relation { .. } => tally::RELATION,
        Line::Implies { .. } => tally::IMPLIES,
        Line::Excludes { .. } => tally::EXCLUDES,
        Line::Delayed { .. } => tally::DELAYED,
        Line::Weakly { .. } => tally::WEAKLY,
        Line::Strictly { .. } => tally::STRICTLY,
        Line::Kills { .. } => tally::KILLS,
        Line::Counted { .. } => tally::COUNTED,
    }
}

// The lines of a sheet by their kind.
fn with_kinds(tally: Tally, s: Sheet) -> Tally {
    (0..s.count).fold(tally, |t, i| count(t, kind_place(line_at(s, i))))
}

// A call with a damaged instant, whose number may be wrong too: the damage comes first.
fn with_damage(t: Trial, v: Instant, how: u64, is_wrong: bool) -> Trial {
    let v = if is_wrong { with_number(v, 0) } else { v };
    refused(t, damaged(v, t.sheet.clocks, how))
}

// A call with an instant whose number is not the next.
fn with_wrong(t: Trial, v: Instant, how: u64) -> Trial {
    let n = wrong_number(t.run.count, how);
    refused(t, out_of_turn(v, t.sheet.clocks, n))
}

// None, one or two calls with a damaged instant, or one with a wrong number.
fn with_refusals(t: Trial, v: Instant, d: [u64; 48]) -> Trial {
    if one_in(d, 20, 8) {
        let once = with_damage(t, v, below(d, 21, DAMAGES), one_in(d, 25, 4));
        if one_in(d, 22, 2) {
            return with_damage(once, v, below(d, 23, DAMAGES), false);
        }
        return once;
    }
    if one_in(d, 26, 8) {
        return with_wrong(t, v, below(d, 27, WRONG));
    }
    t
}

// A sheet by its lines and its clocks.
fn with_sheet(tally: Tally, s: Sheet) -> Tally {
    count_if(s.clocks == 8, with_kinds(tally, s), tally::EIGHT)
}

// Of one case in eight, where it has a line, the sheet with its lines out of order.
fn with_disorder(sheet: Sheet, d: [u64; 48], tally: Tally) -> Tally {
    if sheet.count == 0 || !one_in(d, 45, 8) {
        return tally;
    }
    // (a usize has no `From` of 64 bits, nor they of it; here and below)
    let i = below(d, 47, sheet.count as u64) as usize;
    not_opened(out_of_order(sheet, one_in(d, 46, 2), i), tally)
}

// An instant by its form, its unseen ticks, and the delays that it may begin.
fn with_instant(t: Trial, v: Instant) -> Trial {
    let told = count_if(is_numbered(v), t.tally, tally::NUMBERED);
    let told = with_dues(told, t.sheet, v);
    let told = count_if(is_on_unseen(t, v), told, tally::ON_UNSEEN);
    let told = count_if(0 < unseen_from(v, 4), told, tally::HIGH_UNSEEN);
    let told = count_if(unseen_from(v, 0) == 8, told, tally::ALL_UNSEEN);
    let mut next = t;
    next.tally = told;
    next
}

// One instant more, plain or numbered, and refused calls before it.
fn step(t: Trial, v: Instant, d: [u64; 48]) -> Trial {
    let v = next_of(v, t.run.count, one_in(d, 24, 2));
    taken(with_refusals(with_instant(t, v), v, d), v)
}

// Opens a sheet; a line of it is drawn, to be repeated where it is opened in another order.
fn begin(sheet: Sheet, d: [u64; 48], tally: Tally) -> Trial {
    let i = below(d, 44, sheet.count as u64) as usize;
    opened(sheet, i, with_sheet(tally, sheet))
}

// Runs a case from a number of the sequence; after an answer that isn't holding comes one instant more.
fn case(is_wide: bool, number: u64, from: u64, tally: Tally) -> Ended {
    let drawn = draw(from);
    let d = drawn.numbers;
    let plan = plan_of(is_wide, number, d);
    let mut t = begin(plan.sheet, d, with_disorder(plan.sheet, d, tally));
    let mut c = course::begin(plan);
    let mut last = drawn.last;
    for _ in 0..instants_of(plan) {
        let held = 0 < live_of(t.answer);
        let more = draw(last);
        c = course::next(plan, c, more.numbers);
        t = step(t, c.instant, more.numbers);
        last = more.last;
        if !held {
            break;
        }
    }
    let tally = t.tally;
    Ended { last, tally }
}

// A case of at most four clocks.
pub fn narrow_case(number: u64, from: u64, tally: Tally) -> Ended {
    case(false, number, from, tally)
}

// A case of five to eight clocks.
pub fn wide_case(number: u64, from: u64, tally: Tally) -> Ended {
    case(true, number, from, tally)
}
