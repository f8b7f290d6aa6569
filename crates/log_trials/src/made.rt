// The made cases: a whole log, numbered instants among the others, a beginning of it, a log with a damaged record, one with a wrong number, and a damaged sheet.
use crate::compare::{compare, held, with_number};
use crate::due::{Due, beginning, entries_of, number_of};
use crate::faulty::{WAYS, faulty_sheet};
use crate::tally;
use cases::damage::{DAMAGES, Record, damaged, whole};
use cases::list::{instant_at, run_of};
use cases::made::plan_of;
use cases::numbered::{WRONG, next_of, out_of_turn, wrong_number};
use cases::plan::{all_counted, has_counted};
use cases::random::{below, draw, one_in};
use cases::tally::{Ended, Tally, count, count_if};
use cases::tape::{Tape, front, no_bytes, sheet_tape, with_record};
use filler::run::Run;
use filler::whole_run::owing;
use gateway::{lift_instant_number, lift_sheet_number};
use records::instant::Instant;
use records::refusal::Refusal;
use records::sheet::Sheet;

const NARROW_CASES: u64 = 3000;

const WIDE_CASES: u64 = 1000;

// A made case.
#[derive(Clone, Copy)]
struct Made {
    // A sheet, and its bytes.
    sheet: Sheet,
    tape: Tape,
    // A run.
    run: Run,
    // The entries due of opening and of each instant.
    entries: [u8; 51],
}

// Each instant of a run with its number or plain, by a draw each.
fn numbered_run(run: Run, d: [u64; 48]) -> Run {
    let mut next = run;
    for (i, v) in next.instants.iter_mut().enumerate() {
        *v = next_of(*v, i, one_in(d, 8 + i, 2));
    }
    next
}

// A log with the records of the instants from one place to before another.
fn with_records(log: Tape, clocks: u8, run: Run, from: usize, to: usize) -> Tape {
    (from..to).fold(log, |all, i| {
        with_record(all, whole(instant_at(run, i), clocks))
    })
}

fn compared(sheet: Tape, log: Tape, due: &Due, t: Tally) -> Tally {
    compare(
        front(&sheet.bytes, sheet.len),
        front(&log.bytes, log.len),
        due,
        t,
    )
}

// A log of the first n instants.
fn taken(c: Made, n: usize, t: Tally) -> Tally {
    let log = with_records(no_bytes(), c.sheet.clocks, c.run, 0, n);
    let entries = c.entries;
    let owing = owing(c.sheet, beginning(c.run, n));
    let due = Due {
        refusal: None,
        taken: n,
        entries,
        owing,
        is_counted: all_counted(c.sheet),
    };
    compared(c.tape, log, &due, t)
}

// What is due where a record or the sheet is refused.
fn refused(refusal: Option<Refusal>, n: usize, entries: [u8; 51]) -> Due {
    let owing = [0; 8];
    Due {
        refusal,
        taken: n,
        entries,
        owing,
        is_counted: false,
    }
}

// A record with a byte too many is refused by its kind: the byte counts to the next.
fn refusal_in_log(r: Record, how: u64) -> Option<Refusal> {
    if how == 2 {
        Some(Refusal::NotInstant)
    } else {
        r.refusal
    }
}

// A record that is refused after the first n instants; then the others, unless it is torn.
fn refused_log(
    c: Made,
    n: usize,
    r: Record,
    refusal: Option<Refusal>,
    is_torn: bool,
    t: Tally,
) -> Tally {
    let clocks = c.sheet.clocks;
    let to = if is_torn { n } else { c.run.count };
    let log = with_record(with_records(no_bytes(), clocks, c.run, 0, n), r);
    let longer = with_records(log, clocks, c.run, n, to);
    let entries = c.entries;
    compared(c.tape, longer, &refused(refusal, n, entries), t)
}

fn sheet_number(tape: Tape, due: Option<Refusal>, t: Tally) -> Tally {
    let n = lift_sheet_number(front(&tape.bytes, tape.len));
    held(n == number_of(due), with_number(n, t), tally::SHEET_NUMBER)
}

// The sheet as it is, then damaged in one way, with a log of the first n instants.
fn damaged_sheet(c: Made, n: usize, d: [u64; 48], t: Tally) -> Tally {
    let t = sheet_number(c.tape, None, t);
    // (a usize has no `From` of 64 bits, nor they of it; here and below)
    let i = below(d, 3, c.sheet.count as u64) as usize;
    let f = faulty_sheet(c.tape, c.sheet, below(d, 2, WAYS), i);
    let due = Some(f.refusal);
    let t = sheet_number(f.tape, due, t);
    let log = with_records(no_bytes(), c.sheet.clocks, c.run, 0, n);
    let entries = c.entries;
    compared(f.tape, log, &refused(due, 0, entries), t)
}

fn instant_number(r: Record, clocks: u8, due: Option<Refusal>, t: Tally) -> Tally {
    let n = lift_instant_number(front(&r.bytes, r.len), clocks);
    held(
        n == number_of(due),
        with_number(n, t),
        tally::INSTANT_NUMBER,
    )
}

// An instant's record as it is, with whatever number, for clock counts that no sheet has, and damaged.
fn instant_numbers(v: Instant, clocks: u8, how: u64, t: Tally) -> Tally {
    let r = whole(v, clocks);
    let t = instant_number(r, clocks, None, t);
    let other = out_of_turn(v, clocks, wrong_number(0, how));
    let t = instant_number(other, clocks, None, t);
    let clock_count = Some(Refusal::ClockCount);
    let t = instant_number(r, 0, clock_count, t);
    let t = instant_number(r, 9, clock_count, t);
    let bad = damaged(v, clocks, how);
    instant_number(bad, clocks, bad.refusal, t)
}

// All that is compared of a case, with a place in it, ways of damage and a wrong number drawn.
fn tried(c: Made, d: [u64; 48], t: Tally) -> Tally {
    let clocks = c.sheet.clocks;
    let all = c.run.count;
    let n = below(d, 0, all as u64) as usize;
    let how = below(d, 1, DAMAGES);
    let v = instant_at(c.run, n);
    let bad = damaged(v, clocks, how);
    let skipped = out_of_turn(v, clocks, wrong_number(n, below(d, 4, WRONG)));
    let t = taken(c, all, t);
    let t = taken(c, n, t);
    let t = refused_log(c, n, bad, refusal_in_log(bad, how), how < 2, t);
    let t = refused_log(c, n, skipped, skipped.refusal, false, t);
    let t = damaged_sheet(c, n, d, t);
    instant_numbers(v, clocks, how, t)
}

fn case(is_wide: bool, number: u64, from: u64, tally: Tally) -> Ended {
    let first = draw(from);
    let plan = plan_of(is_wide, number, first.numbers);
    let sheet = plan.sheet;
    let made = run_of(plan, first.last);
    let drawn = draw(made.last);
    let d = drawn.numbers;
    let run = numbered_run(made.run, d);
    let tape = sheet_tape(sheet);
    let entries = entries_of(sheet, run);
    let c = Made {
        sheet,
        tape,
        run,
        entries,
    };
    let place = if is_wide { tally::WIDE } else { tally::NARROW };
    let told = count_if(has_counted(sheet), count(tally, place), tally::COUNTED);
    let told = tried(c, d, told);
    Ended {
        last: drawn.last,
        tally: told,
    }
}

// So many cases, from the first number of the sequence. An array in a field is read into a variable before it is handed on: the proof of the function asks for it.
fn cases_of(is_wide: bool, cases: u64, tally: Tally) -> Tally {
    let mut e = Ended { last: 1, tally };
    for number in 0..cases {
        let told = e.tally;
        e = case(is_wide, number, e.last, told);
    }
    let told = e.tally;
    told
}

pub fn all(tally: Tally) -> Tally {
    let t = cases_of(false, NARROW_CASES, tally);
    cases_of(true, WIDE_CASES, t)
}
