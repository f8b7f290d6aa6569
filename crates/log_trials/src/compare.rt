// Each call with the bytes of a sheet and a log, held against what is due.
use crate::due::{
    BROKEN, Due, EXHAUSTED, Entry, NO_ANSWER, entry_bytes, holding, pack, panel_due, result_due,
    short_due,
};
use crate::tally;
use cases::tally::{Tally, count, count_answer, count_if};
use cases::tape::front;
use gateway::{lift_judge, lift_panel, lift_watch};
use judge::answer::Answer;
use logs::log::{Judged, judge_log};

// A byte that no entry has.
const BLANK: u8 = 165;

// Counts a call, and a difference where it isn't as due.
pub fn held(is_due: bool, t: Tally, at: usize) -> Tally {
    count_if(!is_due, count(t, at), tally::DIFFERENT)
}

// Counts a refusal by its number.
pub fn with_number(n: u8, t: Tally) -> Tally {
    count(t, tally::NUMBERS + usize::from(n))
}

fn entry_of(a: Answer) -> Entry {
    match a {
        Answer::Exhausted => EXHAUSTED,
        Answer::Broken => BROKEN,
        Answer::Holding { live, clear } => holding(live, clear),
    }
}

fn packed(j: Judged) -> u64 {
    match j.reply {
        Err(refusal) => pack(u8::from(refusal), NO_ANSWER, j.instants),
        Ok(a) => pack(0, entry_of(a), j.instants),
    }
}

// Counts a result by its number, or its answer.
fn with_result(r: u64, is_counted: bool, t: Tally) -> Tally {
    let [number, answer, _, clear, ..] = r.to_le_bytes();
    let (answer, clear) = (u64::from(answer), u64::from(clear));
    let t = with_number(number, t);
    let t = count_answer(t, tally::ANSWERS, answer, clear);
    if is_counted {
        count_answer(t, tally::COUNTED_ANSWERS, answer, clear)
    } else {
        t
    }
}

fn judged(sheet: &[u8], log: &[u8], due: &Due, t: Tally) -> Tally {
    let wanted = result_due(due);
    let j = judge_log(sheet, log);
    let t = held(packed(j) == wanted, t, tally::JUDGE_LOG);
    let r = lift_judge(sheet, log);
    let t = with_result(r, due.is_counted, t);
    held(r == wanted, t, tally::LIFT_JUDGE)
}

// A result, and the buffer after it.
#[derive(Clone, Copy)]
struct Outcome {
    // The result.
    result: u64,
    // The buffer.
    out: [u8; 64],
}

// Lends the first `room` bytes.
fn watch(sheet: &[u8], log: &[u8], room: usize) -> Outcome {
    let mut out = [BLANK; 64];
    let result = match out.get_mut(..room) {
        Some(lent) => lift_watch(sheet, log, lent),
        None => 0,
    };
    Outcome { result, out }
}

// Whether a result is as due, and the buffer holds n bytes of entries, later bytes as they were; the entry of opening is left out.
fn is_watched(w: &Outcome, wanted: u64, due: &Due, n: usize) -> bool {
    w.result == wanted
        && front(&w.out, n) == front(&due.entries[3..], n)
        && w.out.iter().skip(n).all(|x| *x == BLANK)
}

// With room for the entries, and for up to two bytes more.
fn watched(sheet: &[u8], log: &[u8], due: &Due, t: Tally) -> Tally {
    let n = entry_bytes(due);
    let w = watch(sheet, log, n + due.taken % 3);
    held(
        is_watched(&w, result_due(due), due, n),
        t,
        tally::LIFT_WATCH,
    )
}

// With a byte too little.
fn watched_short(sheet: &[u8], log: &[u8], due: &Due, t: Tally) -> Tally {
    let n = entry_bytes(due);
    if n == 0 {
        return t;
    }
    let w = watch(sheet, log, n - 1);
    let number = (w.result % 256) as u8;
    held(
        is_watched(&w, short_due(due), due, 0),
        with_number(number, t),
        tally::SHORT,
    )
}

// Counts a panel's result that has a tick owed.
fn with_owing(r: u64, is_counted: bool, t: Tally) -> Tally {
    let [_, _, owing, ..] = r.to_le_bytes();
    if owing == 0 {
        return t;
    }
    count_if(is_counted, count(t, tally::OWING), tally::COUNTED_OWING)
}

// A clock that the panel shows.
fn with_clock(sheet: &[u8], log: &[u8], due: &Due, clock: u8, t: Tally) -> Tally {
    let r = lift_panel(sheet, log, clock);
    let t = with_owing(r, due.is_counted, t);
    held(r == panel_due(due, clock), t, tally::LIFT_PANEL)
}

// What is compared; of the panel every clock, and one that no sheet has.
pub fn compare(sheet: &[u8], log: &[u8], due: &Due, t: Tally) -> Tally {
    let t = judged(sheet, log, due, t);
    let t = watched(sheet, log, due, t);
    let t = watched_short(sheet, log, due, t);
    (0..9).fold(t, |t, clock| with_clock(sheet, log, due, clock, t))
}
