// A case under way: the monitor is called, and what it answers is held against the judge of the whole run, and against what it answers to the same sheet in another order.
use crate::others::{Others, both_counted, both_next, both_opened};
use crate::reply::{is_verdict, live_of};
use crate::tally;
use cases::course::tick_at;
use cases::damage::{Record, whole};
use cases::disorder::Disordered;
use cases::plan::{all_counted, has_counted};
use cases::tally::{Tally, count, count_answer, count_if};
use cases::tape::{front, sheet_tape};
use filler::run::{Run, no_instants, with_instant};
use filler::whole_run::judge as verdict_of;
use judge::answer::Answer;
use judge::monitor::{CallResult, Monitor, observe, open};
use logs::entry::{answer_code, clear_code};
use records::instant::{Instant, Tick};
use records::number;
use records::refusal::Refusal;
use records::sheet::Sheet;
use remainders::remainder::Remainder;

// A case under way.
#[derive(Clone, Copy)]
pub struct Trial {
    pub sheet: Sheet,
    // The instants taken so far.
    pub run: Run,
    // The monitor given back last.
    pub monitor: Monitor,
    // Those of the sheet in another order.
    pub others: Others,
    // The last answer.
    pub answer: Answer,
    // What was counted.
    pub tally: Tally,
}

// An answer by its kind.
fn counted(t: Tally, a: Answer) -> Tally {
    let answer = u64::from(answer_code(a));
    count_answer(t, tally::ANSWERS, answer, u64::from(clear_code(a)))
}

// A ninth owed by its sort, where the sheet has lines of one sort alone.
fn with_ninth(t: Tally, s: Sheet) -> Tally {
    let t = count_if(all_counted(s), t, tally::NINTH_COUNTDOWN);
    count_if(!has_counted(s), t, tally::NINTH_OBLIGATION)
}

// Cases that became exhausted. Of at most four clocks an instant has at most 16 fillings: where live was 1, it was nine owed.
fn counted_end(t: Tally, before: usize, a: Answer, s: Sheet) -> Tally {
    match a {
        Answer::Exhausted => {
            let t = count_if(17 <= before, t, tally::BY_LIVE);
            if before == 1 {
                with_ninth(count(t, tally::BY_OWED), s)
            } else {
                t
            }
        }
        Answer::Broken | Answer::Holding { .. } => t,
    }
}

// The first remainder of a monitor that holds one.
fn first_of(m: Monitor) -> Remainder {
    m.held.remainders[0]
}

// A remainder by its eight obligations, its eight countdowns.
fn with_full(t: Tally, r: Remainder) -> Tally {
    let owes = r.owed == number::MAX_OWED;
    let counts = r.counting == number::MAX_OWED;
    let t = count_if(owes, t, tally::FULL);
    let t = count_if(counts, t, tally::COUNTING_FULL);
    count_if(owes && counts, t, tally::BOTH_FULL)
}

// What is counted of an answer.
fn tallied(t: Tally, before: usize, a: Answer, m: Monitor) -> Tally {
    let live = live_of(a);
    let t = counted_end(counted(t, a), before, a, m.sheet);
    if live == 0 {
        return t;
    }
    let t = count_if(live == 31, t, tally::LIVE_31);
    let t = count_if(live == 32, t, tally::LIVE_32);
    with_full(t, first_of(m))
}

// Whether the first remainder held counts ticks of a clock that is unseen in an instant.
pub fn is_on_unseen(t: Trial, v: Instant) -> bool {
    if live_of(t.answer) == 0 {
        return false;
    }
    let r = first_of(t.monitor);
    r.countdowns
        .iter()
        .take(r.counting)
        .any(|c| matches!(tick_at(v, usize::from(c.on)), Tick::Unseen))
}

// What a call gave.
#[derive(Clone, Copy)]
struct Outcome {
    // The answer, the last one where it was refused.
    answer: Answer,
    // What was counted.
    tally: Tally,
}

// What is counted of a refusal, where one is due or an answer.
fn refusal_counted(t: Tally, refusal: Refusal, due: Option<Refusal>) -> Tally {
    let t = count_if(due == Some(Refusal::NotNext), t, tally::BY_NUMBER);
    let place = if due == Some(refusal) {
        tally::REFUSED
    } else {
        tally::DIFFERENT
    };
    count(t, place)
}

// Whether no refusal is due, and the answer is as the judge of the whole run gives it.
fn is_due(a: Answer, due: Option<Refusal>, sheet: Sheet, run: Run) -> bool {
    due.is_none() && is_verdict(a, verdict_of(sheet, run))
}

// What a call gave to a run of a sheet, after an answer; due is a refusal, or with none the answer of the judge of the whole run.
fn outcome_of(
    sheet: Sheet,
    run: Run,
    before: Answer,
    t: Tally,
    g: CallResult,
    due: Option<Refusal>,
) -> Outcome {
    match g.reply {
        Err(refusal) => Outcome {
            answer: before,
            tally: refusal_counted(t, refusal, due),
        },
        Ok(answer) => {
            let told = tallied(t, live_of(before), answer, g.monitor);
            let differs = !is_due(answer, due, sheet, run);
            Outcome {
                answer,
                tally: count_if(differs, told, tally::DIFFERENT),
            }
        }
    }
}

// A trial after a call, the others having been called too.
fn after(
    sheet: Sheet,
    run: Run,
    others: Others,
    before: Answer,
    t: Tally,
    g: CallResult,
    due: Option<Refusal>,
) -> Trial {
    let told = both_counted(t, others, g.reply);
    let outcome = outcome_of(sheet, run, before, told, g, due);
    let tally = outcome.tally;
    Trial {
        sheet,
        run,
        monitor: g.monitor,
        others,
        answer: outcome.answer,
        tally,
    }
}

// Opens a sheet, in another order with the line at a place repeated; one that can't be written counts as a difference.
pub fn opened(sheet: Sheet, i: usize, tally: Tally) -> Trial {
    let tape = sheet_tape(sheet);
    let g = open(front(&tape.bytes, tape.len));
    let others = both_opened(sheet, i, g);
    let told = count(tally, tally::CASES);
    after(sheet, no_instants(), others, Answer::Broken, told, g, None)
}

// Hands bytes over; the case goes on with the monitor given back and a run.
fn called(t: Trial, run: Run, bytes: &[u8], due: Option<Refusal>) -> Trial {
    let g = observe(t.monitor, bytes);
    let others = both_next(t.others, bytes);
    after(t.sheet, run, others, t.answer, t.tally, g, due)
}

// Hands an instant over.
pub fn taken(t: Trial, v: Instant) -> Trial {
    let r = whole(v, t.sheet.clocks);
    let run = with_instant(t.run, v);
    called(t, run, front(&r.bytes, r.len), None)
}

// Hands a record over that is due a refusal.
pub fn refused(t: Trial, r: Record) -> Trial {
    called(t, t.run, front(&r.bytes, r.len), r.refusal)
}

// Opens a sheet with its lines out of order, which is refused.
pub fn not_opened(x: Disordered, told: Tally) -> Tally {
    let g = open(front(&x.tape.bytes, x.tape.len));
    if g.reply != Err(x.refusal) {
        return count(told, tally::DIFFERENT);
    }
    let t = count(told, tally::REFUSED);
    let t = count_if(x.refusal == Refusal::NinthSporadic, t, tally::BY_NINTH);
    count_if(x.refusal == Refusal::NotAbove, t, tally::BY_ORDER)
}
