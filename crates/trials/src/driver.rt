// A driver that sends numbered records of one list, and drops, repeats, reorders and resends them: the run is a beginning of the list.
use crate::tally;
use crate::trial::{Trial, opened, refused, taken};
use cases::course::idle_instant;
use cases::list::{instant_at, run_of};
use cases::made::plan_of;
use cases::numbered::{out_of_turn, with_number};
use cases::random::{below, draw};
use cases::tally::{Ended, Tally, count, count_if};
use filler::run::Run;
use records::instant::Instant;

// How many records are sent in a case.
const SENDS: usize = 16;

// The instant that has a number in the list; for another number any.
fn instant_of(all: Run, n: u64) -> Instant {
    // (a usize has no `From` of 64 bits, nor they of it; here and below)
    let at = (n % 65536) as usize;
    if at == 0 {
        return idle_instant();
    }
    instant_at(all, at - 1)
}

// The number that is sent next: most often the next of the list, while there is one, else the last again, one too early, any of the list, or one that no record of it has.
fn number_of(held: u64, most: u64, d: [u64; 48]) -> u64 {
    let h = held % 65536;
    match below(d, 0, 8) {
        0..=3 => most.min(h + 1),
        4 => h,
        5 => most.min(h + 2),
        6 => most.min(below(d, 1, most) % 65536 + 1),
        _ => below(d, 2, 2) * 65535,
    }
}

// The place of a number in the tally, by whether it is the next of the list, held already, too early, or of no record of it.
fn place_of(n: u64, held: u64, most: u64) -> usize {
    if n == 0 || most < n {
        tally::NO_NUMBER
    } else if n <= held {
        tally::REPEATED_NUMBER
    } else if n - held == 1 {
        tally::NEXT_NUMBER
    } else {
        tally::EARLY_NUMBER
    }
}

// Sends the record with a number: it is taken if it is the next of the list.
fn send(t: Trial, all: Run, d: [u64; 48]) -> Trial {
    let held = t.run.count as u64;
    let most = all.count as u64;
    let n = number_of(held, most, d);
    let v = instant_of(all, n);
    let place = place_of(n, held, most);
    let mut next = t;
    next.tally = count(t.tally, place);
    if place == tally::NEXT_NUMBER {
        taken(next, with_number(v, n))
    } else {
        refused(next, out_of_turn(v, t.sheet.clocks, n))
    }
}

// A case by how much of its list is held, which the monitor must say too.
fn counted(t: Trial, all: Run) -> Tally {
    let held = t.run.count;
    let told = count_if(held == all.count, t.tally, tally::WHOLE_LIST);
    let told = count_if(held < all.count, told, tally::PART_OF_LIST);
    count_if(t.monitor.instants != held, told, tally::DIFFERENT)
}

// Runs a case of at most four clocks from a number of the sequence.
pub fn case(number: u64, from: u64, tally: Tally) -> Ended {
    let drawn = draw(from);
    let plan = plan_of(false, number, drawn.numbers);
    let listed = run_of(plan, drawn.last);
    let mut last = listed.last;
    let mut t = opened(plan.sheet, 0, tally);
    for _ in 0..SENDS {
        let more = draw(last);
        t = send(t, listed.run, more.numbers);
        last = more.last;
    }
    Ended {
        last,
        tally: counted(t, listed.run),
    }
}
