// The judge: every beginning of a run, every filling of it.
ghost use Rattle.std.specs.Prelude.{◌≤◌, length};

use crate::fits::fits;
use crate::found::{Found, is_clear, none_found, owing_count, with_remainder};
use crate::history::{Filled, fill, filling_count};
use crate::remainder::remainder_of;
use crate::run::{Run, instants};
use crate::verdict::Verdict;
use records::instant::Instant;
use records::sheet::Sheet;

// With the remainder of a filled run, if it fits; none where there are too many, or it has too many obligations.
fn with_filled(s: Sheet, f: &[Filled], found: Found) -> Option<Found> {
    if fits(s, f) {
        with_remainder(found, remainder_of(s, f)?)
    } else {
        Some(found)
    }
}

// The distinct remainders of a beginning of a run; none where there are too many, or one has too many obligations.
fn remainders_of(s: Sheet, run: &[Instant]) -> Option<Found>
    requires { length run.now ≤ 16 }
{
    let mut found = none_found();
    for filling in 0..filling_count(s, run) {
        let filled = fill(s, run, filling);
        found = with_filled(s, &filled[..run.len()], found)?;
    }
    Some(found)
}

// What the distinct remainders of the whole run say of it.
fn verdict_of(found: &Found) -> Verdict {
    match found.all().len() {
        0 => Verdict::Broken,
        live => Verdict::Holding {
            live,
            clear: is_clear(found),
        },
    }
}

// The distinct remainders of the whole run; none where it or a beginning of it is exhausted.
fn all_of(sheet: Sheet, run: Run) -> Option<Found> {
    let all = instants(&run);
    for n in 0..all.len() {
        let _ = remainders_of(sheet, &all[..n])?;
    }
    remainders_of(sheet, all)
}

// Instants past the sixteenth are left out, unseen ticks past the twelfth are idle.
pub fn judge(sheet: Sheet, run: Run) -> Verdict {
    match all_of(sheet, run) {
        None => Verdict::Exhausted,
        Some(found) => verdict_of(&found),
    }
}

// How many of the remainders owe each clock a tick.
fn owing_counts(found: &Found) -> [usize; 8] {
    let mut counts = [0; 8];
    for k in 0..8u8 {
        counts[usize::from(k)] = owing_count(found, k);
    }
    counts
}

// How many of the run's distinct remainders owe each clock a tick; 0 unless the judge says holding.
pub fn owing(sheet: Sheet, run: Run) -> [usize; 8] {
    match all_of(sheet, run) {
        None => [0; 8],
        Some(found) => owing_counts(&found),
    }
}
