// Rows compared: whether the row after those found is one of them. Numbers of lines and clocks come from a plan, whose type bounds them.
ghost use Rattle.std.specs.Prelude.{◌≡◌, false, not, ◌||◌, ℕ, ◌+◌, ◌≤◌, ◌<◌, eqb, get_or, is_none};
ghost use Rattle.std.specs.Bool.{beq};
ghost use Rattle.records.specs.Sheet.{SheetValue};
ghost use Rattle.tesl.specs.Lists.{any, below};
ghost use Rattle.theory.specs.Adding.{same_by_count};
ghost use Rattle.work.specs.View.{used_part};
ghost use Rattle.work.specs.Work.{same_counted};
ghost use Rattle.work.specs.Parts.{Leading};
ghost use Rattle.remainders.specs.View.{same_stored};
ghost use Rattle.remainders.specs.Rows.{height, part_number, row_set, row_lead, row_stop, row_of, rows_of, FewOwed, LargerSet, Comparing};

use crate::rows::{LEADS, Part, SIZE, STOPPED, obligation_at, row_count, row_owes, word_at};
use crate::word::flag_in;

// Rows i and x have different leads of line k; only the leads of precedes lines are in use. (Which are is lent: by value it would be copied for each row.)
fn lead_differs(rows: &[u32; SIZE], i: usize, x: usize, k: usize, precede: &[bool; 16]) -> bool
    requires { (i < height) × ((x < height) × (k < 16)) }
    ensures { result ≡ not (not (get_or precede.now k false) || eqb (row_lead rows.now x k) (row_lead rows.now i k)) }
{
    precede[k] && word_at(rows, x, LEADS + k) != word_at(rows, i, LEADS + k)
}

// The last line whose leads tell rows i and x apart; none where they lead alike. (It is called where the likely line does not tell: inlined, it would slow down all other rows.)
#[inline(never)]
fn last_unlike(
    rows: &[u32; SIZE],
    i: usize,
    x: usize,
    leaders: usize,
    precede: &[bool; 16],
) -> Option<usize>
    requires { (i < height) × ((x < height) × (leaders ≤ 16)) }
    ensures { is_none result ≡ below leaders (λ (k : ℕ). not (get_or precede.now k false) || eqb (row_lead rows.now x k) (row_lead rows.now i k)) }
{
    for k in (0..leaders).rev() {
        if lead_differs(rows, i, x, k, precede) {
            return Some(k);
        }
    }
    None
}

// A line whose leads tell rows i and x apart, or none: the likely one first, which told the last rows apart.
fn unlike_lead(
    rows: &[u32; SIZE],
    i: usize,
    x: usize,
    leaders: usize,
    precede: &[bool; 16],
    likely: usize,
) -> Option<usize>
    requires { (i < height) × ((x < height) × (leaders ≤ 16)) }
    ensures { is_none result ≡ below leaders (λ (k : ℕ). not (get_or precede.now k false) || eqb (row_lead rows.now x k) (row_lead rows.now i k)) }
{
    if leaders == 0 {
        return None;
    }
    if likely < leaders && lead_differs(rows, i, x, likely, precede) {
        return Some(likely);
    }
    last_unlike(rows, i, x, leaders, precede)
}

// The same of the sheet's clocks are stopped in rows i and x.
fn same_stopped(rows: &[u32; SIZE], i: usize, x: usize, clocks: usize) -> bool
    requires { (i < height) × ((x < height) × (clocks ≤ 8)) }
    ensures { result ≡ below clocks (λ (k : ℕ). beq (row_stop rows.now x k) (row_stop rows.now i k)) }
{
    for k in 0..clocks {
        let is_stopped = flag_in(word_at(rows, x, STOPPED + k));
        if is_stopped != flag_in(word_at(rows, i, STOPPED + k)) {
            return false;
        }
    }
    true
}

// The same is in a part of rows i and x, where each has it once.
fn same_set(rows: &[u32; SIZE], i: usize, x: usize, part: Part) -> bool
    requires { Comparing rows.now i x (part_number part) }
    ensures { result ≡ same_by_count same_stored (row_set rows.now x (part_number part)) (row_set rows.now i (part_number part)) }
{
    let n = row_count(rows, i, part);
    if row_count(rows, x, part) != n {
        return false;
    }
    for j in 0..n {
        if !row_owes(rows, x, part, obligation_at(rows, i, part, j)) {
            return false;
        }
    }
    true
}

// The part of row x that has more in it.
fn larger_set(rows: &[u32; SIZE], x: usize) -> Part
    requires { x < height }
    ensures { LargerSet rows.now x (part_number result) }
{
    if row_count(rows, x, Part::Obligations) < row_count(rows, x, Part::Countdowns) {
        Part::Countdowns
    } else {
        Part::Obligations
    }
}

// Row first + n is one of the n rows from `first` on; the comparison stops at the first equal one. The larger set's count tells most rows apart, so it is asked first; what is in the sets comes last, and not at all where both are empty.
pub fn is_duplicate(
    rows: &[u32; SIZE],
    first: usize,
    n: usize,
    clocks: usize,
    leaders: usize,
    precede: [bool; 16],
) -> bool
    requires { (clocks ≤ 8) × ((leaders ≤ 16) × ((first + n < height) × FewOwed rows.now first (n + 1))) }
    ensures { (v : SheetValue) → v.clocks ≡ clocks → Leading v leaders precede → result ≡ any (same_counted (used_part v (row_of rows.now (first + n)))) (rows_of v rows.now first n) }
{
    if n == 0 {
        return false;
    }
    let x = first + n;
    let larger = larger_set(rows, x);
    let count = row_count(rows, x, larger);
    let smaller = larger.other();
    let fewer = row_count(rows, x, smaller);
    let owed = row_count(rows, x, Part::Obligations);
    let mut likely = 0;
    'held: for k in 0..n {
        let i = first + k;
        if row_count(rows, i, larger) != count {
            continue;
        }
        if let Some(unlike) = unlike_lead(rows, i, x, leaders, &precede, likely) {
            likely = unlike;
            continue;
        }
        if !same_stopped(rows, i, x, clocks) {
            continue;
        }
        let as_many = row_count(rows, i, smaller) == fewer;
        if !as_many {
            continue;
        }
        if count == 0 {
            return true;
        }
        if !same_set(rows, i, x, Part::Countdowns) {
            continue;
        }
        for j in 0..owed {
            if !row_owes(
                rows,
                x,
                Part::Obligations,
                obligation_at(rows, i, Part::Obligations, j),
            ) {
                continue 'held;
            }
        }
        return true;
    }
    false
}
