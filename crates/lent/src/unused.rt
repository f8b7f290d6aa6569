// Words that no remainder uses are zero: what an instant leaves behind in them is cleared.
ghost use Rattle.std.specs.Prelude.{◌+◌, ◌<◌, ◌≤◌};
ghost use Rattle.remainders.specs.Rows.{height, width, part_number, FewInRow};
ghost use Rattle.judge.specs.Stored.{Reading, Copying, FindingRows};
ghost use Rattle.lent.specs.Cleared.{ClearedPart, ClearedRows, ClearedOwed, ClearedSets, ClearedLeads, ClearedUnused, ClearedEach, Holding, ClearedBeside, ClearedFound, Tidying, Tidied};

use lines::plan::Plan;
use remainders::held::live_in;
use remainders::rows::{
    FIRST_PLACE, LEADS, PART_WORDS, Part, SIDE, SIDES, SIZE, STOPPED, WIDTH, clear_words, put_word,
    row_count,
};

// Clears the words lo to hi - 1 of row i.
fn clear_part(rows: &mut [u32; SIZE], i: usize, lo: usize, hi: usize)
    requires { (i < height) × ((lo ≤ width) × (hi ≤ width)) }
    ensures { ClearedPart i lo hi rows.old rows.new }
{
    clear_words(rows, WIDTH * i + lo, WIDTH * i + hi);
}

// Clears n rows from row `first` on.
pub(crate) fn clear_rows(rows: &mut [u32; SIZE], first: usize, n: usize)
    requires { (first ≤ height) × (first + n ≤ height) }
    ensures { ClearedRows first n rows.old rows.new }
{
    clear_words(rows, WIDTH * first, WIDTH * (first + n));
}

// Clears the places of a part of row i past its first n.
fn clear_owed(rows: &mut [u32; SIZE], i: usize, part: Part, n: usize)
    requires { (i < height) × (n ≤ 8) }
    ensures { ClearedOwed i (part_number part) n rows.old rows.new }
{
    let at = part.start();
    clear_part(rows, i, at + FIRST_PLACE + n, at + PART_WORDS);
}

// Clears the places of row i past the counts of its sets.
fn clear_sets(rows: &mut [u32; SIZE], i: usize)
    requires { (i < height) × FewInRow rows.old i }
    ensures { ClearedSets i rows.old rows.new }
{
    let owed = row_count(rows, i, Part::Obligations);
    clear_owed(rows, i, Part::Obligations, owed);
    let counting = row_count(rows, i, Part::Countdowns);
    clear_owed(rows, i, Part::Countdowns, counting);
}

// Clears the leads of row i but those of precedes lines: before `leaders`, where there is a flag.
fn clear_leads(rows: &mut [u32; SIZE], i: usize, leaders: usize, precede: [bool; 16])
    requires { (i < height) × (leaders ≤ 16) }
    ensures { ClearedLeads leaders precede i rows.old rows.new }
{
    for k in 0..leaders {
        if !precede[k] {
            put_word(rows, i, LEADS + k, 0);
        }
    }
    clear_part(rows, i, LEADS + leaders, STOPPED);
}

// Clears the words of row i that its remainder doesn't use.
fn clear_unused(rows: &mut [u32; SIZE], i: usize, plan: Plan)
    requires { Reading rows.old i }
    ensures { ClearedUnused plan i rows.old rows.new }
{
    clear_sets(rows, i);
    clear_leads(rows, i, plan.leaders, plan.precede);
    clear_part(rows, i, STOPPED + plan.clocks, WIDTH);
}

// Clears what the remainders of n rows from row `from` on don't use in them.
fn clear_each(rows: &mut [u32; SIZE], from: usize, n: usize, plan: Plan)
    requires { Copying rows.old from n }
    ensures { ClearedEach plan from n rows.old rows.new }
{
    for k in 0..n {
        clear_unused(rows, from + k, plan);
    }
}

// Clears every word of the two sides that no remainder held from row `from` on uses, whatever stands there.
pub(crate) fn clear_beside(rows: &mut [u32; SIZE], from: usize, count: Option<usize>, plan: Plan)
    requires { Holding rows.old from count }
    ensures { ClearedBeside plan from count rows.old rows.new }
{
    let n = live_in(count);
    clear_rows(rows, SIDES - from, SIDE);
    clear_rows(rows, from + n, SIDE - n);
    clear_each(rows, from, n, plan);
}

// Clears what was built from row `to` on and is used by no remainder found there.
fn clear_found(rows: &mut [u32; SIZE], to: usize, count: Option<usize>, plan: Plan)
    requires { FindingRows rows.old count to }
    ensures { ClearedFound plan to count rows.old rows.new }
{
    match count {
        None => clear_rows(rows, to, SIDE),
        Some(n) => {
            clear_rows(rows, to + n, 1);
            clear_each(rows, to, n, plan);
        }
    }
}

// After an instant on those that were held from row `from` on: clears their rows, and on the other side what was built there and is used by none of those found. Where none was held, nothing was worked, and there is nothing to clear.
pub(crate) fn tidy(
    rows: &mut [u32; SIZE],
    from: usize,
    was: Option<usize>,
    count: Option<usize>,
    plan: Plan,
)
    requires { Tidying rows.old from was count }
    ensures { Tidied plan from was count rows.old rows.new }
{
    let n = live_in(was);
    if n == 0 {
        return;
    }
    clear_rows(rows, from, n);
    clear_found(rows, SIDES - from, count, plan);
}
